ghost use Rattle.std.specs.Prelude.{◌<◌};

use crate::bracket::Bracket;
use op_term::{Meaning, Sym};

/// A name as an operator.
#[derive(Clone, Copy, Debug)]
pub(crate) struct Operator {
    pub name: Sym,
    pub meaning: Meaning,
    ghost positive: { 0 < meaning.priority },
}

/// What a word is where an operand is expected. Terms are nodes of a builder.
#[derive(Clone, Copy, Debug)]
pub(crate) enum AsOperand {
    /// A name whose arguments follow.
    Functor(Sym),
    /// The `-` of a negative number, with that number.
    Minus(u64),
    Prefix(Operator),
    Plain(u64),
    /// An integer that only a `-` before it could make one of 64 bits.
    Excess,
}

/// What a word is where an operator is expected.
#[derive(Clone, Copy, Debug)]
pub(crate) enum AsOperator {
    /// An infix or a postfix operator.
    Joins(Operator),
    Misplaced,
}

/// A token, or the two tokens of a name `[]` or `{}`, with its place.
#[derive(Clone, Copy, Debug)]
pub(crate) enum Word {
    Opened(u64, Bracket),
    Closed(u64),
    Comma(u64, AsOperator),
    Bar(u64),
    Other(u64, AsOperand, AsOperator),
}
