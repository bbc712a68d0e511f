use crate::bracket::Bracket;
use crate::word::Operator;
use op_term::Sym;

/// The role of a word. A functor and the number behind a sign have none of their own.
#[derive(Clone, Copy, Debug)]
pub(crate) enum Role {
    Separator,
    /// A list's bar.
    Tail,
    Operator(Operator),
    Operand(u64),
    /// An integer that is too great, with its place.
    Excess(u64),
    /// The opening bracket of a name's arguments.
    Compound(Sym),
    /// Another opening bracket.
    Bracketed(Bracket),
    Closed,
}
