use crate::function::{Binary, Unary};
use op_bind::Ref;

/// A function whose arguments are not all evaluated yet.
#[derive(Clone, Copy)]
pub enum Pending {
    /// The only argument is evaluated.
    Single(Unary),
    /// The first argument is evaluated, and the second is this one.
    First(Binary, Ref),
    /// The second argument is evaluated, and the first has this value.
    Second(Binary, i64),
}

/// What comes next: an expression to evaluate, or the value of the last one.
#[derive(Clone, Copy)]
pub enum Next {
    Expression(Ref),
    Value(i64),
}
