use crate::bound::Bound;
use op_term::Sym;

/// What is written as one fragment.
#[derive(Clone, Copy)]
pub enum Lexeme {
    /// A bracket, a comma, a bar or a space.
    Sign(u8),
    Name(Sym),
    /// A prefix operator of symbol characters.
    Prefix(Sym),
    Var(u64),
    Int(i64),
    /// A term `'$VAR'(N)`.
    Letter(u64),
}

/// What is left to write: a fragment, a term within a bound, a term as the rest of a list, or the arguments of a compound from an index on.
#[derive(Clone, Copy)]
pub enum Item<P> {
    Lexeme(Lexeme),
    Term(P, Bound),
    Rest(P),
    Further(P, u64),
}
