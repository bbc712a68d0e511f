//! Procedures by name and arity, and their clauses at a moment.
pub(crate) mod pi;
pub(crate) mod procedure;
pub(crate) mod snapshot;
pub(crate) mod table;
