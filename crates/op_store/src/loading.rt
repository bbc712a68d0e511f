//! The terms of a program's text, one after the other: clauses, directives, and why one is refused.
pub(crate) mod clause_parts;
pub(crate) mod directive;
pub(crate) mod entries;
pub(crate) mod flag_words;
pub(crate) mod indicator;
pub(crate) mod line;
pub(crate) mod load;
pub(crate) mod load_fault;
pub(crate) mod operators;
pub(crate) mod sentence;
pub(crate) mod term_fault;
