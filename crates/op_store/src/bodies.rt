//! The body that a term stands for: its nodes, and it as a term.
pub(crate) mod body;
pub(crate) mod body_fault;
pub(crate) mod body_in;
pub(crate) mod body_node;
pub(crate) mod body_part;
pub(crate) mod build_body;
pub(crate) mod convert;
pub(crate) mod converted;
pub(crate) mod followed_terms;
pub(crate) mod link;
