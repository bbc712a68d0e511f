//! Terms by their outermost node.
pub(crate) mod atoms;
pub(crate) mod pair;
pub(crate) mod shape;
