//! Terms under bindings: variables that are given out, terms that are brought in, unification with a trail, and marks to return to.
#![tactic(auto)]

mod bindings;
mod copy;
mod laws;
mod load;
mod places;
mod rename;
mod renamed_copy;
mod resolve;
mod step;
mod unify;

pub use bindings::Bindings;
pub use copy::{copy_term, nodes_of};
pub use laws::{growth_joins, marks_nest, terms_stay, undone_is_then};
pub use places::{Clause, Mark, Ref, Unified};
