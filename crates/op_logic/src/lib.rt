//! What terms, bindings and unification are: the definitions that the contracts of all other crates speak of, and their laws.
#![tactic(auto)]

mod laws;

pub use laws::{
    budget_decides, followed_has_value, found_is_most_general, found_is_unifier, later_keeps_equal,
    names_differ, names_stay, no_bound_is_left, none_is_none, numbers_for_texts, one_reduction,
    one_result, solving_ends, value_of_bound,
};
