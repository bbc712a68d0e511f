//! Moves between the places of a run, and patterns of its events, as definitions with their laws.
#![tactic(auto)]

mod laws;

pub use laws::{
    boxes_are_called, calls_are_found, furthest_never_falls, moves_cost, next_then_prev,
    place_stays, program_acts_go_on, runs_rise, search_back_finds_the_last, search_finds_the_next,
    tests_are_unification, the_end_is_told,
};
