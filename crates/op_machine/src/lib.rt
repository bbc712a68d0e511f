//! The machine that walks the search tree of a goal, a turn at a time.
#![tactic(auto)]

mod advance;
mod boxes;
mod budget;
mod builtin_kind;
mod builtins;
mod catching;
mod choice_points;
mod clauses;
mod continuations;
mod control;
mod core_state;
mod goal_kind;
mod host;
mod inspection;
pub mod laws;
mod machine;
mod made_terms;
mod start;
mod throwing;
mod turn;
mod view;

pub use host::{Host, Nothing};
pub use machine::Machine;
pub use turn::{Cause, Ending, MachineFault, Turn};
pub use view::SolutionView;
