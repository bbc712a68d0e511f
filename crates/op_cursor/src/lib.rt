//! Patterns of events, and moves between the events of a run.
#![tactic(auto)]

mod cursor;
mod fault;
mod find;
mod found;
mod matching;
mod outline;
mod own_names;
mod part;
mod pattern;
mod search;
mod values;
mod walk;

pub use cursor::{Cursor, Move};
pub use fault::{CursorFault, PatternFault};
pub use pattern::Pattern;
