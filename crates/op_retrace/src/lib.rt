//! The feed of a run's events: each place can be reached again, since the run is made again.
#![tactic(auto)]

mod coming;
mod fault;
mod feed;
pub mod laws;
mod retrace;

pub use fault::{Cause, FeedFault};
pub use feed::{Feed, FeedStep};
pub use retrace::Retrace;
