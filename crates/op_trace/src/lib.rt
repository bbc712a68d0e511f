//! What a run of a program is: its worlds, the walk over its search tree, its turns and its ending, and the places in it.
#![tactic(auto)]

mod barrier;
mod flags;
pub mod laws;
mod port;

pub use barrier::Barrier;
pub use flags::Flags;
pub use port::Port;
