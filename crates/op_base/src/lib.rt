//! What every layer shares: the answer for out of memory, the ledger of steps, and the classes of characters.
#![tactic(auto)]

pub mod characters;
mod memory;
mod steps;

pub use memory::Memory;
pub use steps::Steps;
