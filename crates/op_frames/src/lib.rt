//! What a machine keeps of a walk over a search tree: the boxes that were called, and the choice points that are left.
#![tactic(auto)]

mod boxes;
mod choice;
mod frames;
pub mod laws;
mod open_boxes;

pub use boxes::BoxFrame;
pub use choice::Choice;
pub use frames::Frames;
pub use open_boxes::OpenBoxes;
