//! What is written is read again: laws over the definitions of texts and of reading, and a call that writes and reads.
#![tactic(auto)]

pub mod laws;
mod through_text;

pub use through_text::written_and_read;
