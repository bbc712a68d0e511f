//! The outside of a run: named files and five channels of bytes, over memory or over the system.
#![tactic(auto)]

mod by_chan;
mod bytes;
mod chan;
mod desk;
mod fail;
mod fault;
mod file_desk;
mod memory_desk;
mod shelf;
mod source;
mod sources;
mod stream;
mod whole;

pub use bytes::Bytes;
pub use chan::Chan;
pub use desk::Desk;
pub use fail::Fail;
pub use fault::{DeskFault, TakeFault};
pub use file_desk::FileDesk;
pub use memory_desk::MemoryDesk;
pub use shelf::Shelf;
pub use whole::{put_all, take_all};
