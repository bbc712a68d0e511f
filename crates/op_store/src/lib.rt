//! The clauses of a program: what a text of a program loads, bodies of clauses and goals, and procedures by their names.
#![tactic(auto)]

mod bodies;
mod borrower;
mod goals;
mod loading;
pub mod names;
mod procedures;
mod store;
mod terms;

pub use bodies::body::Body;
pub use bodies::body_fault::BodyFault;
pub use bodies::body_in::body_in;
pub use bodies::body_node::BodyNode;
pub use bodies::convert::body_of;
pub use borrower::Borrower;
pub use goals::command_fault::CommandFault;
pub use goals::goal::Goal;
pub use loading::load_fault::{LoadFault, LoadFaultKind};
pub use names::locked::Locked;
pub use op_trace::Flags;
pub use procedures::pi::Pi;
pub use procedures::snapshot::Snapshot;
pub use store::Store;
