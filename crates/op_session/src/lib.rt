//! The session: a program and a goal are loaded, commands are read one by one, and each is answered.
#![tactic(auto)]

mod answer;
mod argument;
mod call;
mod command;
mod decimal;
mod feed;
mod move_reply;
mod place;
mod reply;
mod runnable;
mod session;
mod show;
mod status;
mod talk;
mod words;

pub use call::opium;
pub use status::Status;
