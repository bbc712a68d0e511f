//! Goals and commands, read from a text.
pub(crate) mod command;
pub(crate) mod command_fault;
pub(crate) mod goal;
pub(crate) mod goal_text;
