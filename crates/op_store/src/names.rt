//! The names that each store has first, and those that no clause may be for.
pub(crate) mod builtins;
pub mod control;
pub(crate) mod control_names;
pub(crate) mod first_names;
pub(crate) mod locked;
