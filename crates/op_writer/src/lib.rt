//! Terms are written as text: quotes, operators, brackets, spaces, lists, and the cut text of a line.
#![tactic(auto)]

mod argument;
mod bound;
mod cut;
mod edge;
mod expand;
mod fault;
mod front;
mod item;
mod notation;
mod rest;
mod setting;
mod spelling;
mod stack;
mod style;
mod text;
mod writer;
mod written;

pub use fault::TextFault;
pub use style::Style;
pub use text::{write_cut, write_text};
