//! How cases stand in lines. Each line of standard input is a case: a word, a space and a text, in which `§` separates fields, `¶` stands
//! for a newline, `‹c3a9›` for bytes and `«3*ab»` for `ababab`. For each line one line is written: the case's result. An empty line and
//! one that begins with `%` are written as they are.
#![tactic(auto)]

mod cases;
mod decode;
mod desks;
mod faults;
mod fields;
mod line;
mod names;
mod operators;

pub use cases::{Cases, run_cases};
pub use decode::decoded;
pub use desks::{bytes_of, failing};
pub use faults::{add_read_kind, token_word};
pub use fields::{field, numbered};
pub use line::Line;
pub use names::{add_names, name_of};
pub use operators::{kind_of, kind_word, set_word};
