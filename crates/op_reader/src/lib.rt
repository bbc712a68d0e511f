//! The reader: terms of Prolog with any table of operators.
#![tactic(auto)]

mod ahead;
pub mod bracket;
mod enclosed;
mod fault;
mod first_clause;
mod list_node;
mod member;
mod name_word;
mod names;
mod read_rows;
pub mod reading_laws;
mod role;
mod roles;
mod row;
pub mod row_kind;
pub mod row_laws;
mod row_node;
mod term_reader;
mod terms;
mod text_node;
mod token_text;
mod variable;
mod word;
mod words;

pub use fault::{ReadFault, ReadFaultKind};
pub use names::Names;
pub use op_term::DoubleQuotes;
pub use term_reader::{Read, Reading, read_term};
