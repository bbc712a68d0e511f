//! Terms: names, nodes in a list that are seen as a term, and the fuel that a walk over one takes.
#![tactic(auto)]

mod arguments;
mod builder;
mod fuel;
mod laws;
mod meanings;
mod measure;
mod node;
mod ops;
mod order;
mod quotes;
mod symbols;
mod term;
mod walk;

pub use arguments::push_args;
pub use builder::Builder;
pub use fuel::{Fuel, Spent};
pub use laws::{equal_is_same, names_by_characters, order_is_total};
pub use measure::{is_ground, size};
pub use node::{Node, Tree};
pub use ops::{Meaning, OpFault, OpKind, Ops};
pub use order::compare;
pub use quotes::DoubleQuotes;
pub use symbols::{Sym, Symbols};
pub use term::{Term, Whole};
pub use walk::WalkFault;
