//! The lexical layer: a text is cut into the texts of terms, and each of these is read as tokens.
#![tactic(auto)]

mod character;
mod class;
mod comment;
mod cutter;
mod digits;
mod escape;
mod integer;
mod kind;
pub mod laws;
mod lexeme;
mod piece;
mod quoted;
mod scanner;
mod set;
mod spelling;
mod token;
mod unquote;
mod walk;

pub use cutter::Cutter;
pub use piece::{Piece, cut};
pub use scanner::Scanner;
pub use token::{Token, TokenFault, TokenFaultKind, TokenKind};
