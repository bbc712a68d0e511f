ghost use Rattle.std.specs.Prelude.{◌≡◌, if◌then◌else◌};
ghost use Rattle.op_writer.specs.Fragments.{edge_at, edge_of, prefix_edge, is_apart as apart};

use op_base::characters::{is_digit, is_symbol, is_word};

/// What a text ends with: a letter, a digit or `_`; a symbol character; a prefix operator of symbol characters; the prefix operator `-`.
#[derive(Clone, Copy)]
pub enum Edge {
    Other,
    Word,
    Symbol,
    Prefix,
    Minus,
}

impl Edge {
    fn at(byte: u8) -> Edge
        ensures { result ≡ edge_at byte }
    {
        if is_symbol(byte) {
            Edge::Symbol
        } else if is_word(byte) {
            Edge::Word
        } else {
            Edge::Other
        }
    }

    /// How a text ends behind a further fragment.
    pub fn behind(self, fragment: &[u8]) -> Edge
        ensures { result ≡ edge_of self fragment.now }
    {
        match fragment.last() {
            Some(byte) => Edge::at(*byte),
            None => self,
        }
    }

    /// How a text ends behind a prefix operator of symbol characters.
    pub fn of_prefix(operator: &[u8]) -> Edge
        ensures { result ≡ prefix_edge operator.now }
    {
        if operator == b"-".as_slice() {
            Edge::Minus
        } else {
            Edge::Prefix
        }
    }

    /// How a text ends behind a name in quotes, which is a prefix operator or not.
    pub fn of_quotes(is_prefix: bool) -> Edge
        ensures { result ≡ (if is_prefix then Edge.Prefix else Edge.Other) }
    {
        if is_prefix { Edge::Prefix } else { Edge::Other }
    }

    /// Whether a space stands before a fragment that begins with a byte.
    pub fn is_apart(self, byte: u8) -> bool
        ensures { result ≡ apart self byte }
    {
        match self {
            Edge::Other => false,
            Edge::Word => is_word(byte),
            Edge::Symbol => is_symbol(byte),
            Edge::Prefix => is_symbol(byte) || byte == b'(',
            Edge::Minus => is_symbol(byte) || byte == b'(' || is_digit(byte),
        }
    }
}
