ghost use Rattle.std.specs.Prelude.{◌≡◌, ◌+◌, ◌≤◌, length};
ghost use Rattle.op_token.specs.Set.{has as the_has, run as the_run};

use op_base::characters::{is_digit, is_symbol, is_word};

/// A set of bytes of which spellings have runs.
#[derive(Clone, Copy)]
pub enum Set {
    /// Letters, digits and `_`.
    Word,
    /// Symbol characters.
    Symbol,
    Decimal,
    Hexadecimal,
    Octal,
    Binary,
}

impl Set {
    pub fn has(self, byte: u8) -> bool
        ensures { result ≡ the_has self byte }
    {
        match self {
            Set::Word => is_word(byte),
            Set::Symbol => is_symbol(byte),
            Set::Decimal => is_digit(byte),
            Set::Hexadecimal => {
                is_digit(byte) || (byte >= b'a' && byte <= b'f') || (byte >= b'A' && byte <= b'F')
            }
            Set::Octal => byte >= b'0' && byte <= b'7',
            Set::Binary => byte >= b'0' && byte <= b'1',
        }
    }

    /// How many bytes from the front on are of the set.
    pub fn run(self, rest: &[u8]) -> usize
        ensures run { result ≡ the_run self rest.now }
        ensures within { result ≤ length rest.now }
    {
        for (i, byte) in rest.iter().enumerate() {
            if !self.has(*byte) {
                return i;
            }
        }
        rest.len()
    }
}
