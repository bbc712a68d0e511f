ghost use Rattle.std.specs.Prelude.{◌≡◌, ◌+◌, ◌≤◌, ◌<◌, ◌^◌, length};
ghost use Rattle.op_token.specs.Spelling.{quoted_from};

use crate::character::{begins_with, char_from};
use crate::escape::escape_from;
use crate::spelling::{Spelling, fault};
use crate::token::{TokenFaultKind, TokenKind};

/// The quoted text that a quote at `start` begins; `rest` is what stands behind the quote.
pub fn quoted(kind: TokenKind, quote: u8, start: usize, rest: &[u8]) -> Spelling
    requires { start + 1 + length rest.now < 2 ^ 63 }
    ensures { result ≡ quoted_from kind quote start (start + 1) 0 rest.now }
{
    let mut inside = 0;
    for (i, byte) in rest.iter().enumerate() {
        let place = start + 1 + i;
        let tail = &rest[i + 1..];
        if inside > 0 {
            inside -= 1;
        } else if *byte == b'\n' {
            return fault(start, TokenFaultKind::OpenQuote);
        } else if *byte == quote {
            if !begins_with(tail, quote) {
                return Spelling::Whole(kind, place + 1);
            }
            inside = 1;
        } else if *byte == b'\\' {
            match escape_from(tail) {
                Some(escape) => inside = escape.len,
                None => return fault(place, TokenFaultKind::BadEscape),
            }
        } else {
            match char_from(*byte, tail) {
                Some(character) => inside = character.more,
                None => return fault(place, TokenFaultKind::BadChar),
            }
        }
    }
    fault(start, TokenFaultKind::OpenQuote)
}
