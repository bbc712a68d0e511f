ghost use Rattle.std.specs.Prelude.{◌≡◌, ℕ, ◌-◌, ◌≤◌, ◌<◌, length, [], ◌++◌, None, Some, OnOk, OnErr};
ghost use Rattle.op_token.specs.Tokens.{is_minus as the_minus, scan_of, unquoted, Finds, Gives};

use crate::lexeme::lexeme;
use crate::spelling::Spelling;
use crate::token::{Token, TokenFault, TokenKind};
use crate::unquote::unquote;
use op_base::Memory;
use std::marker::Model;

/// A scanner over a text (ISO/IEC 13211-1, 6.4). A clause sees the text, and the tokens that are still to come with the fault behind
/// them.
#[derive(Drop)]
pub struct Scanner<'a> {
    bytes: &'a [u8],
    /// Behind the last token.
    at: usize,
    /// Whether the name `-` ends there.
    minus: bool,
}

impl<'a> Model for Scanner<'a> {
    ghost use Rattle.std.specs.Prelude.{◌≤◌, length};
    ghost use Rattle.op_token.specs.Tokens.{Scan, scan_from};

    ghost Value = { Scan };

    ghost view = { λ s. scan_from s.at s.minus s.bytes.now };

    ghost invariant = { λ s. s.at ≤ length s.bytes.now };
}

fn is_minus(kind: TokenKind, first: u8, len: u64) -> bool
    ensures { result ≡ the_minus kind first len }
{
    match kind {
        TokenKind::Name => first == b'-' && len == 1,
        _ => false,
    }
}

// The next token behind a place.
fn find(bytes: &[u8], start: usize, mut minus: bool) -> Result<Option<Token>, TokenFault>
    requires { start ≤ length bytes.now }
    ensures { Finds bytes.now start minus result }
{
    let mut at = start;
    let mut layout_before = false;
    while at < bytes.len() {
        match lexeme(at, minus, &bytes[at..]) {
            Spelling::Gap(end) => {
                at = end;
                layout_before = true;
                minus = false;
            }
            Spelling::Whole(kind, end) => {
                return Ok(Some(Token {
                    kind,
                    from: at as u64,
                    to: end as u64,
                    layout_before,
                }));
            }
            Spelling::Fault(fault) => return Err(fault),
        }
    }
    Ok(None)
}

impl<'a> Scanner<'a> {
    /// A scanner at the beginning of a text.
    pub fn new(bytes: &'a [u8]) -> Scanner<'a>
        ensures { result ≡ scan_of bytes.now }
    {
        Scanner {
            bytes,
            at: 0,
            minus: false,
        }
    }

    /// The next token, or None where only layout and whole comments are left. After a fault the same fault comes again.
    pub fn next(&mut self) -> Result<Option<Token>, TokenFault>
        ensures { Gives self.old self.new result }
    {
        let found = find(self.bytes, self.at, self.minus)?;
        if let Some(token) = found {
            self.minus = is_minus(
                token.kind,
                self.bytes[token.from as usize],
                token.to - token.from,
            );
            self.at = token.to as usize;
        }
        Ok(found)
    }

    /// Appends the characters that a quoted token of this text stands for, in UTF-8. Where memory is refused, nothing is appended.
    pub fn text_of(&self, token: &Token, out: &mut Vec<u8>) -> Result<(), Memory>
        ensures done { OnOk result (out.new.items ≡ out.old.items ++ unquoted self.now.text token.now) }
        ensures refused { OnErr result (out.new.items ≡ out.old.items) }
    {
        let from = token.from;
        if from >= self.bytes.len() as u64 {
            return Ok(());
        }
        let from = from as usize;
        let before = out.len();
        match unquote(self.bytes[from], &self.bytes[from + 1..], out) {
            Ok(()) => Ok(()),
            Err(_) => {
                out.truncate(before);
                Err(Memory)
            }
        }
    }
}
