ghost use Rattle.std.specs.Prelude.{◌≡◌, ◌+◌, ◌≤◌, ◌<◌, ◌^◌, length, IfSome};
ghost use Rattle.op_token.specs.Spelling.{simple_escape as the_simple, numbered as the_numbered, escape_at};

use crate::character::begins_with;
use crate::digits::scalar;
use crate::set::Set;

/// What a backslash begins, without it.
#[derive(Clone, Copy)]
pub struct Escape {
    /// The character that it stands for; a backslash before a newline stands for none.
    pub code: Option<char>,
    /// How many bytes it has behind the backslash.
    pub len: usize,
}

fn simple_escape(byte: u8) -> Option<char>
    ensures { result ≡ the_simple byte }
{
    match byte {
        b'n' => Some('\n'),
        b't' => Some('\t'),
        b'a' => Some('\x07'),
        b'b' => Some('\x08'),
        b'f' => Some('\x0c'),
        b'v' => Some('\x0b'),
        b'r' => Some('\r'),
        b'\\' | b'\'' | b'"' | b'`' => Some(byte as char),
        _ => None,
    }
}

// Digits, one at least, and a backslash, for a scalar value; `lead` bytes stand before them.
fn numbered(base: u64, set: Set, lead: usize, rest: &[u8]) -> Option<Escape>
    requires base { 0 < base }
    requires lead { lead ≤ 1 }
    requires short { length rest.now < 2 ^ 63 }
    ensures value { result ≡ the_numbered base set lead rest.now }
    ensures within { IfSome result (λ e. e.len ≤ lead + length rest.now) }
{
    let digits = set.run(rest);
    if digits > 0 && begins_with(&rest[digits..], b'\\') {
        let code = scalar(base, &rest[..digits])?;
        Some(Escape {
            code: Some(code),
            len: lead + digits + 1,
        })
    } else {
        None
    }
}

/// The escape that stands behind a backslash.
pub fn escape_from(rest: &[u8]) -> Option<Escape>
    requires { length rest.now < 2 ^ 63 }
    ensures value { result ≡ escape_at rest.now }
    ensures within { IfSome result (λ e. e.len ≤ length rest.now) }
{
    match rest {
        [] => None,
        [first, tail @ ..] => match simple_escape(*first) {
            Some(code) => Some(Escape {
                code: Some(code),
                len: 1,
            }),
            None => {
                if *first == b'\n' {
                    Some(Escape { code: None, len: 1 })
                } else if *first == b'x' {
                    numbered(16, Set::Hexadecimal, 1, tail)
                } else if Set::Octal.has(*first) {
                    numbered(8, Set::Octal, 0, rest)
                } else {
                    None
                }
            }
        },
    }
}
