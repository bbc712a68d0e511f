ghost use Rattle.std.specs.Prelude.{◌≡◌, ◌<◌, ◌-◌, ◌≤◌, length, slice_index};
ghost use Rattle.op_token.specs.Tokens.{is_minus as the_is_minus};
ghost use Rattle.op_reader.specs.Words.{opens as the_opens, magnitude as the_magnitude, magnitude_behind as the_magnitude_behind};
ghost use Rattle.op_reader.specs.Words.{negated as the_negated, negative as the_negative, ends_operand as the_ends_operand};
ghost use Rattle.op_reader.specs.Words.{is_empty_pair as the_is_empty_pair};

use op_token::{Token, TokenKind};

/// Whether a `(` stands first, directly behind the token before.
pub(crate) fn opens(rest: &[Token]) -> bool
    ensures { result ≡ the_opens rest.now }
{
    match rest {
        [] => false,
        [next, ..] => match next.kind {
            TokenKind::OpenRound => !next.layout_before,
            _ => false,
        },
    }
}

fn magnitude(kind: TokenKind) -> Option<u64>
    ensures { result ≡ the_magnitude kind }
{
    match kind {
        TokenKind::Integer(magnitude) => Some(magnitude),
        _ => None,
    }
}

fn magnitude_behind(rest: &[Token]) -> Option<u64>
    ensures { result ≡ the_magnitude_behind rest.now }
{
    match rest {
        [] => None,
        [next, ..] => {
            if next.layout_before {
                None
            } else {
                magnitude(next.kind)
            }
        }
    }
}

fn negated(magnitude: u64) -> Option<i64>
    ensures { result ≡ the_negated magnitude }
{
    if magnitude < 9223372036854775808 {
        Some(-(magnitude as i64))
    } else if magnitude == 9223372036854775808 {
        Some(i64::MIN)
    } else {
        None
    }
}

fn is_minus(kind: TokenKind, first: u8, len: u64) -> bool
    ensures { result ≡ the_is_minus kind first len }
{
    match kind {
        TokenKind::Name => first == b'-' && len == 1,
        _ => false,
    }
}

/// The integer that the unquoted name `-` makes negative.
pub(crate) fn negative(bytes: &[u8], token: Token, rest: &[Token]) -> Option<i64>
    requires some { token.from < token.to }
    requires within { token.to ≤ length bytes.now }
    ensures { result ≡ the_negative bytes.now token rest.now }
{
    if is_minus(
        token.kind,
        bytes[token.from as usize],
        token.to - token.from,
    ) {
        negated(magnitude_behind(rest)?)
    } else {
        None
    }
}

/// Whether a token is a closing bracket, a comma or a bar.
pub(crate) fn ends_operand(kind: TokenKind) -> bool
    ensures { result ≡ the_ends_operand kind }
{
    match kind {
        TokenKind::CloseRound => true,
        TokenKind::CloseSquare => true,
        TokenKind::CloseCurly => true,
        TokenKind::Comma => true,
        TokenKind::Bar => true,
        _ => false,
    }
}

/// Whether a token begins a name `[]` or `{}`.
pub(crate) fn is_empty_pair(kind: TokenKind, rest: &[Token]) -> bool
    ensures { result ≡ the_is_empty_pair kind rest.now }
{
    match rest {
        [] => false,
        [next, ..] => match (kind, next.kind) {
            (TokenKind::OpenSquare, TokenKind::CloseSquare) => true,
            (TokenKind::OpenCurly, TokenKind::CloseCurly) => true,
            _ => false,
        },
    }
}
