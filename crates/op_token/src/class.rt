ghost use Rattle.std.specs.Prelude.{◌≡◌};
ghost use Rattle.op_token.specs.Class.{class_of as the_class, punctuation_of as the_punctuation};

use crate::token::TokenKind;
use op_base::characters::{is_capital, is_digit, is_layout, is_small, is_symbol};

/// What a byte may begin.
#[derive(Clone, Copy)]
pub enum Class {
    Layout,
    Percent,
    Small,
    /// A capital letter or `_`.
    Capital,
    Digit,
    SingleQuote,
    DoubleQuote,
    Slash,
    Dot,
    /// A symbol character other than `/` and `.`.
    Symbol,
    /// `!` or `;`.
    Solo,
    /// `(`, `)`, `[`, `]`, `{`, `}`, `,` or `|`.
    Punctuation(TokenKind),
    /// Nothing.
    Bad,
}

impl Class {
    pub fn of(byte: u8) -> Class
        ensures { result ≡ the_class byte }
    {
        if is_layout(byte) {
            Class::Layout
        } else if byte == b'%' {
            Class::Percent
        } else if is_small(byte) {
            Class::Small
        } else if is_capital(byte) || byte == b'_' {
            Class::Capital
        } else if is_digit(byte) {
            Class::Digit
        } else if byte == b'\'' {
            Class::SingleQuote
        } else if byte == b'"' {
            Class::DoubleQuote
        } else if byte == b'/' {
            Class::Slash
        } else if byte == b'.' {
            Class::Dot
        } else if is_symbol(byte) {
            Class::Symbol
        } else if byte == b'!' || byte == b';' {
            Class::Solo
        } else {
            punctuation_of(byte)
        }
    }
}

fn punctuation_of(byte: u8) -> Class
    ensures { result ≡ the_punctuation byte }
{
    match byte {
        b'(' => Class::Punctuation(TokenKind::OpenRound),
        b')' => Class::Punctuation(TokenKind::CloseRound),
        b'[' => Class::Punctuation(TokenKind::OpenSquare),
        b']' => Class::Punctuation(TokenKind::CloseSquare),
        b'{' => Class::Punctuation(TokenKind::OpenCurly),
        b'}' => Class::Punctuation(TokenKind::CloseCurly),
        b',' => Class::Punctuation(TokenKind::Comma),
        b'|' => Class::Punctuation(TokenKind::Bar),
        _ => Class::Bad,
    }
}
