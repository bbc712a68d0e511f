//! Classes of characters within ASCII (ISO/IEC 13211-1, 6.5). A byte of a character past ASCII is in none of them.

ghost use Rattle.std.specs.Prelude.{◌≡◌};
ghost use Rattle.op_base.specs.Characters.{is_layout as layout, is_small as small, is_capital as capital, is_digit as digit};
ghost use Rattle.op_base.specs.Characters.{is_word as word, is_symbol as symbol};

/// Layout: space, tab, newline, vertical tab, form feed and carriage return (6.5.4).
pub fn is_layout(byte: u8) -> bool
    ensures { result ≡ layout byte }
{
    byte == b' ' || (byte >= 9 && byte <= 13)
}

/// A small letter (6.5.2).
pub fn is_small(byte: u8) -> bool
    ensures { result ≡ small byte }
{
    byte >= b'a' && byte <= b'z'
}

/// A capital letter (6.5.2).
pub fn is_capital(byte: u8) -> bool
    ensures { result ≡ capital byte }
{
    byte >= b'A' && byte <= b'Z'
}

/// A decimal digit (6.5.2).
pub fn is_digit(byte: u8) -> bool
    ensures { result ≡ digit byte }
{
    byte >= b'0' && byte <= b'9'
}

/// A letter, a digit or `_` (6.5.2).
pub fn is_word(byte: u8) -> bool
    ensures { result ≡ word byte }
{
    is_small(byte) || is_capital(byte) || is_digit(byte) || byte == b'_'
}

/// A symbol character: a graphic character or the backslash (6.5.1, 6.4.2).
pub fn is_symbol(byte: u8) -> bool
    ensures { result ≡ symbol byte }
{
    byte == b'+'
        || byte == b'-'
        || byte == b'*'
        || byte == b'/'
        || byte == b'\\'
        || byte == b'^'
        || byte == b'<'
        || byte == b'>'
        || byte == b'='
        || byte == b'~'
        || byte == b':'
        || byte == b'.'
        || byte == b'?'
        || byte == b'@'
        || byte == b'#'
        || byte == b'&'
        || byte == b'$'
}
