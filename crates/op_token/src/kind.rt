ghost use Rattle.std.specs.Prelude.{◌≡◌};
ghost use Rattle.op_token.specs.Kind.{kind_of as the_kind, is_word as word_kind, is_symbol as symbol_kind, is_gap as gap_kind};

use op_base::characters::{is_layout, is_symbol, is_word};

/// The two bytes that enclose quoted text.
#[derive(Clone, Copy)]
pub enum QuoteMark {
    Single,
    Double,
}

/// What a byte is to the rule that cuts a text into term texts.
#[derive(Clone, Copy)]
pub enum Kind {
    Newline,
    /// Layout other than the newline.
    Layout,
    Percent,
    Slash,
    Star,
    Dot,
    Backslash,
    Quote(QuoteMark),
    Zero,
    /// A letter, a digit other than `0`, or `_`.
    Word,
    /// A symbol character other than those above.
    Sign,
    Other,
}

impl Kind {
    /// The kind of a byte.
    pub fn of(byte: u8) -> Kind
        ensures { result ≡ the_kind byte }
    {
        if byte == b'\n' {
            Kind::Newline
        } else if is_layout(byte) {
            Kind::Layout
        } else if byte == b'%' {
            Kind::Percent
        } else if byte == b'/' {
            Kind::Slash
        } else if byte == b'*' {
            Kind::Star
        } else if byte == b'.' {
            Kind::Dot
        } else if byte == b'\\' {
            Kind::Backslash
        } else if byte == b'\'' {
            Kind::Quote(QuoteMark::Single)
        } else if byte == b'"' {
            Kind::Quote(QuoteMark::Double)
        } else if byte == b'0' {
            Kind::Zero
        } else if is_word(byte) {
            Kind::Word
        } else if is_symbol(byte) {
            Kind::Sign
        } else {
            Kind::Other
        }
    }

    /// Whether the byte is a letter, a digit or `_`.
    pub fn is_word(self) -> bool
        ensures { result ≡ word_kind self }
    {
        match self {
            Kind::Zero | Kind::Word => true,
            _ => false,
        }
    }

    /// Whether the byte is a symbol character.
    pub fn is_symbol(self) -> bool
        ensures { result ≡ symbol_kind self }
    {
        match self {
            Kind::Slash | Kind::Star | Kind::Dot | Kind::Backslash | Kind::Sign => true,
            _ => false,
        }
    }

    /// Whether a full stop ends before the byte: it is layout or `%`.
    pub fn is_gap(self) -> bool
        ensures { result ≡ gap_kind self }
    {
        match self {
            Kind::Newline | Kind::Layout | Kind::Percent => true,
            _ => false,
        }
    }
}
