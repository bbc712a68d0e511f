/// What a token is.
#[derive(Clone, Copy, Debug, PartialEq, Eq)]
pub enum TokenKind {
    /// An unquoted name.
    Name,
    QuotedName,
    Variable,
    /// An integer, with its magnitude.
    Integer(u64),
    /// Text in double quotes.
    Text,
    OpenRound,
    CloseRound,
    OpenSquare,
    CloseSquare,
    OpenCurly,
    CloseCurly,
    Comma,
    Bar,
    /// The `.` that ends a clause.
    End,
}

/// A token (ISO/IEC 13211-1, 6.4). Its bytes stand from `from` to before `to`.
#[derive(Clone, Copy, Debug, PartialEq, Eq)]
pub struct Token {
    pub kind: TokenKind,
    pub from: u64,
    pub to: u64,
    /// Whether layout or a comment stands directly before it.
    pub layout_before: bool,
}

/// Why no token begins at a place.
#[derive(Clone, Copy, Debug, PartialEq, Eq)]
pub enum TokenFaultKind {
    /// A byte that is no part of a character, or a character that may not stand there.
    BadChar,
    /// Quoted text that a newline or the end of the bytes cuts short.
    OpenQuote,
    /// A comment without its end.
    OpenComment,
    /// A backslash that begins no escape.
    BadEscape,
    /// Digits or a prefix that make no integer.
    BadNumber,
    /// An integer that is too great.
    NumberRange,
}

/// A fault in the bytes, at a byte's place.
#[derive(Clone, Copy, Debug, PartialEq, Eq)]
pub struct TokenFault {
    pub place: u64,
    pub kind: TokenFaultKind,
}
