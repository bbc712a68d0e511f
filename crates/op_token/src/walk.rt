ghost use Rattle.std.specs.Prelude.{◌≡◌, ◌+◌, ◌-◌, ◌^◌, ◌<◌, []};
ghost use Rattle.op_token.specs.Walk.{top_of, next_of, keeps_top as the_keeps_top, keeps_blank as the_keeps_blank, blank_of};
ghost use Rattle.op_token.specs.Walk.{from_of, step_of, start, piece_in, has_ended};

use crate::kind::{Kind, QuoteMark};
use crate::piece::Piece;

/// Where the walk stands. Some modes wait for the next byte, which says whether a longer spelling has begun.
#[derive(Clone, Copy)]
pub enum Mode {
    /// Only layout came so far.
    Lead,
    /// Between two spellings, behind a byte of this kind.
    Between(Kind),
    /// Behind a `/` that may begin a comment.
    AfterSlash,
    /// Behind a `0` that may begin a character's code.
    AfterZero,
    /// Behind a `.` that may end the text.
    AfterDot,
    InLine,
    InBlock,
    /// In a comment, behind a `*` that may end it.
    AfterStar,
    InQuotes(QuoteMark),
    /// In quoted text, behind a backslash.
    Escaped(QuoteMark),
    /// Behind `0'`.
    InCode,
    /// Behind `0'` and a backslash.
    CodeEscaped,
    /// Behind `0''`.
    CodeQuote,
    /// The text ended before this place.
    Ended(usize),
}

/// The walk by which a text is cut, after some bytes.
#[derive(Clone, Copy)]
pub struct Walk {
    /// How many bytes came.
    pub at: usize,
    /// The first byte that isn't layout.
    pub from: usize,
    /// Whether layout and comments alone came, or may have come.
    pub blank: bool,
    pub mode: Mode,
}

fn top(before: Kind, kind: Kind) -> Mode
    ensures { result ≡ top_of before kind }
{
    match kind {
        Kind::Percent => Mode::InLine,
        Kind::Slash => Mode::AfterSlash,
        Kind::Quote(mark) => Mode::InQuotes(mark),
        Kind::Zero => {
            if before.is_word() {
                Mode::Between(kind)
            } else {
                Mode::AfterZero
            }
        }
        Kind::Dot => {
            if before.is_symbol() {
                Mode::Between(kind)
            } else {
                Mode::AfterDot
            }
        }
        _ => Mode::Between(kind),
    }
}

fn next(at: usize, mode: Mode, kind: Kind) -> Mode
    ensures { result ≡ next_of at mode kind }
{
    match mode {
        Mode::Lead => match kind {
            Kind::Newline | Kind::Layout => Mode::Lead,
            _ => top(Kind::Layout, kind),
        },
        Mode::Between(before) => top(before, kind),
        Mode::AfterSlash => match kind {
            Kind::Star => Mode::InBlock,
            _ => top(Kind::Slash, kind),
        },
        Mode::AfterZero => match kind {
            Kind::Quote(QuoteMark::Single) => Mode::InCode,
            _ => top(Kind::Zero, kind),
        },
        Mode::AfterDot => {
            if kind.is_gap() {
                Mode::Ended(at)
            } else {
                top(Kind::Dot, kind)
            }
        }
        Mode::InLine => match kind {
            Kind::Newline => Mode::Between(kind),
            _ => Mode::InLine,
        },
        Mode::InBlock => match kind {
            Kind::Star => Mode::AfterStar,
            _ => Mode::InBlock,
        },
        Mode::AfterStar => match kind {
            Kind::Slash => Mode::Between(kind),
            Kind::Star => Mode::AfterStar,
            _ => Mode::InBlock,
        },
        Mode::InQuotes(mark) => quoted(mark, kind),
        Mode::Escaped(mark) => Mode::InQuotes(mark),
        Mode::InCode => match kind {
            Kind::Backslash => Mode::CodeEscaped,
            Kind::Quote(QuoteMark::Single) => Mode::CodeQuote,
            _ => Mode::Between(kind),
        },
        Mode::CodeEscaped => Mode::Between(kind),
        Mode::CodeQuote => match kind {
            Kind::Quote(QuoteMark::Single) => Mode::Between(kind),
            _ => top(Kind::Quote(QuoteMark::Single), kind),
        },
        Mode::Ended(end) => Mode::Ended(end),
    }
}

fn quoted(mark: QuoteMark, kind: Kind) -> Mode
    ensures { result ≡ next_of 0 (Mode.InQuotes mark) kind }
{
    match kind {
        Kind::Newline => Mode::Between(kind),
        Kind::Backslash => Mode::Escaped(mark),
        Kind::Quote(other) => match (mark, other) {
            (QuoteMark::Single, QuoteMark::Single) | (QuoteMark::Double, QuoteMark::Double) =>
                Mode::Between(kind),
            _ => Mode::InQuotes(mark),
        },
        _ => Mode::InQuotes(mark),
    }
}

fn keeps_top(kind: Kind) -> bool
    ensures { result ≡ the_keeps_top kind }
{
    match kind {
        Kind::Newline | Kind::Layout | Kind::Percent | Kind::Slash => true,
        _ => false,
    }
}

fn keeps_blank(mode: Mode, kind: Kind) -> bool
    ensures { result ≡ the_keeps_blank mode kind }
{
    match mode {
        Mode::Between(_) => keeps_top(kind),
        Mode::AfterSlash => match kind {
            Kind::Star => true,
            _ => false,
        },
        Mode::InLine | Mode::InBlock | Mode::AfterStar => true,
        _ => false,
    }
}

fn blank(blank: bool, mode: Mode, kind: Kind) -> bool
    ensures { result ≡ blank_of blank mode kind }
{
    match mode {
        Mode::Lead => keeps_top(kind),
        _ => blank && keeps_blank(mode, kind),
    }
}

fn from(at: usize, from: usize, mode: Mode) -> usize
    ensures { result ≡ from_of at from mode }
{
    match mode {
        Mode::Lead => at,
        _ => from,
    }
}

impl Walk {
    /// The walk before the first byte.
    pub fn new() -> Walk
        ensures { result ≡ start }
    {
        Walk {
            at: 0,
            from: 0,
            blank: true,
            mode: Mode::Lead,
        }
    }

    /// The walk a byte further.
    pub fn step(self, kind: Kind) -> Walk
        requires { self.at + 1 < 2 ^ 64 }
        ensures { result ≡ step_of self kind }
    {
        Walk {
            at: self.at + 1,
            from: from(self.at, self.from, self.mode),
            blank: blank(self.blank, self.mode, kind),
            mode: next(self.at, self.mode, kind),
        }
    }

    /// What the bytes so far make, where no more come.
    pub fn piece(self) -> Piece
        ensures { result ≡ piece_in self [] }
    {
        match self.mode {
            Mode::Ended(end) => Piece::Text(self.from as u64, end as u64),
            Mode::AfterDot => Piece::Text(self.from as u64, self.at as u64),
            Mode::Lead => Piece::Empty,
            Mode::Between(_) | Mode::InLine => {
                if self.blank {
                    Piece::Empty
                } else {
                    Piece::NoEnd
                }
            }
            _ => Piece::NoEnd,
        }
    }

    /// Whether the text ended before this place.
    pub fn has_ended(self) -> bool
        ensures { result ≡ has_ended self.mode }
    {
        match self.mode {
            Mode::Ended(_) => true,
            _ => false,
        }
    }
}
