ghost use Rattle.std.specs.Prelude.{◌≡◌, ◌<◌, length, pos};
ghost use Rattle.std.specs.Ordering.{int_eq};
ghost use Rattle.op_logic.specs.Names.{HasNames};
ghost use Rattle.op_moves.specs.Pairs.{same_head};
ghost use Rattle.op_cursor.specs.inner.Outlines.{outlined, count_of as the_count, word_text, HasText, HasTexts};

use op_event::EventView;
use op_term::{Sym, Symbols};
use op_trace::Port;

/// A name, by where its text is kept: among the names of the pattern, among those of the event, or in the event's term alone.
#[derive(Clone, Copy)]
pub(crate) enum Word {
    Event,
    Variable,
    Port(Port),
    Pattern(Sym),
    Traced(Sym),
}

/// The outermost node of a term: a variable of the pattern, an integer, or a name with its number of arguments.
#[derive(Clone, Copy)]
pub(crate) enum Outline {
    Variable(u64),
    Int(i64),
    Number(u64),
    Name(Word, u64),
}

impl Outline {
    /// How many arguments the term has.
    pub(crate) fn count(&self) -> u64
        ensures { result ≡ the_count self.now }
    {
        match self {
            Outline::Name(_, n) => *n,
            _ => 0,
        }
    }
}

fn text_of<'a>(word: Word, names: &'a Symbols, view: &'a EventView<'_>) -> &'a str
    requires { HasText (length names.now) (length view.now.names) word }
    ensures { result.now ≡ word_text names.now view.now.names word }
{
    match word {
        Word::Event => "event",
        Word::Variable => "$V",
        Word::Port(Port::Call) => "call",
        Word::Port(Port::Exit) => "exit",
        Word::Port(Port::Redo) => "redo",
        Word::Port(Port::Fail) => "fail",
        Word::Port(Port::Exception) => "exception",
        Word::Pattern(name) => names.name_of(name),
        Word::Traced(name) => view.symbols().name_of(name),
    }
}

fn is_number(i: i64, n: u64) -> bool
    ensures { result ≡ int_eq i (pos n) }
{
    i >= 0 && i as u64 == n
}

/// Whether two terms have the same outermost node, which is no variable.
pub(crate) fn agree(left: &Outline, right: &Outline, names: &Symbols, view: &EventView<'_>) -> bool
    requires left { HasTexts (length names.now) (length view.now.names) left.now }
    requires right { HasTexts (length names.now) (length view.now.names) right.now }
    ensures { result ≡ same_head (outlined names.now view.now.names left.now) (outlined names.now view.now.names right.now) }
{
    match (left, right) {
        (Outline::Int(i), Outline::Int(j)) => *i == *j,
        (Outline::Int(i), Outline::Number(n)) => is_number(*i, *n),
        (Outline::Number(n), Outline::Int(i)) => is_number(*i, *n),
        (Outline::Number(n), Outline::Number(m)) => *n == *m,
        (Outline::Name(f, n), Outline::Name(g, m)) => {
            text_of(*f, names, view) == text_of(*g, names, view) && *n == *m
        }
        _ => false,
    }
}
