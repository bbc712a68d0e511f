ghost use Rattle.std.specs.Prelude.{◌≡◌, ◌<◌, ◌≤◌, List, length, ℕ, All, pos};
ghost use Rattle.op_logic.specs.Term.{args_of, arity, nth_arg};
ghost use Rattle.op_logic.specs.Names.{named, HasNames};
ghost use Rattle.op_term.specs.Head.{head};
ghost use Rattle.op_term.specs.Places.{term_at};
ghost use Rattle.op_trace.specs.Database.{Text};
ghost use Rattle.op_moves.specs.EventTerm.{event_args};
ghost use Rattle.op_moves.specs.Pairs.{head_of};
ghost use Rattle.op_event.specs.View.{event_in};
ghost use Rattle.op_cursor.specs.inner.Outlines.{outlined, HasTexts};
ghost use Rattle.op_cursor.specs.inner.Parts.{part_term, side_term, IsPart, IsSide, HasOwnNames};

use crate::outline::{Outline, Word};
use op_bind::Ref;
use op_event::EventView;
use op_term::{Node, Tree, Whole};
use op_trace::Port;

/// A part of an event's term, which is not made: it is read in the view.
#[derive(Clone, Copy)]
pub(crate) enum Part {
    Whole,
    Number(u64),
    Port(Port),
    Goal(Ref),
}

/// The left side of a pair: a node of the pattern, or the part of the event that a variable stands for.
#[derive(Clone, Copy)]
pub(crate) enum Side {
    Pattern(u64),
    Event(Part),
}

impl Default for Part {
    fn default() -> Part {
        Part::Whole
    }
}

impl Default for Side {
    fn default() -> Side {
        Side::Event(Part::Whole)
    }
}

// The outermost node of a goal's part, whose variables show as terms.
fn goal_outline(view: &EventView<'_>, at: Ref) -> Outline
    requires { IsPart view.now (Part.Goal at) }
    ensures outline { (own : List Text) → outlined own view.now.names result ≡ head_of (part_term view.now (Part.Goal at)) }
    ensures texts { (own : ℕ) → HasTexts own (length view.now.names) result }
{
    match view.bindings().head_of(&at) {
        Node::Var(_) => Outline::Name(Word::Variable, 1),
        Node::Int(i) => Outline::Int(i),
        Node::Atom(name) => Outline::Name(Word::Traced(name), 0),
        Node::Struct(name, n) => Outline::Name(Word::Traced(name), n),
    }
}

/// The outermost node of a part.
pub(crate) fn part_outline(view: &EventView<'_>, part: &Part) -> Outline
    requires { IsPart view.now part.now }
    ensures outline { (own : List Text) → outlined own view.now.names result ≡ head_of (part_term view.now part.now) }
    ensures texts { (own : ℕ) → HasTexts own (length view.now.names) result }
{
    match part {
        Part::Whole => Outline::Name(Word::Event, 6),
        Part::Number(n) => Outline::Number(*n),
        Part::Port(port) => Outline::Name(Word::Port(*port), 0),
        Part::Goal(at) => goal_outline(view, *at),
    }
}

// An argument of the event's term, counted from 0.
fn field(view: &EventView<'_>, i: u64) -> Part
    requires { i < 6 }
    ensures part { IsPart view.now result }
    ensures value { part_term view.now result ≡ nth_arg (event_args (event_in view.now)) i }
{
    match i {
        0 => Part::Number(view.chrono()),
        1 => Part::Number(view.call()),
        2 => Part::Number(view.parent()),
        3 => Part::Number(view.depth()),
        4 => Part::Port(view.port()),
        _ => Part::Goal(*view.goal()),
    }
}

// An argument of a goal's part, counted from 0: of a variable it is the variable's number.
fn goal_part(view: &EventView<'_>, at: Ref, i: u64) -> Part
    requires part { IsPart view.now (Part.Goal at) }
    requires there { i < arity (args_of (part_term view.now (Part.Goal at))) }
    ensures part { IsPart view.now result }
    ensures value { part_term view.now result ≡ nth_arg (args_of (part_term view.now (Part.Goal at))) i }
{
    let bindings = view.bindings();
    match bindings.head_of(&at) {
        Node::Var(v) => Part::Number(v),
        _ => Part::Goal(bindings.part(&at, i)),
    }
}

/// An argument of a part, counted from 0.
pub(crate) fn argument(view: &EventView<'_>, part: &Part, i: u64) -> Part
    requires part { IsPart view.now part.now }
    requires there { i < arity (args_of (part_term view.now part.now)) }
    ensures part { IsPart view.now result }
    ensures value { part_term view.now result ≡ nth_arg (args_of (part_term view.now part.now)) i }
{
    match part {
        Part::Whole => field(view, i),
        Part::Goal(at) => goal_part(view, *at, i),
        Part::Number(_) => *part,
        Part::Port(_) => *part,
    }
}

// The outermost node of a pattern's node.
fn node_outline(whole: &Whole<'_>, at: u64) -> Outline
    requires { at < length whole.now.terms }
    ensures outline { (own names : List Text) → outlined own names result ≡ head_of (named own (term_at whole.now.terms at)) }
    ensures texts { (own names : ℕ) → HasNames own (term_at whole.now.terms at) → HasTexts own names result }
{
    match whole.node(&at) {
        Node::Var(v) => Outline::Variable(v),
        Node::Int(i) => Outline::Int(i),
        Node::Atom(name) => Outline::Name(Word::Pattern(name), 0),
        Node::Struct(name, n) => Outline::Name(Word::Pattern(name), n),
    }
}

/// The outermost node of a side.
pub(crate) fn side_outline(whole: &Whole<'_>, view: &EventView<'_>, side: &Side) -> Outline
    requires { IsSide whole.now.terms view.now side.now }
    ensures outline { (own : List Text) → outlined own view.now.names result ≡ head_of (side_term whole.now.terms own view.now side.now) }
    ensures texts { (own : ℕ) → HasOwnNames own whole.now.terms side.now → HasTexts own (length view.now.names) result }
{
    match side {
        Side::Pattern(at) => node_outline(whole, *at),
        Side::Event(part) => part_outline(view, part),
    }
}

/// An argument of a side, counted from 0.
pub(crate) fn side_argument(whole: &Whole<'_>, view: &EventView<'_>, side: &Side, i: u64) -> Side
    requires side { IsSide whole.now.terms view.now side.now }
    requires there { (own : List Text) → i < arity (args_of (side_term whole.now.terms own view.now side.now)) }
    ensures side { IsSide whole.now.terms view.now result }
    ensures names { (own : ℕ) → HasOwnNames own whole.now.terms side.now → HasOwnNames own whole.now.terms result }
    ensures value { (own : List Text) → side_term whole.now.terms own view.now result
        ≡ nth_arg (args_of (side_term whole.now.terms own view.now side.now)) i }
{
    match side {
        Side::Pattern(at) => Side::Pattern(whole.part(at, i)),
        Side::Event(part) => Side::Event(argument(view, part, i)),
    }
}
