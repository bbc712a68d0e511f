//! The argument of `goto`.

ghost use Rattle.std.specs.Prelude.{◌<◌, length};
ghost use Rattle.op_term.specs.Places.{term_at};
ghost use Rattle.op_session.specs.inner.Placing.{IsJudged};

use op_term::{Node, Tree, Whole};

/// A place, or why a term is none.
#[derive(Clone, Copy, Debug, PartialEq, Eq)]
pub enum Place {
    /// A place, 0 or more.
    At(u64),
    /// It is a variable.
    Unbound,
    /// It is no integer.
    NotInteger,
    /// It is below 0.
    Negative,
}

impl Place {
    /// What a term is as a place.
    pub fn of(whole: &Whole<'_>, at: u64) -> Place
        requires { at < length whole.now.terms }
        ensures { IsJudged (term_at whole.now.terms at) result }
    {
        match whole.node(&at) {
            Node::Var(_) => Place::Unbound,
            Node::Int(i) => match u64::try_from(i) {
                Ok(place) => Place::At(place),
                Err(_) => Place::Negative,
            },
            Node::Atom(_) | Node::Struct(_, _) => Place::NotInteger,
        }
    }
}
