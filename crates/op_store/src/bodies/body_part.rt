ghost use Rattle.std.specs.Prelude.{◌≡◌, ◌<◌, ℕ, length};
ghost use Rattle.op_logic.specs.Names.{HasNames, named};
ghost use Rattle.op_store.specs.inner.BodyParts.{part_of_term, part_of_pair};

use crate::bodies::followed_terms::FollowedTerms;
use op_term::{Node, Symbols};

/// What a term is as a part of a body (ISO/IEC 13211-1, 7.6.2): a control construct of two parts, a variable, another goal, or a number,
/// which is no goal.
#[derive(Clone, Copy, Debug, PartialEq, Eq)]
pub(crate) enum Part {
    Conjunction,
    Disjunction,
    IfThen,
    Variable,
    Goal,
    Number,
}

// What a compound of two arguments is.
fn pair_part(name: &str) -> Part
    ensures { result ≡ part_of_pair name.now }
{
    if name == "," {
        Part::Conjunction
    } else if name == ";" {
        Part::Disjunction
    } else if name == "->" {
        Part::IfThen
    } else {
        Part::Goal
    }
}

/// What the term at a place is.
pub(crate) fn part_of<T: FollowedTerms>(terms: &T, at: &T::At, symbols: &Symbols) -> Part
    requires place { T.IsPlace terms.now at.now }
    requires names { HasNames (length symbols.now) (T.term terms.now at.now) }
    ensures { result ≡ part_of_term (named symbols.now (T.term terms.now at.now)) }
{
    match terms.node(at) {
        Node::Var(_) => Part::Variable,
        Node::Int(_) => Part::Number,
        Node::Atom(_) => Part::Goal,
        Node::Struct(name, arity) => {
            if arity == 2 {
                pair_part(symbols.name_of(name))
            } else {
                Part::Goal
            }
        }
    }
}
