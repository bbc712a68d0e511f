ghost use Rattle.std.specs.Prelude.{◌≡◌, ◌<◌, ℕ, length, All, IfSome};
ghost use Rattle.op_logic.specs.Names.{HasNames, named};
ghost use Rattle.op_store.specs.Clauses.{sentence_of as the_sentence};
ghost use Rattle.op_store.specs.inner.Shapes.{sentence_text, sentence_places, one_of};

use crate::terms::pair::pair_of;
use crate::terms::shape::{Shape, shape_of};
use op_term::{Symbols, Tree};

/// A term of a text, by the places of its parts: a clause, which as a fact has no body, a directive, or a query.
#[derive(Clone, Copy)]
pub(crate) enum Sentence<P> {
    Clause(P, Option<P>),
    Directive(P),
    Query,
}

// A term under a name of one argument.
fn one_sentence<P: Copy>(name: &str, whole: P, part: P) -> Sentence<P>
    ensures { result ≡ one_of name.now whole part }
{
    if name == ":-" {
        Sentence::Directive(part)
    } else if name == "?-" {
        Sentence::Query
    } else {
        Sentence::Clause(whole, None)
    }
}

/// What the term at a place is in a text.
pub(crate) fn sentence_of<T: Tree>(tree: &T, at: &T::At, symbols: &Symbols) -> Sentence<T::At>
    requires place { T.IsPlace tree.now at.now }
    requires names { HasNames (length symbols.now) (T.term tree.now at.now) }
    ensures sentence { sentence_text (λ p. named symbols.now (T.term tree.now p)) result
        ≡ the_sentence (named symbols.now (T.term tree.now at.now)) }
    ensures places { All (λ p. T.IsPlace tree.now p × HasNames (length symbols.now) (T.term tree.now p)) (sentence_places result) }
{
    if let Shape::One(name, part) = shape_of(tree, at) {
        return one_sentence(symbols.name_of(name), *at, part);
    }
    match pair_of(tree, at, symbols, ":-") {
        Some((head, body)) => Sentence::Clause(head, Some(body)),
        None => Sentence::Clause(*at, None),
    }
}
