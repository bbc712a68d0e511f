ghost use Rattle.std.specs.Prelude.{◌≡◌, ◌<◌, ◌+◌, ℕ, length, MatchOption, IfSome, false};
ghost use Rattle.op_logic.specs.Names.{HasNames, named};
ghost use Rattle.op_logic.specs.Term.{size};
ghost use Rattle.op_trace.specs.Body.{pair};
ghost use Rattle.op_store.specs.inner.Shapes.{is_pair};

use crate::terms::shape::{Shape, shape_of};
use op_term::{Symbols, Tree};

/// The places of both arguments, where the term at a place is a compound of two under a name.
pub(crate) fn pair_of<T: Tree>(
    tree: &T,
    at: &T::At,
    symbols: &Symbols,
    name: &str,
) -> Option<(T::At, T::At)>
    requires place { T.IsPlace tree.now at.now }
    requires names { HasNames (length symbols.now) (T.term tree.now at.now) }
    ensures pair { MatchOption result (is_pair name.now (named symbols.now (T.term tree.now at.now)) ≡ false)
        (λ q. named symbols.now (T.term tree.now at.now)
        ≡ pair name.now (named symbols.now (T.term tree.now q.0)) (named symbols.now (T.term tree.now q.1))) }
    ensures first { IfSome result (λ q. T.IsPlace tree.now q.0 × HasNames (length symbols.now) (T.term tree.now q.0)) }
    ensures second { IfSome result (λ q. T.IsPlace tree.now q.1 × HasNames (length symbols.now) (T.term tree.now q.1)) }
    ensures smaller { IfSome result (λ q. size (T.term tree.now q.0) + size (T.term tree.now q.1) < size (T.term tree.now at.now)) }
{
    match shape_of(tree, at) {
        Shape::Two(f, a, b) => {
            let is = symbols.name_of(f) == name;
            if is { Some((a, b)) } else { None }
        }
        _ => None,
    }
}
