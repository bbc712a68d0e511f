ghost use Rattle.std.specs.Prelude.{◌≡◌, ◌<◌, ℕ, All};
ghost use Rattle.op_store.specs.inner.Shapes.{IsShape, places_in};

use op_term::{Node, Sym, Tree};

/// A term by its outermost node, with the places of its arguments where these are at most three.
#[derive(Clone, Copy)]
pub(crate) enum Shape<P> {
    Int(i64),
    Atom(Sym),
    One(Sym, P),
    Two(Sym, P, P),
    Three(Sym, P, P, P),
    /// A variable, or a compound of more arguments.
    Other,
}

/// The shape of the term at a place.
pub(crate) fn shape_of<T: Tree>(tree: &T, at: &T::At) -> Shape<T::At>
    requires { T.IsPlace tree.now at.now }
    ensures shape { IsShape (λ p. T.term tree.now p) (T.term tree.now at.now) result }
    ensures places { All (λ p. T.IsPlace tree.now p) (places_in result) }
{
    match tree.node(at) {
        Node::Var(_) => Shape::Other,
        Node::Int(i) => Shape::Int(i),
        Node::Atom(name) => Shape::Atom(name),
        Node::Struct(name, arity) => {
            if arity == 1 {
                Shape::One(name, tree.part(at, 0))
            } else if arity == 2 {
                Shape::Two(name, tree.part(at, 0), tree.part(at, 1))
            } else if arity == 3 {
                Shape::Three(name, tree.part(at, 0), tree.part(at, 1), tree.part(at, 2))
            } else {
                Shape::Other
            }
        }
    }
}
