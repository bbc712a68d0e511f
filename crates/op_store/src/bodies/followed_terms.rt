ghost use Rattle.std.specs.Prelude.{◌≡◌, ◌<◌, ℕ, [], length};
ghost use Rattle.op_logic.specs.Term.{Term as SpecTerm, args_of, nth_arg, arity};
ghost use Rattle.op_logic.specs.Bind.{Bindings as SpecBindings, follow};
ghost use Rattle.op_logic.specs.Laws.{Acyclic};
ghost use Rattle.op_term.specs.Head.{head};
ghost use Rattle.op_term.specs.Places.{term_at};
ghost use Rattle.op_bind.specs.State.{bindings};

use op_bind::{Bindings, Ref};
use op_term::{Node, Tree};

/// Terms that are read as they stand, each at a place, and the bindings under which they are followed. No call takes memory.
pub(crate) trait FollowedTerms {
    /// A place. It is used only with the terms that gave it.
    type At: Copy;

    ghost IsPlace: { Self → Self.At → Type 0 };

    ghost term: { Self → Self.At → SpecTerm ℕ };

    ghost under: { Self → SpecBindings ℕ };

    /// The place of what the term at a place leads to by the bindings, which have no cycles: an unbound variable, or another node.
    fn leads_to(&self, at: &Self::At) -> Self::At
        requires { IsPlace self.now at.now }
        ensures place { IsPlace self.now result }
        ensures value { term self.now result ≡ follow (under self.now) (term self.now at.now) }
        ensures acyclic { Acyclic (under self.now) };

    /// The outermost node of the term at a place.
    fn node(&self, at: &Self::At) -> Node
        requires { IsPlace self.now at.now }
        ensures { result ≡ head (term self.now at.now) };

    /// The place of an argument of the term at a place, counted from 0.
    fn part(&self, at: &Self::At, i: u64) -> Self::At
        requires place { IsPlace self.now at.now }
        requires there { i < arity (args_of (term self.now at.now)) }
        ensures place { IsPlace self.now result }
        ensures value { term self.now result ≡ nth_arg (args_of (term self.now at.now)) i };
}

impl FollowedTerms for Bindings {
    type At = Ref;

    ghost IsPlace = { λ b r. r < length b.terms };

    ghost term = { λ b r. term_at b.terms r };

    ghost under = { λ b. bindings b };

    fn leads_to(&self, at: &Ref) -> Ref {
        self.followed(at)
    }

    fn node(&self, at: &Ref) -> Node {
        self.outline(at)
    }

    fn part(&self, at: &Ref, i: u64) -> Ref {
        self.argument(at, i)
    }
}

/// The terms of a tree, under no bindings.
#[derive_where(Clone, Copy)]
pub(crate) struct Unbound<'a, T> {
    pub tree: &'a T,
}

impl<T: Tree> FollowedTerms for Unbound<'_, T> {
    type At = T::At;

    ghost IsPlace = { λ u p. T.IsPlace u.tree.now p };

    ghost term = { λ u p. T.term u.tree.now p };

    ghost under = { λ u. [] };

    fn leads_to(&self, at: &T::At) -> T::At {
        *at
    }

    fn node(&self, at: &T::At) -> Node {
        self.tree.node(at)
    }

    fn part(&self, at: &T::At, i: u64) -> T::At {
        self.tree.part(at, i)
    }
}
