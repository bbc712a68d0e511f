ghost use Rattle.std.specs.Prelude.{◌≡◌, ◌<◌, ℕ, length, IfOk};
ghost use Rattle.op_term.specs.Integers.{HasSmallIntegers};
ghost use Rattle.op_term.specs.Places.{term_at};

use crate::builder::Builder;
use crate::node::{Node, Tree};
use op_base::Memory;
use std::marker::Model;

/// A term that doesn't change. It is kept as a list of nodes, so that dropping it makes no nested calls.
#[derive(Drop)]
pub struct Term {
    nodes: Builder,
    root: u64,
}

impl Model for Term {
    ghost use Rattle.std.specs.Prelude.{ℕ, length, ◌<◌};
    ghost use Rattle.op_logic.specs.Term.{Term as SpecTerm};
    ghost use Rattle.op_logic.specs.inner.Code.{term_code};
    ghost use Rattle.op_term.specs.Places.{term_at};

    ghost Value = { SpecTerm ℕ };

    ghost coded = { term_code };

    ghost view = { λ t. term_at t.nodes t.root };

    ghost invariant = { λ t. t.root < length t.nodes };
}

impl Term {
    /// The term of a node.
    pub(crate) fn of(nodes: Builder, root: u64) -> Term
        requires { root < length nodes }
        ensures { result ≡ term_at nodes root }
    {
        Term { nodes, root }
    }

    /// A law for proofs: each integer in it has 64 bits.
    pub fn integers_law(&self)
        ensures { HasSmallIntegers self.now }
    {
        self.nodes.integers_law();
    }

    /// An equal term.
    pub fn copy(&self) -> Result<Term, Memory>
        ensures { IfOk result (λ t. t ≡ self.now) }
    {
        Ok(Term {
            nodes: self.nodes.copy()?,
            root: self.root,
        })
    }
}

/// A term that is lent, to be read node by node. A clause sees the nodes' terms and the number of the whole.
#[derive(Drop)]
pub struct Whole<'a> {
    nodes: &'a Builder,
    root: u64,
}

impl<'a> Model for Whole<'a> {
    ghost use Rattle.std.specs.Prelude.{ℕ, length, ◌<◌};
    ghost use Rattle.op_term.specs.Places.{Rooted, rooted_code};

    ghost Value = { Rooted };

    ghost coded = { rooted_code };

    ghost view = { λ w. record { terms = w.nodes.now; root = w.root } };

    ghost invariant = { λ w. w.root < length w.nodes.now };
}

impl<'a> Whole<'a> {
    /// Lends a term.
    pub fn new(term: &'a Term) -> Whole<'a>
        ensures place { result.root < length result.terms }
        ensures value { term_at result.terms result.root ≡ term.now }
    {
        Whole {
            nodes: &term.nodes,
            root: term.root,
        }
    }

    /// The place of the whole term.
    pub fn root(&self) -> u64
        ensures root { result ≡ self.now.root }
        ensures place { result < length self.now.terms }
    {
        self.root
    }

    /// The nodes.
    pub fn nodes(&self) -> &'a Builder
        ensures { result.now ≡ self.now.terms }
    {
        self.nodes
    }
}

impl Tree for Whole<'_> {
    type At = u64;

    ghost IsPlace = { λ w at. at < length w.terms };

    ghost term = { λ w at. term_at w.terms at };

    fn node(&self, at: &u64) -> Node {
        self.nodes.node(*at)
    }

    fn part(&self, at: &u64, i: u64) -> u64 {
        self.nodes.part(*at, i)
    }
}
