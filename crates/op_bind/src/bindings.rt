ghost use Rattle.std.specs.Prelude.{◌≡◌, ◌+◌, ◌<◌, ◌≤◌, ◌++◌, ◌∷◌, [], ℕ, length, take, drop, All, OnOk, OnErr, IfOk, None, false, map};
ghost use Rattle.op_logic.specs.Term.{Term as SpecTerm, node, args_of, arity, nth_arg, occurs, IsWithin, shift};
ghost use Rattle.op_logic.specs.Bind.{lookup, follow};
ghost use Rattle.op_logic.specs.Laws.{Acyclic};
ghost use Rattle.op_term.specs.Places.{term_at, args_at};
ghost use Rattle.op_term.specs.Head.{head};
ghost use Rattle.op_bind.specs.State.{State, bindings, value_of, undone, mark_of, oldest, IsGoodMark};
ghost use Rattle.op_bind.specs.inner.Sound.{IsRanked};
ghost use Rattle.op_bind.specs.Grown.{Grows};

use crate::places::{Mark, Ref};
use op_base::Memory;
use op_term::{Builder, Node, Sym, Tree};
use std::alloc::Global;
use std::marker::Model;

/// Terms, and variables that are bound to some of them. A clause sees the term of each Ref, the bindings from the newest on, and
/// how many variables were given out.
#[derive(Drop)]
pub struct Bindings {
    pub(crate) alloc: Global,
    pub(crate) nodes: Builder,
    // for each variable that was given out, the node that it is bound to
    pub(crate) table: Vec<Option<u64>>,
    // each variable that is bound, with its node, the newest last
    pub(crate) trail: Vec<(u64, u64)>,
}

impl Model for Bindings {
    ghost use Rattle.std.specs.Prelude.{reverse, length};
    ghost use Rattle.op_bind.specs.State.{State, state_code};
    ghost use Rattle.op_bind.specs.inner.Sound.{IsSound};

    ghost Value = { State };

    ghost coded = { state_code };

    ghost view = { λ b. record { terms = b.nodes; bound = reverse b.trail.items; count = length b.table.items } };

    ghost invariant = { λ b. IsSound b.nodes (reverse b.trail.items) b.table.items };
}

impl Bindings {
    /// No terms and no variables.
    pub fn new(alloc: Global) -> Bindings
        ensures { result ≡ record { terms = []; bound = []; count = 0 } }
    {
        Bindings {
            alloc,
            nodes: Builder::new(alloc),
            table: Vec::new(alloc),
            trail: Vec::new(alloc),
        }
    }

    /// Where the terms are allocated.
    pub fn alloc(&self) -> Global {
        self.alloc
    }

    /// Gives out `n` variables, and the number of the first.
    pub fn fresh(&mut self, n: u64) -> Result<u64, Memory>
        ensures number { IfOk result (λ first. first ≡ self.old.count) }
        ensures ok { OnOk result (self.new ≡ record self.old { count = self.old.count + n }) }
        ensures err { OnErr result (self.new ≡ self.old) }
        ensures grows { Grows self.old self.new }
    {
        let first = self.table.len();
        let Some(end) = first.checked_add(n as usize) else {
            return Err(Memory);
        };
        self.table.resize(end, None)?;
        Ok(first as u64)
    }

    /// Makes a compound of terms that are there.
    pub fn compound(&mut self, name: Sym, args: &[Ref]) -> Result<Ref, Memory>
        requires there { All (λ r. r < length self.old.terms) args.now }
        requires some { 0 < length args.now }
        ensures there { IfOk result (λ r. r < length self.new.terms) }
        ensures value { IfOk result (λ r. term_at self.new.terms r ≡ node name.0 (args_at self.old.terms args.now)) }
        ensures bound { self.new.bound ≡ self.old.bound }
        ensures bindings { bindings self.new ≡ bindings self.old }
        ensures count { self.new.count ≡ self.old.count }
        ensures err { OnErr result (self.new ≡ self.old) }
        ensures grows { Grows self.old self.new }
    {
        let mut parts = Vec::new(self.alloc);
        for r in args {
            parts.push(r.at)?;
        }
        let at = self.nodes.compound(name, &parts)?;
        Ok(Ref { at })
    }

    /// The present state, to return to.
    pub fn mark(&self) -> Mark
        ensures mark { result ≡ mark_of self.now }
        ensures good { IsGoodMark self.now result }
    {
        Mark {
            terms: self.nodes.len(),
            bound: self.trail.len(),
        }
    }

    /// Returns to the bindings at a mark, and drops the terms since then. Numbers that were given out stay given out, and
    /// their variables are unbound.
    pub fn undo_to(&mut self, mark: Mark)
        requires { IsGoodMark self.old mark }
        ensures { self.new ≡ undone self.old mark }
    {
        'undo: while self.bound_count() > mark.bound {
            self.unbind();
        }
        self.cut(mark.terms);
    }

    fn bound_count(&self) -> usize
        ensures { result ≡ length self.now.bound }
    {
        self.trail.len()
    }

    fn unbind(&mut self)
        requires { 0 < length self.old.bound }
        ensures terms { self.new.terms ≡ self.old.terms }
        ensures count { self.new.count ≡ self.old.count }
        ensures bound { self.new.bound ≡ drop 1 self.old.bound }
    {
        if let Some((v, _)) = self.trail.pop() {
            self.table[v as usize] = None;
        }
    }

    fn cut(&mut self, n: u64)
        requires there { n ≤ length self.old.terms }
        requires below { All (λ p. p.1 < n) self.old.bound }
        ensures terms { self.new.terms ≡ take n self.old.terms }
        ensures bound { self.new.bound ≡ self.old.bound }
        ensures count { self.new.count ≡ self.old.count }
    {
        self.nodes.cut(n);
    }

    /// Binds a variable to a node.
    pub(crate) fn bind(&mut self, v: u64, r: u64) -> Result<(), Memory>
        requires given_out { v < self.old.count }
        requires there { r < length self.old.terms }
        requires free { lookup (bindings self.old) v ≡ None }
        requires ranked { IsRanked v (term_at self.old.terms r) }
        requires acyclic { occurs v (value_of self.old r) ≡ false }
        ensures ok { OnOk result (self.new ≡ record self.old { bound = (v, r) ∷ self.old.bound }) }
        ensures err { OnErr result (self.new ≡ self.old) }
    {
        self.trail.push((v, r))?;
        self.table[v as usize] = Some(r);
        Ok(())
    }

    /// The node that a node leads to by the bindings: an unbound variable, or another node.
    pub(crate) fn follow(&self, r: u64) -> u64
        requires { r < length self.now.terms }
        ensures there { result < length self.now.terms }
        ensures value { term_at self.now.terms result ≡ follow (bindings self.now) (term_at self.now.terms r) }
    {
        let mut at = r;
        'chain: loop {
            let Node::Var(v) = self.nodes.node(at) else {
                return at;
            };
            let Some(next) = self.table[v as usize] else {
                return at;
            };
            at = next;
        }
    }

    /// The Ref that a Ref leads to by the bindings, which have no cycles: an unbound variable, or another node.
    pub fn followed(&self, r: &Ref) -> Ref
        requires { r.now < length self.now.terms }
        ensures there { result < length self.now.terms }
        ensures value { term_at self.now.terms result ≡ follow (bindings self.now) (term_at self.now.terms r.now) }
        ensures acyclic { Acyclic (bindings self.now) }
    {
        let _ = &self.nodes;
        Ref {
            at: self.follow(r.at),
        }
    }

    /// The outermost node of a Ref's term as it stands, whatever its variables are bound to.
    pub fn outline(&self, r: &Ref) -> Node
        requires { r.now < length self.now.terms }
        ensures { result ≡ head (term_at self.now.terms r.now) }
    {
        self.node_at(r.at)
    }

    /// An argument of a Ref's term as it stands, by its place from 0.
    pub fn argument(&self, r: &Ref, i: u64) -> Ref
        requires there { r.now < length self.now.terms }
        requires within { i < arity (args_of (term_at self.now.terms r.now)) }
        ensures there { result < length self.now.terms }
        ensures value { term_at self.now.terms result ≡ nth_arg (args_of (term_at self.now.terms r.now)) i }
    {
        Ref {
            at: self.nodes.part(r.at, i),
        }
    }

    /// The outermost node of a term that is not followed.
    pub(crate) fn node_at(&self, r: u64) -> Node
        requires { r < length self.now.terms }
        ensures { result ≡ head (term_at self.now.terms r) }
    {
        self.nodes.node(r)
    }

    /// The outermost node of a Ref's value.
    pub fn head_of(&self, r: &Ref) -> Node
        requires { r.now < length self.now.terms }
        ensures { result ≡ head (value_of self.now r.now) }
    {
        let _ = &self.nodes;
        self.node_at(self.follow(r.at))
    }
}

impl Tree for Bindings {
    type At = Ref;

    ghost IsPlace = { λ b r. r < length b.terms };

    ghost term = { λ b r. value_of b r };

    fn node(&self, at: &Ref) -> Node {
        self.head_of(at)
    }

    fn part(&self, at: &Ref, i: u64) -> Ref {
        let _ = &self.nodes;
        let node = self.follow(at.at);
        Ref {
            at: self.nodes.part(node, i),
        }
    }
}
