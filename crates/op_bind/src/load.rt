ghost use Rattle.std.specs.Prelude.{◌≡◌, ◌+◌, ◌<◌, ◌≤◌, ◌^◌, ℕ, length, OnOk, OnErr, IfOk};
ghost use Rattle.op_logic.specs.Term.{Term as SpecTerm, IsWithin, shift, size};
ghost use Rattle.op_term.specs.Places.{term_at};
ghost use Rattle.op_bind.specs.Visited.{visit};
ghost use Rattle.op_bind.specs.inner.Built.{NodesWithin};
ghost use Rattle.op_bind.specs.inner.Loaded.{shifted_node, CanShift};
ghost use Rattle.op_bind.specs.Grown.{Grows};
ghost use Rattle.op_bind.specs.State.{bindings};

use crate::bindings::Bindings;
use crate::copy::{build, nodes_of};
use crate::places::Ref;
use op_base::Memory;
use op_term::{Node, Term, Tree, Whole};

// A node, its variable counted from `first` on.
fn shift_node(node: Node, first: u64) -> Node
    requires { CanShift first node }
    ensures { result ≡ shifted_node first node }
{
    match node {
        Node::Var(k) => Node::Var(first + k),
        _ => node,
    }
}

// A term that is lent, its variables counted from `first` on.
#[derive(Drop)]
struct Shifted<'a> {
    whole: Whole<'a>,
    first: u64,
}

impl Tree for Shifted<'_> {
    type At = u64;

    ghost IsPlace = { λ s at. (at < length s.whole.terms) × IsWithin (2 ^ 64) (shift s.first (term_at s.whole.terms at)) };

    ghost term = { λ s at. shift s.first (term_at s.whole.terms at) };

    fn node(&self, at: &u64) -> Node {
        shift_node(self.whole.node(at), self.first)
    }

    fn part(&self, at: &u64, i: u64) -> u64 {
        self.whole.part(at, i)
    }
}

impl Bindings {
    /// Brings a term in, its variable k as number `first + k`. No more terms join than the term has nodes.
    pub fn load(&mut self, term: &Term, first: u64) -> Result<Ref, Memory>
        requires { IsWithin self.old.count (shift first term.now) }
        ensures there { IfOk result (λ r. r < length self.new.terms) }
        ensures value { IfOk result (λ r. term_at self.new.terms r ≡ shift first term.now) }
        ensures added { OnOk result (length self.new.terms ≤ length self.old.terms + size term.now) }
        ensures bound { self.new.bound ≡ self.old.bound }
        ensures bindings { bindings self.new ≡ bindings self.old }
        ensures count { self.new.count ≡ self.old.count }
        ensures err { OnErr result (self.new ≡ self.old) }
        ensures grows { Grows self.old self.new }
    {
        let whole = Whole::new(term);
        let root = whole.root();
        let shifted = Shifted { whole, first };
        let nodes = nodes_of(self.alloc, &shifted, &root)?;
        self.add(nodes)
    }

    // The term of these nodes joins.
    pub(crate) fn add(&mut self, nodes: Vec<Node>) -> Result<Ref, Memory>
        requires nodes { (t : SpecTerm ℕ) × (nodes.items ≡ visit t) }
        requires within { NodesWithin self.old.count nodes.items }
        ensures there { IfOk result (λ r. r < length self.new.terms) }
        ensures value { IfOk result (λ r. (t : SpecTerm ℕ) → nodes.items ≡ visit t → term_at self.new.terms r ≡ t) }
        ensures added { OnOk result (length self.new.terms ≡ length self.old.terms + length nodes.items) }
        ensures bound { self.new.bound ≡ self.old.bound }
        ensures bindings { bindings self.new ≡ bindings self.old }
        ensures count { self.new.count ≡ self.old.count }
        ensures err { OnErr result (self.new ≡ self.old) }
        ensures grows { Grows self.old self.new }
    {
        let base = self.nodes.len();
        match build(self.alloc, nodes, &mut self.nodes) {
            Ok(at) => Ok(Ref { at }),
            Err(refused) => {
                self.nodes.cut(base);
                Err(refused)
            }
        }
    }
}
