ghost use Rattle.std.specs.Prelude.{◌≡◌, ◌+◌, ◌<◌, ◌≤◌, ◌^◌, ℕ, [], nat_eq, length, map, fold, Err, IfOk, OnOk, OnErr};
ghost use Rattle.std.specs.List.{position_or_len};
ghost use Rattle.op_logic.specs.Term.{Term as SpecTerm, size};
ghost use Rattle.op_term.specs.Places.{term_at};
ghost use Rattle.op_term.specs.Variables.{with_number, distinct_variables};
ghost use Rattle.op_bind.specs.Copied.{copied};
ghost use Rattle.op_bind.specs.Grown.{Grows};
ghost use Rattle.op_bind.specs.State.{bindings, value_of};
ghost use Rattle.op_bind.specs.Visited.{visit};
ghost use Rattle.op_bind.specs.inner.Renewed.{node_variables, variables_back, renewed_node as the_renewed_node};

use crate::bindings::Bindings;
use crate::copy::{build, nodes_within};
use crate::places::Ref;
use indexmap::IndexSet;
use op_base::Memory;
use op_term::{Fuel, Node, WalkFault};
use std::alloc::Global;

// A node's variable joins those that were met.
fn meet(node: Node, met: &mut IndexSet<u64>) -> Result<(), Memory>
    ensures { OnOk result (met.new.keys ≡ fold with_number met.old.keys (node_variables node)) }
{
    if let Node::Var(v) = node {
        met.insert(v)?;
    }
    Ok(())
}

// The variables of nodes, each once, from the last node back: in a term's nodes that is from the left.
fn variables_among(alloc: Global, nodes: &[Node]) -> Result<IndexSet<u64>, Memory>
    ensures { IfOk result (λ met. met.keys ≡ fold with_number [] (variables_back nodes.now)) }
{
    let mut met = IndexSet::new(alloc);
    let mut i = nodes.len();
    'back: while i > 0 {
        i -= 1;
        meet(nodes[i], &mut met)?;
    }
    Ok(met)
}

// The place of a variable among those that were met.
fn place_of(v: u64, met: &IndexSet<u64>) -> u64
    ensures value { result ≡ position_or_len (nat_eq v) met.now.keys }
    ensures within { result ≤ length met.now.keys }
{
    match met.get_index_of(&v) {
        Some(at) => at as u64,
        None => met.len() as u64,
    }
}

// A node with a new variable, numbered from `first` on.
fn renewed_node(node: Node, first: u64, met: &IndexSet<u64>) -> Node
    requires { first + length met.now.keys < 2 ^ 64 }
    ensures { result ≡ the_renewed_node first met.now.keys node }
{
    match node {
        Node::Var(v) => Node::Var(first + place_of(v, met)),
        _ => node,
    }
}

fn renewed_nodes(
    alloc: Global,
    nodes: &[Node],
    first: u64,
    met: &IndexSet<u64>,
) -> Result<Vec<Node>, Memory>
    requires { first + length met.now.keys < 2 ^ 64 }
    ensures { IfOk result (λ renewed. renewed.items ≡ map (the_renewed_node first met.now.keys) nodes.now) }
{
    let mut renewed = Vec::new(alloc);
    for node in nodes {
        renewed.push(renewed_node(*node, first, met))?;
    }
    Ok(renewed)
}

impl Bindings {
    /// A copy of a Ref's value with new variables, which are numbered from the present count on by first occurrence. It takes a
    /// step for each node of the value; where fewer are left, all of them are taken, and no number is given out.
    pub fn copy(&mut self, r: &Ref, fuel: &mut Fuel) -> Result<Ref, WalkFault>
        requires { r.now < length self.old.terms }
        ensures there { IfOk result (λ c. c < length self.new.terms) }
        ensures value { IfOk result (λ c. term_at self.new.terms c ≡ copied self.old.count (value_of self.old r.now)) }
        ensures free { IfOk result (λ c. value_of self.new c ≡ copied self.old.count (value_of self.old r.now)) }
        ensures paid { OnOk result (fuel.old ≡ fuel.new + size (value_of self.old r.now)) }
        ensures spent { result ≡ Err WalkFault.Spent → fuel.old < size (value_of self.old r.now) }
        ensures empty { result ≡ Err WalkFault.Spent → fuel.new ≡ 0 }
        ensures falls { fuel.new ≤ fuel.old }
        ensures added { OnOk result (length self.new.terms ≡ length self.old.terms + size (value_of self.old r.now)) }
        ensures bound { self.new.bound ≡ self.old.bound }
        ensures bindings { bindings self.new ≡ bindings self.old }
        ensures count { OnOk result (self.new.count ≡ self.old.count + length (distinct_variables (value_of self.old r.now))) }
        ensures err { OnErr result (self.new ≡ self.old) }
        ensures grows { Grows self.old self.new }
    {
        let nodes = nodes_within(self.alloc, self, r, fuel)?;
        match self.add_renewed(&nodes) {
            Ok(at) => Ok(at),
            Err(refused) => Err(WalkFault::from(refused)),
        }
    }

    // The term of these nodes with new variables.
    fn add_renewed(&mut self, nodes: &[Node]) -> Result<Ref, Memory>
        requires { (t : SpecTerm ℕ) × (nodes.now ≡ visit t) }
        ensures there { IfOk result (λ c. c < length self.new.terms) }
        ensures value { IfOk result (λ c. (t : SpecTerm ℕ) → nodes.now ≡ visit t → term_at self.new.terms c ≡ copied self.old.count t) }
        ensures added { OnOk result (length self.new.terms ≡ length self.old.terms + length nodes.now) }
        ensures bound { self.new.bound ≡ self.old.bound }
        ensures bindings { bindings self.new ≡ bindings self.old }
        ensures count { OnOk result ((t : SpecTerm ℕ) → nodes.now ≡ visit t
            → self.new.count ≡ self.old.count + length (distinct_variables t)) }
        ensures err { OnErr result (self.new ≡ self.old) }
        ensures grows { Grows self.old self.new }
    {
        let met = variables_among(self.alloc, nodes)?;
        let first = self.variable_count();
        self.fresh(met.len() as u64)?;
        match self.add_numbered(nodes, first, &met) {
            Ok(at) => Ok(at),
            Err(refused) => {
                self.give_back(first);
                Err(refused)
            }
        }
    }

    // The term of these nodes with their variables numbered from `first` on, by their places among those that were met.
    fn add_numbered(
        &mut self,
        nodes: &[Node],
        first: u64,
        met: &IndexSet<u64>,
    ) -> Result<Ref, Memory>
        requires nodes { (t : SpecTerm ℕ) × (nodes.now ≡ visit t) }
        requires met { met.now.keys ≡ fold with_number [] (variables_back nodes.now) }
        requires count { self.old.count ≡ first + length met.now.keys }
        ensures there { IfOk result (λ c. c < length self.new.terms) }
        ensures value { IfOk result (λ c. (t : SpecTerm ℕ) → nodes.now ≡ visit t → term_at self.new.terms c ≡ copied first t) }
        ensures added { OnOk result (length self.new.terms ≡ length self.old.terms + length nodes.now) }
        ensures bound { self.new.bound ≡ self.old.bound }
        ensures bindings { bindings self.new ≡ bindings self.old }
        ensures count { self.new.count ≡ self.old.count }
        ensures err { OnErr result (self.new ≡ self.old) }
        ensures grows { Grows self.old self.new }
    {
        let _end = self.variable_count();
        let renewed = renewed_nodes(self.alloc, nodes, first, met)?;
        self.add(renewed)
    }
}
