ghost use Rattle.std.specs.Prelude.{◌≡◌, ◌+◌, ◌<◌, ◌≤◌, ◌++◌, ◌∷◌, [], ℕ, length, take, drop, map, All, Err, IfOk, OnOk};
ghost use Rattle.op_logic.specs.Term.{Term as SpecTerm, size, IsWithin};
ghost use Rattle.op_term.specs.Places.{term_at};
ghost use Rattle.op_bind.specs.Visited.{visit};
ghost use Rattle.op_bind.specs.inner.Built.{join, HasArgs, NodesWithin, IsMore};
ghost use Rattle.op_bind.specs.Within.{AllWithin};

use op_base::Memory;
use op_term::{Builder, Fuel, Node, Tree, WalkFault, push_args};
use std::alloc::Global;

/// The nodes of a term, each before its arguments' and the last argument's first, at a step for each.
pub(crate) fn nodes_within<T: Tree>(
    alloc: Global,
    tree: &T,
    at: &T::At,
    fuel: &mut Fuel,
) -> Result<Vec<Node>, WalkFault>
    requires { T.IsPlace tree.now at.now }
    ensures nodes { IfOk result (λ nodes. nodes.items ≡ visit (T.term tree.now at.now)) }
    ensures paid { OnOk result (fuel.old ≡ fuel.new + size (T.term tree.now at.now)) }
    ensures spent { result ≡ Err WalkFault.Spent → fuel.old < size (T.term tree.now at.now) }
    ensures empty { result ≡ Err WalkFault.Spent → fuel.new ≡ 0 }
    ensures falls { fuel.new ≤ fuel.old }
{
    let mut todo = Vec::new(alloc);
    let mut nodes = Vec::new(alloc);
    todo.push(*at)?;
    'walk: while let Some(next) = todo.pop() {
        fuel.spend(1)?;
        let node = tree.node(&next);
        nodes.push(node)?;
        push_args(tree, &next, node.arity(), &mut todo)?;
    }
    Ok(nodes)
}

/// The nodes of a term, each before its arguments' and the last argument's first.
pub fn nodes_of<T: Tree>(alloc: Global, tree: &T, at: &T::At) -> Result<Vec<Node>, Memory>
    requires { T.IsPlace tree.now at.now }
    ensures { IfOk result (λ nodes. nodes.items ≡ visit (T.term tree.now at.now)) }
{
    let mut fuel = Fuel::new(u64::MAX);
    match nodes_within(alloc, tree, at, &mut fuel) {
        Ok(nodes) => Ok(nodes),
        Err(_) => Err(Memory),
    }
}

// Makes a node of what was made, with the arguments that stand last, which are taken.
fn make_node(node: Node, made: &mut Builder, stack: &mut Vec<u64>) -> Result<u64, Memory>
    requires there { All (λ r. r < length made.old) stack.old.items }
    requires args { HasArgs node (map (term_at made.old) stack.old.items) }
    ensures place { IfOk result (λ at. at < length made.new) }
    ensures there { OnOk result (All (λ r. r < length made.new) stack.new.items) }
    ensures joined { IfOk result (λ at. map (term_at made.new) (stack.new.items ++ at ∷ [])
        ≡ join node (map (term_at made.old) stack.old.items)) }
    ensures more { OnOk result (IsMore node made.old made.new) }
    ensures kept { take (length made.old) made.new ≡ made.old }
{
    match node {
        Node::Var(v) => made.var(v),
        Node::Int(i) => made.int(i),
        Node::Atom(name) => made.atom(name),
        Node::Struct(name, n) => {
            let from = stack.len() - n as usize;
            let at = made.compound(name, tail(stack, from))?;
            stack.truncate(from);
            return Ok(at);
        }
    }
}

fn tail(numbers: &[u64], from: usize) -> &[u64]
    requires { from ≤ length numbers.now }
    ensures { result.now ≡ drop from numbers.now }
{
    &numbers[from..]
}

// A node joins what was made.
fn join_node(node: Node, made: &mut Builder, stack: &mut Vec<u64>) -> Result<(), Memory>
    requires there { All (λ r. r < length made.old) stack.old.items }
    requires args { HasArgs node (map (term_at made.old) stack.old.items) }
    ensures there { OnOk result (All (λ r. r < length made.new) stack.new.items) }
    ensures joined { OnOk result (map (term_at made.new) stack.new.items ≡ join node (map (term_at made.old) stack.old.items)) }
    ensures more { OnOk result (IsMore node made.old made.new) }
    ensures kept { take (length made.old) made.new ≡ made.old }
{
    let at = make_node(node, made, stack)?;
    stack.push(at)?;
    Ok(())
}

/// The term of these nodes, behind what was made before: the number of its node.
pub(crate) fn build(alloc: Global, mut nodes: Vec<Node>, made: &mut Builder) -> Result<u64, Memory>
    requires { (t : SpecTerm ℕ) × (nodes.items ≡ visit t) }
    ensures there { IfOk result (λ r. r < length made.new) }
    ensures term { IfOk result (λ r. (t : SpecTerm ℕ) → nodes.items ≡ visit t → term_at made.new r ≡ t) }
    ensures added { OnOk result (length made.new ≡ length made.old + length nodes.items) }
    ensures within { OnOk result ((n : ℕ) → NodesWithin n nodes.items → AllWithin n made.old → AllWithin n made.new) }
    ensures kept { take (length made.old) made.new ≡ made.old }
{
    let mut stack = Vec::new(alloc);
    'back: while let Some(node) = nodes.pop() {
        join_node(node, made, &mut stack)?;
    }
    Ok(stack[0])
}

/// The term at a place of a tree, made again behind what was made before: the number of its node.
pub fn copy_term<T: Tree>(
    alloc: Global,
    tree: &T,
    at: &T::At,
    made: &mut Builder,
) -> Result<u64, Memory>
    requires { T.IsPlace tree.now at.now }
    ensures there { IfOk result (λ r. r < length made.new) }
    ensures term { IfOk result (λ r. term_at made.new r ≡ T.term tree.now at.now) }
    ensures added { OnOk result (length made.new ≡ length made.old + size (T.term tree.now at.now)) }
    ensures within { OnOk result ((n : ℕ) → IsWithin n (T.term tree.now at.now) → AllWithin n made.old → AllWithin n made.new) }
    ensures kept { take (length made.old) made.new ≡ made.old }
{
    let nodes = nodes_of(alloc, tree, at)?;
    build(alloc, nodes, made)
}
