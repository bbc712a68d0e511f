ghost use Rattle.std.specs.Prelude.{◌≡◌, ◌+◌, ◌<◌, ◌≤◌, Err, IfOk, OnOk, not, ◌&&◌};
ghost use Rattle.op_logic.specs.Term.{size as node_count};
ghost use Rattle.op_term.specs.Variables.{has_no_variable};
ghost use Rattle.op_term.specs.inner.Measured.{is_variable};

use crate::arguments::push_args;
use crate::fuel::Fuel;
use crate::node::{Node, Tree};
use crate::walk::WalkFault;
use std::alloc::Global;

// Whether neither this node nor one before it is a variable.
fn none_yet(none: bool, node: Node) -> bool
    ensures { result ≡ (not (is_variable node) && none) }
{
    match node {
        Node::Var(_) => false,
        _ => none,
    }
}

/// Whether a term has no variable, at a step for each of its nodes. Where fewer are left, all of them are taken.
pub fn is_ground<T: Tree>(
    alloc: Global,
    tree: &T,
    at: &T::At,
    fuel: &mut Fuel,
) -> Result<bool, WalkFault>
    requires { T.IsPlace tree.now at.now }
    ensures value { IfOk result (λ b. b ≡ has_no_variable (T.term tree.now at.now)) }
    ensures paid { OnOk result (fuel.old ≡ fuel.new + node_count (T.term tree.now at.now)) }
    ensures spent { result ≡ Err WalkFault.Spent → fuel.old < node_count (T.term tree.now at.now) }
    ensures empty { result ≡ Err WalkFault.Spent → fuel.new ≡ 0 }
    ensures falls { fuel.new ≤ fuel.old }
{
    let mut todo = Vec::new(alloc);
    todo.push(*at)?;
    let mut none = true;
    'walk: while let Some(next) = todo.pop() {
        fuel.spend(1)?;
        let node = tree.node(&next);
        none = none_yet(none, node);
        push_args(tree, &next, node.arity(), &mut todo)?;
    }
    Ok(none)
}

/// How many nodes a term has, at a step for each. Where fewer are left, all of them are taken.
pub fn size<T: Tree>(alloc: Global, tree: &T, at: &T::At, fuel: &mut Fuel) -> Result<u64, WalkFault>
    requires { T.IsPlace tree.now at.now }
    ensures value { IfOk result (λ n. n ≡ node_count (T.term tree.now at.now)) }
    ensures paid { OnOk result (fuel.old ≡ fuel.new + node_count (T.term tree.now at.now)) }
    ensures spent { result ≡ Err WalkFault.Spent → fuel.old < node_count (T.term tree.now at.now) }
    ensures empty { result ≡ Err WalkFault.Spent → fuel.new ≡ 0 }
    ensures falls { fuel.new ≤ fuel.old }
{
    let before = fuel.left();
    is_ground(alloc, tree, at, fuel)?;
    Ok(before - fuel.left())
}
