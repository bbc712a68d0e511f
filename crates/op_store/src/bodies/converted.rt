ghost use Rattle.std.specs.Prelude.{◌≡◌, ℕ, [], List, length, take, max, IfOk, IfSome, option_map};
ghost use Rattle.op_logic.specs.Term.{IsWithin};
ghost use Rattle.op_store.specs.Counted.{variable_count};
ghost use Rattle.op_logic.specs.Names.{HasNames, named};
ghost use Rattle.op_trace.specs.Body.{converted};
ghost use Rattle.op_store.specs.Counted.{node_variables};

use crate::bodies::body_fault::BodyFault;
use crate::bodies::build_body::build_body;
use crate::bodies::convert;
use crate::bodies::followed_terms::Unbound;
use crate::names::control_names::known_control_names;
use op_base::Memory;
use op_bind::nodes_of;
use op_term::{Fuel, Node, Symbols, Term, Tree};
use std::alloc::Global;

/// The term of the body that a term stands for, or None where it stands for none.
pub(crate) fn converted_term<T: Tree>(
    alloc: Global,
    symbols: &mut Symbols,
    tree: &T,
    at: &T::At,
) -> Result<Option<Term>, Memory>
    requires place { T.IsPlace tree.now at.now }
    requires names { HasNames (length symbols.old) (T.term tree.now at.now) }
    ensures body { IfOk result (λ o. option_map (named symbols.new) o ≡ (converted [] (named symbols.new (T.term tree.now at.now))).body) }
    ensures has { IfOk result (λ o. IfSome o (HasNames (length symbols.new))) }
    ensures within { IfOk result (λ o. (n : ℕ) → IsWithin n (T.term tree.now at.now) → IfSome o (IsWithin n)) }
    ensures kept { take (length symbols.old) symbols.new ≡ symbols.old }
{
    let known = known_control_names(symbols)?;
    let mut fuel = Fuel::new(u64::MAX);
    let terms = Unbound { tree };
    match convert::nodes_of(alloc, &terms, at, symbols, &mut fuel) {
        Ok(met) => Ok(Some(build_body(alloc, tree, known, met)?)),
        Err(BodyFault::NotCallable) => Ok(None),
        Err(_) => Err(Memory),
    }
}

fn variables_of(node: Node) -> Result<u64, Memory>
    ensures { IfOk result (λ n. n ≡ node_variables node) }
{
    match node {
        Node::Var(v) => v.checked_add(1).ok_or(Memory),
        _ => Ok(0),
    }
}

/// How many variables a term has that numbers them from 0.
pub(crate) fn count_variables<T: Tree>(alloc: Global, tree: &T, at: &T::At) -> Result<u64, Memory>
    requires { T.IsPlace tree.now at.now }
    ensures { IfOk result (λ n. n ≡ variable_count (T.term tree.now at.now)) }
{
    let mut nodes = nodes_of(alloc, tree, at)?;
    let mut most: u64 = 0;
    'back: while let Some(node) = nodes.pop() {
        most = most.max(variables_of(node)?);
    }
    Ok(most)
}
