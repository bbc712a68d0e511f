ghost use Rattle.std.specs.Prelude.{◌≡◌, ◌≢◌, ◌<◌, ◌≤◌, ◌+◌, ◌++◌, ◌∷◌, [], ℕ, length, IfOk, OnOk, Err, Some, None, All, option_map};
ghost use Rattle.op_logic.specs.Names.{HasNames, HaveNames, named};
ghost use Rattle.op_logic.specs.Term.{args_of, nth_arg, arity};
ghost use Rattle.op_trace.specs.Body.{divided};
ghost use Rattle.op_store.specs.Divided.{divided_in};
ghost use Rattle.op_store.specs.Nodes.{body_tree, leaves};
ghost use Rattle.op_store.specs.inner.Walk.{left_in, step_before, refused, read};

use crate::bodies::body::Body;
use crate::bodies::body_fault::BodyFault;
use crate::bodies::body_node::BodyNode;
use crate::bodies::body_part::{Part, part_of};
use crate::bodies::followed_terms::{FollowedTerms, Unbound};
use crate::bodies::link::linked;
use op_base::Memory;
use op_term::{Fuel, Symbols, Tree};
use std::alloc::Global;

/// The body that a term stands for, as nodes whose goals are places of the tree, at a step for each control construct and each other
/// part, from the left.
pub fn body_of<T: Tree>(
    alloc: Global,
    tree: &T,
    at: &T::At,
    symbols: &Symbols,
    fuel: &mut Fuel,
) -> Result<Body<T::At>, BodyFault>
    requires place { T.IsPlace tree.now at.now }
    requires names { HasNames (length symbols.now) (T.term tree.now at.now) }
    ensures body { IfOk result (λ b. (divided [] (named symbols.now (T.term tree.now at.now))).tree
        ≡ Some (body_tree (λ p. named symbols.now (T.term tree.now p)) b)) }
    ensures places { IfOk result (λ b. All (λ p. T.IsPlace tree.now p × HasNames (length symbols.now) (T.term tree.now p)) (leaves b)) }
    ensures paid { OnOk result (fuel.old ≡ fuel.new + (divided [] (named symbols.now (T.term tree.now at.now))).steps) }
    ensures not_callable { result ≡ Err BodyFault.NotCallable → (divided [] (named symbols.now (T.term tree.now at.now))).tree ≡ None }
    ensures refused { result ≡ Err BodyFault.NotCallable
        → fuel.old ≡ fuel.new + (divided [] (named symbols.now (T.term tree.now at.now))).steps }
    ensures spent { result ≡ Err BodyFault.Spent → fuel.old < (divided [] (named symbols.now (T.term tree.now at.now))).steps }
    ensures falls { fuel.new ≤ fuel.old }
{
    let terms = Unbound { tree };
    match nodes_of(alloc, &terms, at, symbols, fuel) {
        Ok(met) => Ok(linked(alloc, met)?),
        Err(fault) => Err(fault),
    }
}

// The nodes of a body in the order in which they are met, a control construct before its parts.
pub(crate) fn nodes_of<T: FollowedTerms>(
    alloc: Global,
    terms: &T,
    at: &T::At,
    symbols: &Symbols,
    fuel: &mut Fuel,
) -> Result<Vec<BodyNode<T::At>>, BodyFault>
    requires place { T.IsPlace terms.now at.now }
    requires names { HasNames (length symbols.now) (T.term terms.now at.now) }
    requires bound { HaveNames (length symbols.now) (T.under terms.now) }
    ensures body { IfOk result (λ met.
        option_map (λ b. Some (b ∷ [])) (divided_in symbols.now (T.under terms.now) (T.term terms.now at.now)).tree
        ≡ Some (read (λ p. named symbols.now (T.term terms.now p)) met.items (Some []))) }
    ensures places { IfOk result (λ met. All (λ p. T.IsPlace terms.now p × HasNames (length symbols.now) (T.term terms.now p))
        (leaves met.items)) }
    ensures paid { OnOk result (fuel.old ≡ fuel.new + (divided_in symbols.now (T.under terms.now) (T.term terms.now at.now)).steps) }
    ensures not_callable { result ≡ Err BodyFault.NotCallable
        → (divided_in symbols.now (T.under terms.now) (T.term terms.now at.now)).tree ≡ None }
    ensures refused { result ≡ Err BodyFault.NotCallable
        → fuel.old ≡ fuel.new + (divided_in symbols.now (T.under terms.now) (T.term terms.now at.now)).steps }
    ensures spent { result ≡ Err BodyFault.Spent → fuel.old < (divided_in symbols.now (T.under terms.now) (T.term terms.now at.now)).steps }
    ensures falls { fuel.new ≤ fuel.old }
{
    let mut todo = Vec::new(alloc);
    let mut met = Vec::new(alloc);
    todo.push(*at)?;
    'walk: while let Some(next) = todo.pop() {
        fuel.spend(1)?;
        if let Err(fault) = meet(terms, next, symbols, &mut todo, &mut met) {
            return Err(fault);
        }
    }
    Ok(met)
}

// A part is followed and met: a control construct leaves its own parts to be met.
fn meet<T: FollowedTerms>(
    terms: &T,
    next: T::At,
    symbols: &Symbols,
    todo: &mut Vec<T::At>,
    met: &mut Vec<BodyNode<T::At>>,
) -> Result<(), BodyFault>
    requires place { T.IsPlace terms.now next }
    requires names { HasNames (length symbols.now) (T.term terms.now next) }
    requires bound { HaveNames (length symbols.now) (T.under terms.now) }
    requires todo { All (λ p. T.IsPlace terms.now p × HasNames (length symbols.now) (T.term terms.now p)) todo.old.items }
    requires met { All (λ p. T.IsPlace terms.now p × HasNames (length symbols.now) (T.term terms.now p)) (leaves met.old.items) }
    ensures left { OnOk result
        (left_in symbols.now (T.under terms.now) (λ p. T.term terms.now p) met.old.items (todo.old.items ++ next ∷ [])
        ≡ step_before (left_in symbols.now (T.under terms.now) (λ p. T.term terms.now p) met.new.items todo.new.items)) }
    ensures refused { result ≡ Err BodyFault.NotCallable
        → left_in symbols.now (T.under terms.now) (λ p. T.term terms.now p) met.old.items (todo.old.items ++ next ∷ []) ≡ refused }
    ensures unspent { result ≢ Err BodyFault.Spent }
    ensures todo { OnOk result (All (λ p. T.IsPlace terms.now p × HasNames (length symbols.now) (T.term terms.now p)) todo.new.items) }
    ensures met { OnOk result
        (All (λ p. T.IsPlace terms.now p × HasNames (length symbols.now) (T.term terms.now p)) (leaves met.new.items)) }
{
    let at = terms.leads_to(&next);
    match part_of(terms, &at, symbols) {
        Part::Number => Err(BodyFault::NotCallable),
        Part::Goal => Ok(push_node(BodyNode::Goal(at), met)?),
        Part::Variable => Ok(push_node(BodyNode::CallOf(at), met)?),
        Part::Conjunction => Ok(push_parts(terms, at, BodyNode::And(0, 0), todo, met)?),
        Part::Disjunction => Ok(push_parts(terms, at, BodyNode::Or(0, 0), todo, met)?),
        Part::IfThen => Ok(push_parts(terms, at, BodyNode::Then(0, 0), todo, met)?),
    }
}

fn push_node<P: Copy>(node: BodyNode<P>, met: &mut Vec<BodyNode<P>>) -> Result<(), Memory>
    ensures { OnOk result (met.new.items ≡ met.old.items ++ node ∷ []) }
{
    met.push(node)?;
    Ok(())
}

// A control construct, whose first part is met next.
fn push_parts<T: FollowedTerms>(
    terms: &T,
    at: T::At,
    node: BodyNode<T::At>,
    todo: &mut Vec<T::At>,
    met: &mut Vec<BodyNode<T::At>>,
) -> Result<(), Memory>
    requires place { T.IsPlace terms.now at }
    requires two { arity (args_of (T.term terms.now at)) ≡ 2 }
    ensures met { OnOk result (met.new.items ≡ met.old.items ++ node ∷ []) }
    ensures todo { OnOk result ((a : T.At) × ((b : T.At) × ((todo.new.items ≡ todo.old.items ++ b ∷ a ∷ [])
        × (T.IsPlace terms.now a) × (T.IsPlace terms.now b)
        × (T.term terms.now a ≡ nth_arg (args_of (T.term terms.now at)) 0)
        × (T.term terms.now b ≡ nth_arg (args_of (T.term terms.now at)) 1)))) }
{
    let first = terms.part(&at, 0);
    let second = terms.part(&at, 1);
    met.push(node)?;
    todo.push(second)?;
    todo.push(first)?;
    Ok(())
}
