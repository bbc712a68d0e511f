ghost use Rattle.std.specs.Prelude.{◌≡◌, ◌<◌, ◌≤◌, ◌+◌, ◌∷◌, [], ℕ, List, length, take, reverse, map, All, IfOk, OnOk, Err, Some, None};
ghost use Rattle.std.specs.Prelude.{option_map};
ghost use Rattle.op_logic.specs.Names.{name_at, named, HasNames, HaveNames};
ghost use Rattle.op_term.specs.Places.{term_at};
ghost use Rattle.op_term.specs.inner.Cells.{AllBelow};
ghost use Rattle.op_bind.specs.State.{bindings as bindings_of};
ghost use Rattle.op_bind.specs.Grown.{Grows};
ghost use Rattle.op_trace.specs.Body.{Body, term_of};
ghost use Rattle.op_store.specs.Stored.{first_names};
ghost use Rattle.op_store.specs.Divided.{divided_in};
ghost use Rattle.op_store.specs.Nodes.{leaves};
ghost use Rattle.op_store.specs.inner.Walk.{needs, took, read};
ghost use Rattle.op_store.specs.inner.Converted.{AreControlNames, AreNamed, texts_at, paired, called};

use crate::bodies::body_fault::BodyFault;
use crate::bodies::body_node::BodyNode;
use crate::bodies::convert::nodes_of;
use crate::bodies::link::pop_two;
use crate::names::control_names::{ControlNames, first_control_names};
use op_base::Memory;
use op_bind::{Bindings, Ref};
use op_term::{Fuel, Sym, Symbols};
use std::alloc::Global;

// The two terms that stand last are joined under a name.
fn push_pair(name: Sym, made: &mut Bindings, stack: &mut Vec<Ref>) -> Result<(), Memory>
    requires two { 2 ≤ length stack.old.items }
    requires there { AllBelow (length made.old.terms) (reverse stack.old.items) }
    ensures there { OnOk result (AllBelow (length made.new.terms) (reverse stack.new.items)) }
    ensures paired { OnOk result ((names : List (List ℕ)) → texts_at names made.new.terms (reverse stack.new.items)
        ≡ paired (name_at names name.0) (texts_at names made.old.terms (reverse stack.old.items))) }
    ensures named { OnOk result ((n : ℕ) → name.0 < n → AreNamed n made.old.terms (reverse stack.old.items)
        → AreNamed n made.new.terms (reverse stack.new.items)) }
    ensures bound { made.new.bound ≡ made.old.bound }
    ensures bindings { bindings_of made.new ≡ bindings_of made.old }
    ensures count { made.new.count ≡ made.old.count }
    ensures grows { Grows made.old made.new }
{
    let (first, second) = pop_two(stack);
    let root = made.compound(name, &[first, second])?;
    stack.push(root)?;
    Ok(())
}

// The term at a place becomes the argument of a name.
fn push_call(name: Sym, at: Ref, made: &mut Bindings, stack: &mut Vec<Ref>) -> Result<(), Memory>
    requires place { at < length made.old.terms }
    requires there { AllBelow (length made.old.terms) (reverse stack.old.items) }
    ensures there { OnOk result (AllBelow (length made.new.terms) (reverse stack.new.items)) }
    ensures called { OnOk result ((names : List (List ℕ)) → texts_at names made.new.terms (reverse stack.new.items)
        ≡ called (name_at names name.0) (texts_at names made.old.terms (at ∷ reverse stack.old.items))) }
    ensures named { OnOk result ((n : ℕ) → name.0 < n → AreNamed n made.old.terms (at ∷ reverse stack.old.items)
        → AreNamed n made.new.terms (reverse stack.new.items)) }
    ensures bound { made.new.bound ≡ made.old.bound }
    ensures bindings { bindings_of made.new ≡ bindings_of made.old }
    ensures count { made.new.count ≡ made.old.count }
    ensures grows { Grows made.old made.new }
{
    let root = made.compound(name, &[at])?;
    stack.push(root)?;
    Ok(())
}

fn push_goal(at: Ref, stack: &mut Vec<Ref>) -> Result<(), Memory>
    ensures { OnOk result (reverse stack.new.items ≡ at ∷ reverse stack.old.items) }
{
    stack.push(at)?;
    Ok(())
}

// A node of a body is made, with the parts that stand last.
fn push_part(
    part: BodyNode<Ref>,
    known: ControlNames,
    made: &mut Bindings,
    stack: &mut Vec<Ref>,
) -> Result<(), Memory>
    requires places { All (λ p. p < length made.old.terms) (leaves (part ∷ [])) }
    requires parts { needs part ≤ length stack.old.items }
    requires there { AllBelow (length made.old.terms) (reverse stack.old.items) }
    ensures there { OnOk result (AllBelow (length made.new.terms) (reverse stack.new.items)) }
    ensures took { OnOk result ((names : List (List ℕ)) (bodies : List Body) → AreControlNames names known
        → map term_of bodies ≡ texts_at names made.old.terms (reverse stack.old.items)
        → option_map (λ bs. map term_of bs) (took (λ p. named names (term_at made.old.terms p)) part bodies)
        ≡ Some (texts_at names made.new.terms (reverse stack.new.items))) }
    ensures named { OnOk result ((names : List (List ℕ)) → AreControlNames names known
        → All (λ p. HasNames (length names) (term_at made.old.terms p)) (leaves (part ∷ []))
        → AreNamed (length names) made.old.terms (reverse stack.old.items)
        → AreNamed (length names) made.new.terms (reverse stack.new.items)) }
    ensures bound { made.new.bound ≡ made.old.bound }
    ensures bindings { bindings_of made.new ≡ bindings_of made.old }
    ensures count { made.new.count ≡ made.old.count }
    ensures grows { Grows made.old made.new }
{
    match part {
        BodyNode::Goal(at) => push_goal(at, stack),
        BodyNode::CallOf(at) => push_call(known.call, at, made, stack),
        BodyNode::And(_, _) => push_pair(known.comma, made, stack),
        BodyNode::Or(_, _) => push_pair(known.semicolon, made, stack),
        BodyNode::Then(_, _) => push_pair(known.arrow, made, stack),
    }
}

// The term of a body whose nodes were met, each control construct before its parts.
fn build_in(
    alloc: Global,
    known: ControlNames,
    made: &mut Bindings,
    mut met: Vec<BodyNode<Ref>>,
) -> Result<Ref, Memory>
    requires places { All (λ p. p < length made.old.terms) (leaves met.items) }
    requires body { (names : List (List ℕ)) × ((b : Body) × (AreControlNames names known
        × (read (λ p. named names (term_at made.old.terms p)) met.items (Some []) ≡ Some (b ∷ [])))) }
    ensures there { IfOk result (λ r. r < length made.new.terms) }
    ensures term { IfOk result (λ r. (names : List (List ℕ)) (b : Body) → AreControlNames names known
        → read (λ p. named names (term_at made.old.terms p)) met.items (Some []) ≡ Some (b ∷ [])
        → named names (term_at made.new.terms r) ≡ term_of b) }
    ensures has { IfOk result (λ r. (names : List (List ℕ)) → AreControlNames names known
        → All (λ p. HasNames (length names) (term_at made.old.terms p)) (leaves met.items)
        → HasNames (length names) (term_at made.new.terms r)) }
    ensures bound { made.new.bound ≡ made.old.bound }
    ensures bindings { bindings_of made.new ≡ bindings_of made.old }
    ensures count { made.new.count ≡ made.old.count }
    ensures grows { Grows made.old made.new }
{
    let mut stack = Vec::new(alloc);
    'back: while let Some(part) = met.pop() {
        push_part(part, known, made, &mut stack)?;
    }
    let root = stack[0];
    Ok(root)
}

/// The body that the term of a Ref stands for under the bindings, as a term in them, at a step for each control construct and each other
/// part, from the left. Each part is followed, and what is below it stays as it is. The names are those of a store.
pub fn body_in(
    alloc: Global,
    bindings: &mut Bindings,
    at: &Ref,
    symbols: &Symbols,
    fuel: &mut Fuel,
) -> Result<Ref, BodyFault>
    requires place { at.now < length bindings.old.terms }
    requires names { HasNames (length symbols.now) (term_at bindings.old.terms at.now) }
    requires bound { HaveNames (length symbols.now) (bindings_of bindings.old) }
    requires begins { take (length first_names) symbols.now ≡ first_names }
    ensures there { IfOk result (λ r. r < length bindings.new.terms) }
    ensures has { IfOk result (λ r. HasNames (length symbols.now) (term_at bindings.new.terms r)) }
    ensures body { IfOk result (λ r.
        option_map term_of (divided_in symbols.now (bindings_of bindings.old) (term_at bindings.old.terms at.now)).tree
        ≡ Some (named symbols.now (term_at bindings.new.terms r))) }
    ensures paid { OnOk result
        (fuel.old ≡ fuel.new + (divided_in symbols.now (bindings_of bindings.old) (term_at bindings.old.terms at.now)).steps) }
    ensures not_callable { result ≡ Err BodyFault.NotCallable
        → (divided_in symbols.now (bindings_of bindings.old) (term_at bindings.old.terms at.now)).tree ≡ None }
    ensures refused { result ≡ Err BodyFault.NotCallable
        → fuel.old ≡ fuel.new + (divided_in symbols.now (bindings_of bindings.old) (term_at bindings.old.terms at.now)).steps }
    ensures spent { result ≡ Err BodyFault.Spent
        → fuel.old < (divided_in symbols.now (bindings_of bindings.old) (term_at bindings.old.terms at.now)).steps }
    ensures falls { fuel.new ≤ fuel.old }
    ensures bound { bindings.new.bound ≡ bindings.old.bound }
    ensures bindings { bindings_of bindings.new ≡ bindings_of bindings.old }
    ensures count { bindings.new.count ≡ bindings.old.count }
    ensures grows { Grows bindings.old bindings.new }
{
    match nodes_of(alloc, &*bindings, at, symbols, fuel) {
        Ok(met) => Ok(build_in(alloc, first_control_names(), bindings, met)?),
        Err(fault) => Err(fault),
    }
}
