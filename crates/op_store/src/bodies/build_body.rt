ghost use Rattle.std.specs.Prelude.{◌≡◌, ◌<◌, ◌≤◌, ◌++◌, ◌∷◌, [], ℕ, List, length, reverse, map, All, IfOk, OnOk, Some, option_map};
ghost use Rattle.op_logic.specs.Names.{name_at, named};
ghost use Rattle.op_term.specs.inner.Cells.{AllBelow};
ghost use Rattle.op_trace.specs.Body.{Body, term_of};
ghost use Rattle.op_store.specs.Nodes.{leaves};
ghost use Rattle.op_store.specs.inner.Walk.{needs, took, read};
ghost use Rattle.op_store.specs.inner.Converted.{AreControlNames, texts_at, paired, called};

use crate::bodies::body_node::BodyNode;
use crate::bodies::link::pop_two;
use crate::names::control_names::ControlNames;
use op_base::Memory;
use op_bind::copy_term;
use op_term::{Builder, Sym, Term, Tree};
use std::alloc::Global;

// The two terms that stand last are joined under a name.
fn push_pair(name: Sym, made: &mut Builder, stack: &mut Vec<u64>) -> Result<(), Memory>
    requires two { 2 ≤ length stack.old.items }
    requires there { AllBelow (length made.old) (reverse stack.old.items) }
    ensures there { OnOk result (AllBelow (length made.new) (reverse stack.new.items)) }
    ensures paired { OnOk result ((names : List (List ℕ)) → texts_at names made.new (reverse stack.new.items)
        ≡ paired (name_at names name.0) (texts_at names made.old (reverse stack.old.items))) }
{
    let (first, second) = pop_two(stack);
    let root = made.compound(name, &[first, second])?;
    stack.push(root)?;
    Ok(())
}

// A goal's term is made again.
fn push_goal<T: Tree>(
    alloc: Global,
    tree: &T,
    at: &T::At,
    made: &mut Builder,
    stack: &mut Vec<u64>,
) -> Result<(), Memory>
    requires place { T.IsPlace tree.now at.now }
    requires there { AllBelow (length made.old) (reverse stack.old.items) }
    ensures there { OnOk result (AllBelow (length made.new) (reverse stack.new.items)) }
    ensures goal { OnOk result ((names : List (List ℕ)) → texts_at names made.new (reverse stack.new.items)
        ≡ named names (T.term tree.now at.now) ∷ texts_at names made.old (reverse stack.old.items)) }
{
    let root = copy_term(alloc, tree, at, made)?;
    stack.push(root)?;
    Ok(())
}

// The term that stands last becomes the argument of a name.
fn push_call(name: Sym, made: &mut Builder, stack: &mut Vec<u64>) -> Result<(), Memory>
    requires one { 1 ≤ length stack.old.items }
    requires there { AllBelow (length made.old) (reverse stack.old.items) }
    ensures there { OnOk result (AllBelow (length made.new) (reverse stack.new.items)) }
    ensures called { OnOk result ((names : List (List ℕ)) → texts_at names made.new (reverse stack.new.items)
        ≡ called (name_at names name.0) (texts_at names made.old (reverse stack.old.items))) }
{
    let argument = stack.pop().unwrap();
    let root = made.compound(name, &[argument])?;
    stack.push(root)?;
    Ok(())
}

// A node of a body is made, with the parts that stand last.
fn push_part<T: Tree>(
    alloc: Global,
    tree: &T,
    node: BodyNode<T::At>,
    known: ControlNames,
    made: &mut Builder,
    stack: &mut Vec<u64>,
) -> Result<(), Memory>
    requires places { All (λ p. T.IsPlace tree.now p) (leaves (node ∷ [])) }
    requires parts { needs node ≤ length stack.old.items }
    requires there { AllBelow (length made.old) (reverse stack.old.items) }
    ensures there { OnOk result (AllBelow (length made.new) (reverse stack.new.items)) }
    ensures took { OnOk result ((names : List (List ℕ)) (bodies : List Body) → AreControlNames names known
        → map term_of bodies ≡ texts_at names made.old (reverse stack.old.items)
        → option_map (λ bs. map term_of bs) (took (λ p. named names (T.term tree.now p)) node bodies)
        ≡ Some (texts_at names made.new (reverse stack.new.items))) }
{
    match node {
        BodyNode::Goal(at) => push_goal(alloc, tree, &at, made, stack),
        BodyNode::CallOf(at) => {
            push_goal(alloc, tree, &at, made, stack)?;
            push_call(known.call, made, stack)
        }
        BodyNode::And(_, _) => push_pair(known.comma, made, stack),
        BodyNode::Or(_, _) => push_pair(known.semicolon, made, stack),
        BodyNode::Then(_, _) => push_pair(known.arrow, made, stack),
    }
}

/// The term of a body whose nodes were met, each control construct before its parts.
pub(crate) fn build_body<T: Tree>(
    alloc: Global,
    tree: &T,
    known: ControlNames,
    mut met: Vec<BodyNode<T::At>>,
) -> Result<Term, Memory>
    requires places { All (λ p. T.IsPlace tree.now p) (leaves met.items) }
    requires body { (names : List (List ℕ)) × ((b : Body) × (AreControlNames names known
        × (read (λ p. named names (T.term tree.now p)) met.items (Some []) ≡ Some (b ∷ [])))) }
    ensures { IfOk result (λ t. (names : List (List ℕ)) (b : Body) → AreControlNames names known
        → read (λ p. named names (T.term tree.now p)) met.items (Some []) ≡ Some (b ∷ []) → named names t ≡ term_of b) }
{
    let mut made = Builder::new(alloc);
    let mut stack = Vec::new(alloc);
    'back: while let Some(node) = met.pop() {
        push_part(alloc, tree, node, known, &mut made, &mut stack)?;
    }
    let root = stack[0];
    Ok(made.finish(root))
}
