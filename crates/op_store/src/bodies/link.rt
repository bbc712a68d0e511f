ghost use Rattle.std.specs.Prelude.{◌≡◌, ◌≤◌, ◌∷◌, [], ℕ, List, reverse, length, IfOk, Some};
ghost use Rattle.op_logic.specs.Term.{Term as SpecTerm};
ghost use Rattle.op_trace.specs.Body.{Body as BodyTree};
ghost use Rattle.op_store.specs.Nodes.{body_tree, leaves};
ghost use Rattle.op_store.specs.inner.Walk.{needs, linked_node, unlinked, read};

use crate::bodies::body::Body;
use crate::bodies::body_node::BodyNode;
use op_base::Memory;
use std::alloc::Global;

/// What stands last, and what stands before it.
pub(crate) fn pop_two<P: Copy>(stack: &mut Vec<P>) -> (P, P)
    requires { 2 ≤ length stack.old.items }
    ensures { reverse stack.old.items ≡ result.0 ∷ result.1 ∷ reverse stack.new.items }
{
    let first = stack.pop().unwrap();
    let second = stack.pop().unwrap();
    (first, second)
}

// A node takes the numbers of its parts, which stand last.
fn link<P: Copy>(node: BodyNode<P>, stack: &mut Vec<u64>) -> BodyNode<P>
    requires { needs node ≤ length stack.old.items }
    ensures node { result ≡ linked_node node (reverse stack.old.items) }
    ensures stack { reverse stack.new.items ≡ unlinked node (reverse stack.old.items) }
{
    match node {
        BodyNode::Goal(_) | BodyNode::CallOf(_) => node,
        BodyNode::And(_, _) => {
            let (a, b) = pop_two(stack);
            BodyNode::And(a, b)
        }
        BodyNode::Or(_, _) => {
            let (a, b) = pop_two(stack);
            BodyNode::Or(a, b)
        }
        BodyNode::Then(_, _) => {
            let (a, b) = pop_two(stack);
            BodyNode::Then(a, b)
        }
    }
}

/// The body of nodes that were met, each control construct before its parts: the nodes get the numbers of their parts.
pub(crate) fn linked<P: Copy>(alloc: Global, mut met: Vec<BodyNode<P>>) -> Result<Body<P>, Memory>
    requires { (text : P → SpecTerm (List ℕ)) × ((b : BodyTree) × (read text met.items (Some []) ≡ Some (b ∷ []))) }
    ensures tree { IfOk result (λ b. (text : P → SpecTerm (List ℕ)) → read text met.items (Some []) ≡ Some (body_tree text b ∷ [])) }
    ensures leaves { IfOk result (λ b. leaves b ≡ leaves met.items) }
{
    let mut stack = Vec::new(alloc);
    let mut nodes = Vec::new(alloc);
    'back: while let Some(node) = met.pop() {
        nodes.push(link(node, &mut stack))?;
        stack.push(met.len() as u64)?;
    }
    nodes.reverse();
    Ok(Body::of(nodes))
}
