ghost use Rattle.std.specs.Prelude.{◌≡◌, ◌<◌, length, slice_index_or};
ghost use Rattle.op_store.specs.Nodes.{IsBody, IsLinked};

use crate::bodies::body_node::BodyNode;
use std::marker::Model;

/// A body as a list of nodes, the first of them the whole. A clause sees the list; `body_tree` says which body the nodes make up.
#[derive(Drop)]
pub struct Body<P> {
    nodes: Vec<BodyNode<P>>,
}

impl<P> Model for Body<P> {
    ghost use Rattle.std.specs.Prelude.{List};
    ghost use Rattle.op_store.specs.declared.bodies.body_node.BodyNode.{BodyNode};

    ghost Value = { List (BodyNode P) };

    ghost use Rattle.op_store.specs.Nodes.{IsBody};

    ghost view = { λ b. b.nodes.items };

    ghost invariant = { λ b. IsBody b.nodes.items };
}

impl<P: Copy> Body<P> {
    /// The body of these nodes.
    pub(crate) fn of(nodes: Vec<BodyNode<P>>) -> Body<P>
        requires { IsBody nodes.items }
        ensures { result ≡ nodes.items }
    {
        Body { nodes }
    }

    /// How many nodes it has.
    pub fn len(&self) -> u64
        ensures len { result ≡ length self.now }
        ensures body { IsBody self.now }
    {
        self.nodes.len() as u64
    }

    /// The node with a number, counted from 0.
    pub fn node(&self, i: u64) -> BodyNode<P>
        requires { i < length self.now }
        ensures node { slice_index_or self.now i result ≡ result }
        ensures linked { IsLinked i (length self.now) result }
    {
        self.nodes[i as usize]
    }
}
