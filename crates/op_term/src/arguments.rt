ghost use Rattle.std.specs.Prelude.{◌≡◌, ◌++◌, map, All, OnOk};
ghost use Rattle.op_logic.specs.Term.{args_of, arity};
ghost use Rattle.op_term.specs.Arguments.{args_list, argument_count};

use crate::node::{Node, Tree};
use op_base::Memory;

impl Node {
    /// How many arguments a node has.
    pub fn arity(self) -> u64
        ensures { result ≡ argument_count self }
    {
        match self {
            Node::Struct(_, n) => n,
            _ => 0,
        }
    }
}

/// Pushes the places of a term's arguments on a stack, the last argument on top.
pub fn push_args<T: Tree>(tree: &T, at: &T::At, n: u64, todo: &mut Vec<T::At>) -> Result<(), Memory>
    requires place { T.IsPlace tree.now at.now }
    requires count { n ≡ arity (args_of (T.term tree.now at.now)) }
    requires todo { All (λ p. T.IsPlace tree.now p) todo.old.items }
    ensures todo { OnOk result (All (λ p. T.IsPlace tree.now p) todo.new.items) }
    ensures terms { OnOk result (map (λ p. T.term tree.now p) todo.new.items
        ≡ map (λ p. T.term tree.now p) todo.old.items ++ args_list (args_of (T.term tree.now at.now))) }
{
    'push: for i in 0..n {
        todo.push(tree.part(at, i))?;
    }
    Ok(())
}
