ghost use Rattle.std.specs.Prelude.{◌≡◌, ◌<◌, ℕ};
ghost use Rattle.op_logic.specs.Term.{Term as SpecTerm, args_of, nth_arg, arity};
ghost use Rattle.op_term.specs.Head.{head};

use crate::symbols::Sym;

/// The outermost node of a term: a variable, an integer, an atom, or a compound with its name and its number of arguments.
#[derive(Clone, Copy, Debug, PartialEq, Eq)]
pub enum Node {
    Var(u64),
    Int(i64),
    Atom(Sym),
    Struct(Sym, u64),
}

/// Terms that are read node by node, each at a place. Neither call takes memory.
pub trait Tree {
    /// A place. It is used only with the tree that gave it.
    type At: Copy;

    ghost IsPlace: { Self → Self.At → Type 0 };

    ghost term: { Self → Self.At → SpecTerm ℕ };

    /// The outermost node of the term at a place.
    fn node(&self, at: &Self::At) -> Node
        requires { IsPlace self.now at.now }
        ensures { result ≡ head (term self.now at.now) };

    /// The place of an argument of the term at a place, counted from 0.
    fn part(&self, at: &Self::At, i: u64) -> Self::At
        requires place { IsPlace self.now at.now }
        requires there { i < arity (args_of (term self.now at.now)) }
        ensures place { IsPlace self.now result }
        ensures value { term self.now result ≡ nth_arg (args_of (term self.now at.now)) i };
}
