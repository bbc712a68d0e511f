ghost use Rattle.std.specs.Prelude.{◌≡◌, ◌<◌, ◌≤◌, ◌+◌, ◌++◌, ◌∷◌, [], ℕ, length, take, All, OnOk, OnErr, IfOk, slice_index_or};
ghost use Rattle.op_logic.specs.Term.{var, int, node, atom, args_of, nth_arg, arity};
ghost use Rattle.op_term.specs.Places.{term_at, args_at};
ghost use Rattle.op_term.specs.Head.{head};
ghost use Rattle.op_term.specs.Integers.{HasSmallIntegers};
ghost use Rattle.op_term.specs.inner.Cells.{stretch, count_of, shaped, IsSmallShape};

use crate::node::Node;
use crate::symbols::Sym;
use crate::term::Term;
use op_base::Memory;
use std::alloc::Global;
use std::marker::Model;

#[derive(Clone, Copy)]
enum Shape {
    Var(u64),
    Int(i64),
    // with the number of its parts
    Named(Sym, usize),
}

// Its parts stand in the list of parts, from there on.
#[derive(Clone, Copy)]
struct Cell {
    from: usize,
    shape: Shape,
}

/// Terms that are built from their parts upwards. A clause sees the terms that were made, each at its number.
/// A number may be used more than once, and its term then takes one node.
#[derive(Drop)]
pub struct Builder {
    cells: Vec<Cell>,
    parts: Vec<u64>,
}

impl Model for Builder {
    ghost use Rattle.std.specs.Prelude.{List, ℕ};
    ghost use Rattle.op_logic.specs.Term.{Term as SpecTerm};
    ghost use Rattle.op_logic.specs.inner.Code.{terms_code};

    ghost Value = { List (SpecTerm ℕ) };

    ghost coded = { terms_code };

    ghost use Rattle.op_term.specs.inner.Cells.{terms_of, Laid, HaveSmallShapes};

    ghost view = { λ b. terms_of b.parts.items b.cells.items };

    ghost invariant = { λ b. Laid 0 0 b.parts.items b.cells.items × HaveSmallShapes b.cells.items };
}

fn stretch_of(parts: &[u64], from: usize, n: usize) -> &[u64]
    requires { from + n ≤ length parts.now }
    ensures { result.now ≡ stretch parts.now from n }
{
    &parts[from..from + n]
}

fn number_at(parts: &[u64], i: usize) -> u64
    requires { i < length parts.now }
    ensures { result ≡ slice_index_or parts.now i 0 }
{
    parts[i]
}

impl Builder {
    /// No terms.
    pub fn new(alloc: Global) -> Builder
        ensures { result ≡ [] }
    {
        Builder {
            cells: Vec::new(alloc),
            parts: Vec::new(alloc),
        }
    }

    /// How many nodes were made.
    pub fn len(&self) -> u64
        ensures { result ≡ length self.now }
    {
        self.cells.len() as u64
    }

    /// Makes a variable, and gives its node's number.
    pub fn var(&mut self, n: u64) -> Result<u64, Memory>
        ensures number { IfOk result (λ r. r ≡ length self.old) }
        ensures ok { OnOk result (self.new ≡ self.old ++ var n ∷ []) }
        ensures err { OnErr result (self.new ≡ self.old) }
    {
        self.push(Shape::Var(n), &[])
    }

    /// Makes an integer, and gives its node's number.
    pub fn int(&mut self, i: i64) -> Result<u64, Memory>
        ensures number { IfOk result (λ r. r ≡ length self.old) }
        ensures ok { OnOk result (self.new ≡ self.old ++ int i ∷ []) }
        ensures err { OnErr result (self.new ≡ self.old) }
    {
        self.push(Shape::Int(i), &[])
    }

    /// Makes an atom, and gives its node's number.
    pub fn atom(&mut self, name: Sym) -> Result<u64, Memory>
        ensures number { IfOk result (λ r. r ≡ length self.old) }
        ensures ok { OnOk result (self.new ≡ self.old ++ atom name.0 ∷ []) }
        ensures err { OnErr result (self.new ≡ self.old) }
    {
        self.push(Shape::Named(name, 0), &[])
    }

    /// Makes a compound of these nodes, and gives its node's number.
    pub fn compound(&mut self, name: Sym, parts: &[u64]) -> Result<u64, Memory>
        requires given { All (λ p. p < length self.old) parts.now }
        requires some { 0 < length parts.now }
        ensures number { IfOk result (λ r. r ≡ length self.old) }
        ensures ok { OnOk result (self.new ≡ self.old ++ node name.0 (args_at self.old parts.now) ∷ []) }
        ensures err { OnErr result (self.new ≡ self.old) }
    {
        self.push(Shape::Named(name, parts.len()), parts)
    }

    // The parts join first. Where the cell is refused they are cut again.
    fn push(&mut self, shape: Shape, parts: &[u64]) -> Result<u64, Memory>
        requires given { All (λ p. p < length self.old) parts.now }
        requires counted { count_of shape ≡ length parts.now }
        requires small { IsSmallShape shape }
        ensures number { IfOk result (λ r. r ≡ length self.old) }
        ensures ok { OnOk result (self.new ≡ self.old ++ shaped self.old parts.now shape ∷ []) }
        ensures err { OnErr result (self.new ≡ self.old) }
    {
        let at = self.cells.len();
        let from = self.parts.len();
        self.parts.extend_from_slice(parts)?;
        match self.cells.push(Cell { from, shape }) {
            Ok(()) => Ok(at as u64),
            Err(refused) => {
                self.parts.truncate(from);
                Err(Memory::from(refused))
            }
        }
    }

    /// The outermost node of a node's term.
    pub fn node(&self, at: u64) -> Node
        requires { at < length self.now }
        ensures { result ≡ head (term_at self.now at) }
    {
        match self.cells[at as usize].shape {
            Shape::Var(n) => Node::Var(n),
            Shape::Int(i) => Node::Int(i),
            Shape::Named(name, n) => {
                if n == 0 {
                    Node::Atom(name)
                } else {
                    Node::Struct(name, n as u64)
                }
            }
        }
    }

    /// The number of an argument's node, counted from 0.
    pub fn part(&self, at: u64, i: u64) -> u64
        requires given { at < length self.now }
        requires there { i < arity (args_of (term_at self.now at)) }
        ensures below { result < at }
        ensures value { term_at self.now result ≡ nth_arg (args_of (term_at self.now at)) i }
    {
        number_at(self.parts(at), i as usize)
    }

    /// The numbers of the arguments' nodes.
    pub fn parts(&self, at: u64) -> &[u64]
        requires { at < length self.now }
        ensures below { All (λ p. p < at) result.now }
        ensures value { args_at self.now result.now ≡ args_of (term_at self.now at) }
    {
        let cell = self.cells[at as usize];
        match cell.shape {
            Shape::Named(_, n) => stretch_of(&self.parts, cell.from, n),
            _ => &[],
        }
    }

    /// A law for proofs: each integer has 64 bits.
    pub(crate) fn integers_law(&self)
        ensures { (i : ℕ) → HasSmallIntegers (term_at self.now i) }
    {
        let _ = &self.cells;
    }

    /// Drops the nodes from a number on.
    pub fn cut(&mut self, n: u64)
        requires { n ≤ length self.old }
        ensures { self.new ≡ take n self.old }
    {
        let n = n as usize;
        if n < self.cells.len() {
            let from = self.cells[n].from;
            self.parts.truncate(from);
            self.cells.truncate(n);
        }
    }

    /// The term of a node. It takes no memory.
    pub fn finish(self, root: u64) -> Term
        requires { root < length self }
        ensures { result ≡ term_at self root }
    {
        Term::of(self, root)
    }

    /// Equal terms under equal numbers.
    pub(crate) fn copy(&self) -> Result<Builder, Memory>
        ensures { IfOk result (λ b. b ≡ self.now) }
    {
        Ok(Builder {
            cells: self.cells.clone()?,
            parts: self.parts.clone()?,
        })
    }
}
