ghost use Rattle.std.specs.Prelude.{◌≡◌, ◌<◌, ◌≤◌, length, All, IfOk, OnOk};
ghost use Rattle.op_logic.specs.Term.{rename};
ghost use Rattle.op_logic.specs.Names.{named, HasNames};
ghost use Rattle.op_term.specs.Places.{term_at};
ghost use Rattle.op_cursor.specs.inner.OwnNames.{own_number, own_node as the_own_node, IsOwn, AreOwn, IsOwnNode, IsNamedBelow};

use op_base::Memory;
use op_bind::{copy_term, nodes_of};
use op_term::{Builder, Node, Sym, Symbols, Term, Tree, Whole};
use std::alloc::Global;

// A node's name joins the own names.
fn add_name(node: Node, symbols: &Symbols, own: &mut Symbols) -> Result<(), Memory>
    requires { IsNamedBelow (length symbols.now) node }
    ensures added { OnOk result (IsOwnNode symbols.now own.new node) }
    ensures kept { (n : Node) → IsOwnNode symbols.now own.old n → IsOwnNode symbols.now own.new n }
{
    match node {
        Node::Atom(name) => {
            own.intern(symbols.name_of(name))?;
        }
        Node::Struct(name, _) => {
            own.intern(symbols.name_of(name))?;
        }
        Node::Var(_) => {}
        Node::Int(_) => {}
    }
    Ok(())
}

// The names of these nodes, each once.
fn names_among(alloc: Global, nodes: &[Node], symbols: &Symbols) -> Result<Symbols, Memory>
    requires { All (λ n. IsNamedBelow (length symbols.now) n) nodes.now }
    ensures { IfOk result (λ own. All (λ n. IsOwnNode symbols.now own n) nodes.now) }
{
    let mut own = Symbols::new(alloc);
    let mut i = nodes.len();
    'back: while i > 0 {
        i -= 1;
        add_name(nodes[i], symbols, &mut own)?;
    }
    Ok(own)
}

fn own_name(name: Sym, symbols: &Symbols, own: &Symbols) -> Sym
    requires there { name.0 < length symbols.now }
    requires own { IsOwn symbols.now own.now name.0 }
    ensures { result.0 ≡ own_number symbols.now own.now name.0 }
{
    match own.find(symbols.name_of(name)) {
        Some(number) => number,
        None => name,
    }
}

fn own_node(node: Node, symbols: &Symbols, own: &Symbols) -> Node
    requires there { IsNamedBelow (length symbols.now) node }
    requires own { IsOwnNode symbols.now own.now node }
    ensures { result ≡ the_own_node symbols.now own.now node }
{
    match node {
        Node::Atom(name) => Node::Atom(own_name(name, symbols, own)),
        Node::Struct(name, n) => Node::Struct(own_name(name, symbols, own), n),
        Node::Var(_) => node,
        Node::Int(_) => node,
    }
}

// A term that is lent, with the own names in place of its names.
#[derive(Drop)]
struct OwnTree<'a> {
    whole: &'a Whole<'a>,
    symbols: &'a Symbols,
    own: &'a Symbols,
}

impl Tree for OwnTree<'_> {
    type At = u64;

    ghost IsPlace = { λ r at. (at < length r.whole.now.terms) × HasNames (length r.symbols.now) (term_at r.whole.now.terms at)
        × AreOwn r.symbols.now r.own.now (term_at r.whole.now.terms at) };

    ghost term = { λ r at. rename (own_number r.symbols.now r.own.now) (term_at r.whole.now.terms at) };

    fn node(&self, at: &u64) -> Node {
        own_node(self.whole.node(at), self.symbols, self.own)
    }

    fn part(&self, at: &u64, i: u64) -> u64 {
        self.whole.part(at, i)
    }
}

/// The term at the root with names of its own, and these names.
pub(crate) fn with_own_names(
    alloc: Global,
    whole: &Whole<'_>,
    symbols: &Symbols,
) -> Result<(Term, Symbols), Memory>
    requires there { whole.now.root < length whole.now.terms }
    requires names { HasNames (length symbols.now) (term_at whole.now.terms whole.now.root) }
    ensures same { IfOk result (λ p. named p.1 p.0 ≡ named symbols.now (term_at whole.now.terms whole.now.root)) }
    ensures names { IfOk result (λ p. HasNames (length p.1) p.0) }
{
    let root = whole.root();
    let nodes = nodes_of(alloc, whole, &root)?;
    let own = names_among(alloc, &nodes, symbols)?;
    let term = renamed(alloc, whole, symbols, &own)?;
    Ok((term, own))
}

fn renamed(
    alloc: Global,
    whole: &Whole<'_>,
    symbols: &Symbols,
    own: &Symbols,
) -> Result<Term, Memory>
    requires there { whole.now.root < length whole.now.terms }
    requires names { HasNames (length symbols.now) (term_at whole.now.terms whole.now.root) }
    requires own { AreOwn symbols.now own.now (term_at whole.now.terms whole.now.root) }
    ensures { IfOk result (λ t. t ≡ rename (own_number symbols.now own.now) (term_at whole.now.terms whole.now.root)) }
{
    let root = whole.root();
    let tree = OwnTree {
        whole,
        symbols,
        own,
    };
    let mut made = Builder::new(alloc);
    let at = copy_term(alloc, &tree, &root, &mut made)?;
    Ok(made.finish(at))
}
