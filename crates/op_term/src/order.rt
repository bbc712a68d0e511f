ghost use Rattle.std.specs.Prelude.{◌≡◌, ◌+◌, ◌<◌, ◌≤◌, All, Err, IfOk, OnOk, [], length};
ghost use Rattle.op_logic.specs.Term.{args_of, arity};
ghost use Rattle.op_logic.specs.Bind.{zip_args};
ghost use Rattle.op_logic.specs.Names.{name_at, named, HasNames};
ghost use Rattle.op_term.specs.Order.{name_order, standard_order, pairs_compared};
ghost use Rattle.op_term.specs.inner.Compared.{node_order as the_node_order, HasItsName, pairs_from};

use crate::fuel::Fuel;
use crate::node::{Node, Tree};
use crate::symbols::{Sym, Symbols};
use crate::walk::WalkFault;
use op_base::Memory;
use std::alloc::Global;
use std::cmp::Ordering;

fn by_name(f: Sym, g: Sym, symbols: &Symbols) -> Ordering
    requires first { f.0 < length symbols.now }
    requires second { g.0 < length symbols.now }
    ensures { result ≡ name_order (name_at symbols.now f.0) (name_at symbols.now g.0) }
{
    symbols.name_of(f).cmp(symbols.name_of(g))
}

// The order of two nodes, whatever their arguments are.
fn node_order(left: Node, right: Node, symbols: &Symbols) -> Ordering
    requires left { HasItsName (length symbols.now) left }
    requires right { HasItsName (length symbols.now) right }
    ensures { result ≡ the_node_order symbols.now left right }
{
    match (left, right) {
        (Node::Var(v), Node::Var(w)) => v.cmp(&w),
        (Node::Var(_), _) => Ordering::Less,
        (_, Node::Var(_)) => Ordering::Greater,
        (Node::Int(i), Node::Int(j)) => i.cmp(&j),
        (Node::Int(_), _) => Ordering::Less,
        (_, Node::Int(_)) => Ordering::Greater,
        (Node::Atom(f), Node::Atom(g)) => by_name(f, g, symbols),
        (Node::Atom(_), _) => Ordering::Less,
        (_, Node::Atom(_)) => Ordering::Greater,
        (Node::Struct(f, n), Node::Struct(g, m)) => n.cmp(&m).then(by_name(f, g, symbols)),
    }
}

// The pairs of two terms' arguments, the first pair on top.
fn push_pairs<T: Tree>(
    tree: &T,
    a: &T::At,
    b: &T::At,
    n: u64,
    todo: &mut Vec<(T::At, T::At)>,
) -> Result<(), Memory>
    requires a { T.IsPlace tree.now a.now }
    requires b { T.IsPlace tree.now b.now }
    requires left { n ≡ arity (args_of (T.term tree.now a.now)) }
    requires right { n ≡ arity (args_of (T.term tree.now b.now)) }
    requires todo { All (λ p. T.IsPlace tree.now p.0 × T.IsPlace tree.now p.1) todo.old.items }
    ensures todo { OnOk result (All (λ p. T.IsPlace tree.now p.0 × T.IsPlace tree.now p.1) todo.new.items) }
    ensures pairs { OnOk result (pairs_from (λ p. T.term tree.now p) todo.new.items []
        ≡ zip_args (args_of (T.term tree.now a.now)) (args_of (T.term tree.now b.now))
        (pairs_from (λ p. T.term tree.now p) todo.old.items [])) }
{
    let mut i = n;
    'down: while i > 0 {
        i -= 1;
        todo.push((tree.part(a, i), tree.part(b, i)))?;
    }
    Ok(())
}

/// Compares two terms in the standard order (ISO/IEC 13211-1, 7.2), at a step for each pair of nodes that is compared. Where fewer
/// are left, all of them are taken.
pub fn compare<T: Tree>(
    alloc: Global,
    tree: &T,
    a: &T::At,
    b: &T::At,
    symbols: &Symbols,
    fuel: &mut Fuel,
) -> Result<Ordering, WalkFault>
    requires a { T.IsPlace tree.now a.now }
    requires b { T.IsPlace tree.now b.now }
    requires a_named { HasNames (length symbols.now) (T.term tree.now a.now) }
    requires b_named { HasNames (length symbols.now) (T.term tree.now b.now) }
    ensures value { IfOk result (λ o. o
        ≡ standard_order (named symbols.now (T.term tree.now a.now)) (named symbols.now (T.term tree.now b.now))) }
    ensures paid { OnOk result (fuel.old ≡ fuel.new
        + pairs_compared (named symbols.now (T.term tree.now a.now)) (named symbols.now (T.term tree.now b.now))) }
    ensures spent { result ≡ Err WalkFault.Spent → fuel.old
        < pairs_compared (named symbols.now (T.term tree.now a.now)) (named symbols.now (T.term tree.now b.now)) }
    ensures empty { result ≡ Err WalkFault.Spent → fuel.new ≡ 0 }
    ensures falls { fuel.new ≤ fuel.old }
{
    let mut todo = Vec::new(alloc);
    todo.push((*a, *b))?;
    'pairs: while let Some(pair) = todo.pop() {
        fuel.spend(1)?;
        let node = tree.node(&pair.0);
        let order = node_order(node, tree.node(&pair.1), symbols);
        if order.is_ne() {
            return Ok(order);
        }
        push_pairs(tree, &pair.0, &pair.1, node.arity(), &mut todo)?;
    }
    Ok(Ordering::Equal)
}
