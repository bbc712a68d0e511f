ghost use Rattle.std.specs.Prelude.{◌≡◌, ◌<◌, ℕ, length, map, All, IfOk, IfSome, option_map};
ghost use Rattle.op_logic.specs.Names.{HasNames, named};
ghost use Rattle.op_store.specs.Directives.{elements, conjuncts, entries};

use crate::terms::atoms::is_atom;
use crate::terms::pair::pair_of;
use op_base::Memory;
use op_term::{Symbols, Tree};
use std::alloc::Global;

/// The places of a list's elements; None where the term at a place is no list.
pub(crate) fn elements_of<T: Tree>(
    alloc: Global,
    tree: &T,
    at: &T::At,
    symbols: &Symbols,
) -> Result<Option<Vec<T::At>>, Memory>
    requires place { T.IsPlace tree.now at.now }
    requires names { HasNames (length symbols.now) (T.term tree.now at.now) }
    ensures elements { IfOk result (λ o. option_map (λ v. map (λ p. named symbols.now (T.term tree.now p)) v.items) o
        ≡ elements (named symbols.now (T.term tree.now at.now))) }
    ensures places { IfOk result
        (λ o. IfSome o (λ v. All (λ p. T.IsPlace tree.now p × HasNames (length symbols.now) (T.term tree.now p)) v.items)) }
{
    let mut items = Vec::new(alloc);
    let mut rest = *at;
    'list: while let Some((first, tail)) = pair_of(tree, &rest, symbols, ".") {
        items.push(first)?;
        rest = tail;
    }
    if is_atom(tree, &rest, symbols, "[]") {
        Ok(Some(items))
    } else {
        Ok(None)
    }
}

/// The places of what stands between the commas of the term at a place.
pub(crate) fn conjuncts_of<T: Tree>(
    alloc: Global,
    tree: &T,
    at: &T::At,
    symbols: &Symbols,
) -> Result<Vec<T::At>, Memory>
    requires place { T.IsPlace tree.now at.now }
    requires names { HasNames (length symbols.now) (T.term tree.now at.now) }
    ensures conjuncts { IfOk result (λ v. map (λ p. named symbols.now (T.term tree.now p)) v.items
        ≡ conjuncts (named symbols.now (T.term tree.now at.now))) }
    ensures places { IfOk result (λ v. All (λ p. T.IsPlace tree.now p × HasNames (length symbols.now) (T.term tree.now p)) v.items) }
{
    let mut parts = Vec::new(alloc);
    let mut todo = Vec::new(alloc);
    todo.push(*at)?;
    'parts: while let Some(next) = todo.pop() {
        match pair_of(tree, &next, symbols, ",") {
            Some(pair) => {
                todo.push(pair.1)?;
                todo.push(pair.0)?;
            }
            None => parts.push(next)?,
        }
    }
    Ok(parts)
}

/// The places of the entries of a directive on procedures.
pub(crate) fn entries_of<T: Tree>(
    alloc: Global,
    tree: &T,
    at: &T::At,
    symbols: &Symbols,
) -> Result<Vec<T::At>, Memory>
    requires place { T.IsPlace tree.now at.now }
    requires names { HasNames (length symbols.now) (T.term tree.now at.now) }
    ensures entries { IfOk result (λ v. map (λ p. named symbols.now (T.term tree.now p)) v.items
        ≡ entries (named symbols.now (T.term tree.now at.now))) }
    ensures places { IfOk result (λ v. All (λ p. T.IsPlace tree.now p × HasNames (length symbols.now) (T.term tree.now p)) v.items) }
{
    match elements_of(alloc, tree, at, symbols)? {
        Some(items) => Ok(items),
        None => conjuncts_of(alloc, tree, at, symbols),
    }
}
