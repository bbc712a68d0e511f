ghost use Rattle.std.specs.Prelude.{◌≡◌, ◌<◌, ℕ, List, [], ◌∷◌, All, length, take, map, reverse, Some, None, option_map, option_and_then};
ghost use Rattle.std.specs.Prelude.{unwrap_or, IfOk, IfSome, OnOk};
ghost use Rattle.op_logic.specs.Term.{node, atom, arg};
ghost use Rattle.op_logic.specs.Names.{name_at};
ghost use Rattle.op_reader.specs.Words.{list_of};
ghost use Rattle.op_reader.specs.Row.{tree};
ghost use Rattle.op_reader.specs.Terms.{args_of, compound_of as the_compound_of, bracketed_of as the_bracketed_of};
ghost use Rattle.op_reader.specs.inner.RoleLists.{View, node_in};
ghost use Rattle.op_reader.specs.inner.ReadRows.{Extends, nodes_in, rows_in, known_in, RowsBelow};

use crate::bracket::Bracket;
use crate::list_node::list_node;
use crate::read_rows::{ListNames, ReadRows, tree_node};
use op_base::Memory;
use op_term::{Builder, Sym};
use std::alloc::Global;

// The node of a compound with this first argument and those behind it, the last one first.
fn compound_node(nodes: &mut Builder, name: Sym, first: u64, rest: Vec<u64>) -> Result<u64, Memory>
    requires first { first < length nodes.old }
    requires rest { All (λ n. n < length nodes.old) rest.items }
    ensures term { IfOk result (λ n. (v : View) → Extends v nodes.new
        → node_in v n ≡ node (name_at v.names name.0) (arg (node_in v first) (args_of (nodes_in v rest.items)))) }
    ensures there { IfOk result (λ n. n < length nodes.new) }
    ensures kept { take (length nodes.old) nodes.new ≡ nodes.old }
{
    let mut parts = rest;
    parts.push(first)?;
    parts.reverse();
    let made = nodes.compound(name, &parts)?;
    Ok(made)
}

// The node of a list with this first element and those behind it, the last one first, and a tail.
fn whole_list(
    nodes: &mut Builder,
    names: ListNames,
    first: u64,
    rest: Vec<u64>,
    tail: Option<u64>,
) -> Result<u64, Memory>
    requires first { first < length nodes.old }
    requires rest { All (λ n. n < length nodes.old) rest.items }
    requires tail { IfSome tail (λ n. n < length nodes.old) }
    ensures term { IfOk result (λ n. (v : View) → Extends v nodes.new →
        node_in v n ≡ list_of (name_at v.names names.dot.0)
        (unwrap_or (option_map (node_in v) tail) (atom (name_at v.names names.nil.0)))
        (node_in v first ∷ nodes_in v rest.items)) }
    ensures there { IfOk result (λ n. n < length nodes.new) }
    ensures kept { take (length nodes.old) nodes.new ≡ nodes.old }
{
    let mut elements = rest;
    elements.push(first)?;
    elements.reverse();
    let end = end_node(nodes, names, tail)?;
    let list = list_node(nodes, names.dot, end, &elements)?;
    Ok(list)
}

fn end_node(nodes: &mut Builder, names: ListNames, tail: Option<u64>) -> Result<u64, Memory>
    requires tail { IfSome tail (λ n. n < length nodes.old) }
    ensures term { IfOk result (λ n. (v : View) → Extends v nodes.new
        → node_in v n ≡ unwrap_or (option_map (node_in v) tail) (atom (name_at v.names names.nil.0))) }
    ensures there { IfOk result (λ n. n < length nodes.new) }
    ensures kept { take (length nodes.old) nodes.new ≡ nodes.old }
{
    match tail {
        Some(node) => Ok(node),
        None => {
            let nil = nodes.atom(names.nil)?;
            Ok(nil)
        }
    }
}

/// The node of a compound whose arguments are these rows; none where one of them has failed.
pub(crate) fn compound_of(
    alloc: Global,
    nodes: &mut Builder,
    name: Sym,
    rows: ReadRows,
) -> Result<Option<u64>, Memory>
    requires { RowsBelow (length nodes.old) rows }
    ensures term { IfOk result (λ found. (v : View) → Extends v nodes.new
        → option_and_then (the_compound_of (name_at v.names name.0)) (rows_in v rows) ≡ option_map (node_in v) found) }
    ensures there { IfOk result (λ found. IfSome found (λ n. n < length nodes.new)) }
    ensures kept { take (length nodes.old) nodes.new ≡ nodes.old }
{
    let ReadRows {
        row,
        rest,
        tail: _,
        failed,
    } = rows;
    if failed {
        return Ok(None);
    }
    match tree_node(alloc, nodes, row, 999)? {
        Some(first) => {
            let made = compound_node(nodes, name, first, rest)?;
            Ok(Some(made))
        }
        None => Ok(None),
    }
}

// The node of a list whose elements are these rows.
fn list_of_rows(
    alloc: Global,
    nodes: &mut Builder,
    names: ListNames,
    rows: ReadRows,
) -> Result<Option<u64>, Memory>
    requires { RowsBelow (length nodes.old) rows }
    ensures term { IfOk result (λ found. (v : View) → Extends v nodes.new
        → option_and_then (the_bracketed_of (known_in v names) Bracket.Square) (rows_in v rows) ≡ option_map (node_in v) found) }
    ensures there { IfOk result (λ found. IfSome found (λ n. n < length nodes.new)) }
    ensures kept { take (length nodes.old) nodes.new ≡ nodes.old }
{
    let ReadRows {
        row,
        rest,
        tail,
        failed,
    } = rows;
    if failed {
        return Ok(None);
    }
    match tree_node(alloc, nodes, row, 999)? {
        Some(first) => {
            let made = whole_list(nodes, names, first, rest, tail)?;
            Ok(Some(made))
        }
        None => Ok(None),
    }
}

// The node of a row by itself, within 1200.
pub(crate) fn term_of_rows(
    alloc: Global,
    nodes: &mut Builder,
    rows: ReadRows,
) -> Result<Option<u64>, Memory>
    requires { RowsBelow (length nodes.old) rows }
    ensures term { IfOk result (λ found. (v : View) → Extends v nodes.new
        → option_and_then (λ r. tree 1200 r.row) (rows_in v rows) ≡ option_map (node_in v) found) }
    ensures there { IfOk result (λ found. IfSome found (λ n. n < length nodes.new)) }
    ensures kept { take (length nodes.old) nodes.new ≡ nodes.old }
{
    let ReadRows {
        row,
        rest: _,
        tail: _,
        failed,
    } = rows;
    if failed {
        return Ok(None);
    }
    let found = tree_node(alloc, nodes, row, 1200)?;
    Ok(found)
}

// The node of a term in braces.
fn braces_of_rows(
    alloc: Global,
    nodes: &mut Builder,
    names: ListNames,
    rows: ReadRows,
) -> Result<Option<u64>, Memory>
    requires { RowsBelow (length nodes.old) rows }
    ensures term { IfOk result (λ found. (v : View) → Extends v nodes.new
        → option_and_then (the_bracketed_of (known_in v names) Bracket.Curly) (rows_in v rows) ≡ option_map (node_in v) found) }
    ensures there { IfOk result (λ found. IfSome found (λ n. n < length nodes.new)) }
    ensures kept { take (length nodes.old) nodes.new ≡ nodes.old }
{
    match term_of_rows(alloc, nodes, rows)? {
        Some(inner) => {
            let made = nodes.compound(names.braces, &[inner])?;
            Ok(Some(made))
        }
        None => Ok(None),
    }
}

/// The node of a part in brackets with these rows; none where one of them has failed.
pub(crate) fn bracketed_of(
    alloc: Global,
    nodes: &mut Builder,
    names: ListNames,
    bracket: Bracket,
    rows: ReadRows,
) -> Result<Option<u64>, Memory>
    requires { RowsBelow (length nodes.old) rows }
    ensures term { IfOk result (λ found. (v : View) → Extends v nodes.new
        → option_and_then (the_bracketed_of (known_in v names) bracket) (rows_in v rows) ≡ option_map (node_in v) found) }
    ensures there { IfOk result (λ found. IfSome found (λ n. n < length nodes.new)) }
    ensures kept { take (length nodes.old) nodes.new ≡ nodes.old }
{
    match bracket {
        Bracket::Round => term_of_rows(alloc, nodes, rows),
        Bracket::Square => list_of_rows(alloc, nodes, names, rows),
        Bracket::Curly => braces_of_rows(alloc, nodes, names, rows),
    }
}
