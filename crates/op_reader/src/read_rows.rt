ghost use Rattle.std.specs.Prelude.{◌≡◌, ◌<◌, ℕ, List, [], ◌∷◌, All, length, take, map, reverse, Some, None, option_map, option_and_then};
ghost use Rattle.std.specs.Prelude.{unwrap_or, IfOk, IfSome, OnOk};
ghost use Rattle.op_logic.specs.Term.{atom};
ghost use Rattle.op_logic.specs.Names.{name_at};
ghost use Rattle.op_reader.specs.Row.{tree};
ghost use Rattle.op_reader.specs.Words.{list_of};
ghost use Rattle.op_reader.specs.Terms.{separated as the_separated, tailed as the_tailed, compound_of as the_compound_of};
ghost use Rattle.op_reader.specs.Terms.{bracketed_of as the_bracketed_of, as_operand as the_as_operand, with_member};
ghost use Rattle.op_reader.specs.inner.RoleLists.{View, node_in};
ghost use Rattle.op_reader.specs.inner.Members.{MemberBelow};
ghost use Rattle.op_reader.specs.inner.ReadRows.{Extends, row_in, nodes_in, rows_in, known_in, RowsBelow, member_in};

use crate::bracket::Bracket;
use crate::list_node::list_node;
use crate::member::Member;
use crate::row_node::row_node;
use op_base::Memory;
use op_term::{Builder, Sym};
use std::alloc::Global;
use std::mem;

/// The names of lists and of `{ }`.
#[derive(Clone, Copy)]
pub(crate) struct ListNames {
    pub dot: Sym,
    pub nil: Sym,
    pub braces: Sym,
}

/// The rows in one pair of brackets, or of a clause, that are read from their end: the first of them so far, and the terms of those
/// behind it. They have failed where one of them has no tree.
#[derive(Drop)]
pub(crate) struct ReadRows {
    pub row: Vec<Member>,
    pub rest: Vec<u64>,
    pub tail: Option<u64>,
    pub failed: bool,
}

/// The node of a row that is held from its end.
pub(crate) fn tree_node(
    alloc: Global,
    nodes: &mut Builder,
    row: Vec<Member>,
    bound: u32,
) -> Result<Option<u64>, Memory>
    requires { All (MemberBelow (length nodes.old)) row.items }
    ensures term { IfOk result (λ found. (v : View) → Extends v nodes.new
        → tree bound (row_in v row.items) ≡ option_map (node_in v) found) }
    ensures there { IfOk result (λ found. IfSome found (λ at. at < length nodes.new)) }
    ensures kept { take (length nodes.old) nodes.new ≡ nodes.old }
{
    let mut members = row;
    members.reverse();
    let found = row_node(alloc, nodes, &members, bound)?;
    Ok(found)
}

impl ReadRows {
    /// No members, and no rows behind them.
    pub(crate) fn new(alloc: Global) -> ReadRows
        ensures empty { (v : View) → rows_in v result ≡ Some (record { row = []; rest = []; tail = None }) }
        ensures below { (n : ℕ) → RowsBelow n result }
    {
        ReadRows {
            row: Vec::new(alloc),
            rest: Vec::new(alloc),
            tail: None,
            failed: false,
        }
    }
}

/// Puts a member in front of the row.
pub(crate) fn add_member(rows: &mut ReadRows, member: Member) -> Result<(), Memory>
    ensures added { OnOk result ((v : View) → rows_in v rows.new ≡ option_map (with_member (member_in v member)) (rows_in v rows.old)) }
    ensures below { OnOk result ((n : ℕ) → MemberBelow n member → RowsBelow n rows.old → RowsBelow n rows.new) }
{
    rows.row.push(member)?;
    Ok(())
}

/// Puts a finished term as an operand in front of the row; none where it has failed.
pub(crate) fn add_operand(rows: &mut ReadRows, found: Option<u64>) -> Result<(), Memory>
    ensures added { OnOk result ((v : View) → rows_in v rows.new ≡ the_as_operand (option_map (node_in v) found) (rows_in v rows.old)) }
    ensures below { OnOk result ((n : ℕ) → IfSome found (λ m. m < n) → RowsBelow n rows.old → RowsBelow n rows.new) }
{
    match found {
        Some(node) => {
            rows.row.push(Member::Operand(node))?;
            Ok(())
        }
        None => {
            rows.failed = true;
            Ok(())
        }
    }
}

/// Finishes the row, and begins the one before it.
pub(crate) fn separate(
    alloc: Global,
    nodes: &mut Builder,
    rows: &mut ReadRows,
) -> Result<(), Memory>
    requires { RowsBelow (length nodes.old) rows.old }
    ensures separated { OnOk result ((v : View) → Extends v nodes.new
        → rows_in v rows.new ≡ option_and_then the_separated (rows_in v rows.old)) }
    ensures below { OnOk result (RowsBelow (length nodes.new) rows.new) }
    ensures kept { take (length nodes.old) nodes.new ≡ nodes.old }
{
    let row = mem::replace(&mut rows.row, Vec::new(alloc));
    match tree_node(alloc, nodes, row, 999)? {
        Some(node) => {
            rows.rest.push(node)?;
            Ok(())
        }
        None => {
            rows.failed = true;
            Ok(())
        }
    }
}

/// Finishes the row as a list's tail, and begins the one before it.
pub(crate) fn make_tail(
    alloc: Global,
    nodes: &mut Builder,
    rows: &mut ReadRows,
) -> Result<(), Memory>
    requires { RowsBelow (length nodes.old) rows.old }
    ensures tailed { OnOk result ((v : View) → Extends v nodes.new
        → rows_in v rows.new ≡ option_and_then the_tailed (rows_in v rows.old)) }
    ensures below { OnOk result (RowsBelow (length nodes.new) rows.new) }
    ensures kept { take (length nodes.old) nodes.new ≡ nodes.old }
{
    let row = mem::replace(&mut rows.row, Vec::new(alloc));
    match tree_node(alloc, nodes, row, 999)? {
        Some(node) => {
            rows.rest.clear();
            rows.tail = Some(node);
            Ok(())
        }
        None => {
            rows.failed = true;
            Ok(())
        }
    }
}
