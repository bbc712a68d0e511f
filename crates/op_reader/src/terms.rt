ghost use Rattle.std.specs.Prelude.{◌≡◌, ◌<◌, ◌≤◌, ℕ, List, [], ◌∷◌, All, length, take, drop, map, reverse, Some, None, option_map};
ghost use Rattle.std.specs.Prelude.{option_and_then, IfOk, IfSome, OnOk};
ghost use Rattle.op_reader.specs.Terms.{term_of as the_term_of, as_operand as the_as_operand};
ghost use Rattle.op_reader.specs.inner.RoleLists.{RoleBelow, View, Layers, node_in, with_role, rows_of};
ghost use Rattle.op_reader.specs.inner.ReadRows.{Extends, rows_in, known_in, RowsBelow, Reads, PendingBelow, Popped};

use crate::bracket::Bracket;
use crate::enclosed::{bracketed_of, compound_of, term_of_rows};
use crate::member::Member;
use crate::read_rows::{ListNames, ReadRows, add_member, add_operand, make_tail, separate};
use crate::role::Role;
use op_base::Memory;
use op_term::{Builder, Sym};
use std::alloc::Global;
use std::mem;

/// The rows that are not finished, from their ends: those in the innermost brackets, and those around them, the outermost first.
#[derive(Drop)]
pub(crate) struct Pending {
    pub inner: ReadRows,
    pub outer: Vec<ReadRows>,
}

// Takes the innermost rows away; where no others are left, none take their place.
fn pop(alloc: Global, pending: &mut Pending) -> ReadRows
    ensures value { result ≡ pending.old.inner }
    ensures popped { Popped pending.old pending.new }
{
    match pending.outer.pop() {
        Some(rows) => {
            let innermost = mem::replace(&mut pending.inner, rows);
            return innermost;
        }
        None => {
            let innermost = mem::replace(&mut pending.inner, ReadRows::new(alloc));
            return innermost;
        }
    }
}

fn push(alloc: Global, pending: &mut Pending) -> Result<(), Memory>
    ensures reads { OnOk result ((v : View) (names : ListNames) (l : Layers) → Reads v names pending.old l
        → Reads v names pending.new (with_role v Role.Closed l)) }
    ensures below { OnOk result ((n : ℕ) → PendingBelow n pending.old → PendingBelow n pending.new) }
{
    let rows = mem::replace(&mut pending.inner, ReadRows::new(alloc));
    pending.outer.push(rows)?;
    Ok(())
}

// An opening bracket: the innermost rows are finished, and are an operand of the next.
fn enclose(pending: &mut Pending, found: Option<u64>) -> Result<(), Memory>
    ensures added { OnOk result ((v : View) → rows_in v pending.new.inner
        ≡ the_as_operand (option_map (node_in v) found) (rows_in v pending.old.inner)) }
    ensures outer { pending.new.outer ≡ pending.old.outer }
    ensures below { OnOk result ((n : ℕ) → IfSome found (λ m. m < n) → PendingBelow n pending.old → PendingBelow n pending.new) }
{
    add_operand(&mut pending.inner, found)
}

fn open_compound(
    alloc: Global,
    nodes: &mut Builder,
    pending: &mut Pending,
    name: Sym,
) -> Result<(), Memory>
    requires { PendingBelow (length nodes.old) pending.old }
    ensures reads { OnOk result ((v : View) (names : ListNames) (l : Layers) → Extends v nodes.new → Reads v names pending.old l
        → Reads v names pending.new (with_role v (Role.Compound name) l)) }
    ensures below { OnOk result (PendingBelow (length nodes.new) pending.new) }
    ensures kept { take (length nodes.old) nodes.new ≡ nodes.old }
{
    let rows = pop(alloc, pending);
    let found = compound_of(alloc, nodes, name, rows)?;
    enclose(pending, found)?;
    Ok(())
}

fn open_bracket(
    alloc: Global,
    nodes: &mut Builder,
    known: ListNames,
    pending: &mut Pending,
    bracket: Bracket,
) -> Result<(), Memory>
    requires { PendingBelow (length nodes.old) pending.old }
    ensures reads { OnOk result ((v : View) (l : Layers) → Extends v nodes.new → Reads v known pending.old l
        → Reads v known pending.new (with_role v (Role.Bracketed bracket) l)) }
    ensures below { OnOk result (PendingBelow (length nodes.new) pending.new) }
    ensures kept { take (length nodes.old) nodes.new ≡ nodes.old }
{
    let rows = pop(alloc, pending);
    let found = bracketed_of(alloc, nodes, known, bracket, rows)?;
    enclose(pending, found)?;
    Ok(())
}

// An integer that is too great stands as 0.
fn number_member(nodes: &mut Builder, pending: &mut Pending, place: u64) -> Result<(), Memory>
    requires { PendingBelow (length nodes.old) pending.old }
    ensures reads { OnOk result ((v : View) (names : ListNames) (l : Layers) → Extends v nodes.new → Reads v names pending.old l
        → Reads v names pending.new (with_role v (Role.Excess place) l)) }
    ensures below { OnOk result (PendingBelow (length nodes.new) pending.new) }
    ensures kept { take (length nodes.old) nodes.new ≡ nodes.old }
{
    let _place = place;
    let node = nodes.int(0)?;
    add_member(&mut pending.inner, Member::Operand(node))?;
    Ok(())
}

// Takes a role in front of those behind it.
fn take_role(
    alloc: Global,
    nodes: &mut Builder,
    known: ListNames,
    pending: &mut Pending,
    role: Role,
) -> Result<(), Memory>
    requires role { RoleBelow (length nodes.old) role }
    requires below { PendingBelow (length nodes.old) pending.old }
    ensures reads { OnOk result ((v : View) (l : Layers) → Extends v nodes.new → Reads v known pending.old l
        → Reads v known pending.new (with_role v role l)) }
    ensures below { OnOk result (PendingBelow (length nodes.new) pending.new) }
    ensures kept { take (length nodes.old) nodes.new ≡ nodes.old }
{
    match role {
        Role::Separator => separate(alloc, nodes, &mut pending.inner),
        Role::Tail => make_tail(alloc, nodes, &mut pending.inner),
        Role::Operator(operator) => add_member(&mut pending.inner, Member::Operator(operator)),
        Role::Operand(node) => add_member(&mut pending.inner, Member::Operand(node)),
        Role::Excess(place) => number_member(nodes, pending, place),
        Role::Compound(name) => open_compound(alloc, nodes, pending, name),
        Role::Bracketed(bracket) => open_bracket(alloc, nodes, known, pending, bracket),
        Role::Closed => push(alloc, pending),
    }
}

/// The node of the term that roles spell; none where a row has no tree.
pub(crate) fn term_node(
    alloc: Global,
    nodes: &mut Builder,
    known: ListNames,
    roles: &[Role],
) -> Result<Option<u64>, Memory>
    requires { All (RoleBelow (length nodes.old)) roles.now }
    ensures term { IfOk result (λ found. (v : View) → Extends v nodes.new
        → the_term_of (known_in v known) (rows_of v roles.now) ≡ option_map (node_in v) found) }
    ensures there { IfOk result (λ found. IfSome found (λ n. n < length nodes.new)) }
    ensures kept { take (length nodes.old) nodes.new ≡ nodes.old }
{
    let mut pending = Pending {
        inner: ReadRows::new(alloc),
        outer: Vec::new(alloc),
    };
    let mut i = roles.len();
    'roles: while i > 0 {
        i -= 1;
        take_role(alloc, nodes, known, &mut pending, roles[i])?;
    }
    let Pending { inner, outer: _ } = pending;
    let found = term_of_rows(alloc, nodes, inner)?;
    Ok(found)
}
