//! The answer to a command that moved, or found no event.

ghost use Rattle.std.specs.Prelude.{◌≡◌, ◌<◌, ◌++◌, true, IfOk, OnOk};
ghost use Rattle.op_term.specs.Ops.{iso_table};
ghost use Rattle.op_retrace.specs.Fed.{shows_event};
ghost use Rattle.op_cursor.specs.Seen.{seen};
ghost use Rattle.op_session.specs.inner.Replying.{end_line, bindings_by, place_by, move_text};

use crate::reply::{add_bindings, add_place};
use op_base::Memory;
use op_cursor::{Cursor, Move};
use op_desk::Bytes;
use op_reader::Names;
use op_retrace::Feed;
use op_store::Store;
use op_term::Ops;
use std::alloc::Global;

// The last line, where so many steps are left.
fn last_words(answer: Move, left: u64) -> &'static [u8]
    ensures { result.now ≡ end_line answer left }
{
    match answer {
        Move::Moved => b"yes\n",
        Move::NoEvent => b"no\n",
        Move::PastBudget => spent_words(left),
        Move::Spent => b"budget\n",
    }
}

// The ball takes a step.
fn spent_words(left: u64) -> &'static [u8]
    ensures { result.now ≡ end_line Move.PastBudget left }
{
    if left >= 1 {
        b"thrown trace_budget\n"
    } else {
        b"budget\n"
    }
}

// Adds a line for each variable, where an event was found: no move binds one.
fn add_unbound(
    alloc: Global,
    store: &Store,
    names: &Names,
    answer: Move,
    text: &mut Bytes,
) -> Result<(), Memory>
    requires { store.now.table ≡ iso_table }
    ensures { OnOk result (text.new ≡ text.old ++ bindings_by answer names.now) }
{
    match answer {
        Move::Moved => add_bindings(alloc, store, names, text),
        Move::NoEvent | Move::PastBudget | Move::Spent => Ok(()),
    }
}

// Adds the line of the place, where it isn't that of before.
fn add_other_place<F: Feed + Drop>(
    alloc: Global,
    cursor: &Cursor<F>,
    ops: &Ops,
    from: u64,
    text: &mut Bytes,
) -> Result<(), Memory>
    requires there { ((seen F.fed cursor.now).place ≡ from → ⊥) → (seen F.fed cursor.now).fed.place ≡ (seen F.fed cursor.now).place }
    requires shown { ((seen F.fed cursor.now).place ≡ from → ⊥) → 0 < (seen F.fed cursor.now).place
        → shows_event (seen F.fed cursor.now).fed ≡ true }
    ensures { OnOk result (text.new ≡ text.old ++ place_by ops.now from (seen F.fed cursor.now)) }
{
    if from == cursor.place() {
        return Ok(());
    }
    add_place(alloc, cursor, ops, text)
}

/// The answer to a move from a place, by what it answers and the steps that are left.
pub fn move_reply<F: Feed + Drop>(
    alloc: Global,
    store: &Store,
    names: &Names,
    cursor: &Cursor<F>,
    ops: &Ops,
    from: u64,
    answer: Move,
    left: u64,
) -> Result<Bytes, Memory>
    requires operators { store.now.table ≡ iso_table }
    requires there { ((seen F.fed cursor.now).place ≡ from → ⊥) → (seen F.fed cursor.now).fed.place ≡ (seen F.fed cursor.now).place }
    requires shown { ((seen F.fed cursor.now).place ≡ from → ⊥) → 0 < (seen F.fed cursor.now).place
        → shows_event (seen F.fed cursor.now).fed ≡ true }
    ensures { IfOk result (λ text. text ≡ move_text ops.now names.now from answer left (seen F.fed cursor.now)) }
{
    let mut text = Bytes::new(alloc);
    add_unbound(alloc, store, names, answer, &mut text)?;
    add_other_place(alloc, cursor, ops, from, &mut text)?;
    text.append(last_words(answer, left))?;
    Ok(text)
}
