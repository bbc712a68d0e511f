//! The present event is shown where a command has moved.

ghost use Rattle.std.specs.Prelude.{◌≡◌, IfOk, IfErr, OnOk};
ghost use Rattle.op_term.specs.Ops.{iso_table};
ghost use Rattle.op_retrace.specs.Sight.{sight};
ghost use Rattle.op_cursor.specs.Seen.{seen, moment, CanStand};
ghost use Rattle.op_session.specs.inner.Replying.{move_text};
ghost use Rattle.op_session.specs.inner.Standing.{Shown, Unshown, IsUnanswered};

use crate::move_reply::move_reply;
use op_base::{Memory, Steps};
use op_cursor::{Cursor, CursorFault, Move};
use op_desk::{Bytes, Desk};
use op_reader::Names;
use op_retrace::Feed;
use op_store::Store;
use op_term::Ops;
use std::alloc::Global;
use std::sync::ledger::Ledger;

/// Makes the feed stand at the place, where it isn't that of before.
pub fn show_other<F: Feed + Drop, D: Desk, L: Ledger>(
    cursor: &mut Cursor<F>,
    from: u64,
    desk: &mut D,
    steps: &mut Steps<L>,
) -> Result<(), CursorFault>
    requires { CanStand (seen F.fed cursor.old) }
    ensures shown { OnOk result (Shown from
        (moment (seen F.fed cursor.old) (sight D.Desk desk.old) 0 steps.old)
        (moment (seen F.fed cursor.new) (sight D.Desk desk.new) 0 steps.new)) }
    ensures fails { IfErr result (λ f. Unshown f
        (moment (seen F.fed cursor.old) (sight D.Desk desk.old) 0 steps.old)
        (moment (seen F.fed cursor.new) (sight D.Desk desk.new) 0 steps.new)) }
{
    if from == cursor.place() {
        return Ok(());
    }
    cursor.show(desk, steps)
}

/// Why an answer could not be given: the event could not be shown, or memory was wanting for its text.
#[derive(Clone, Copy, Debug, PartialEq, Eq)]
pub enum ReplyFault {
    Cursor(CursorFault),
    Memory,
}

/// The answer to a move from a place, by what it answers and the steps that are left.
pub fn show_move<F: Feed + Drop, D: Desk, L: Ledger>(
    alloc: Global,
    store: &Store,
    names: &Names,
    cursor: &mut Cursor<F>,
    ops: &Ops,
    from: u64,
    answer: Move,
    left: u64,
    desk: &mut D,
    steps: &mut Steps<L>,
) -> Result<Bytes, ReplyFault>
    requires stands { CanStand (seen F.fed cursor.old) }
    requires operators { store.now.table ≡ iso_table }
    ensures text { IfOk result (λ text. text ≡ move_text ops.now names.now from answer left (seen F.fed cursor.new)) }
    ensures shown { OnOk result (Shown from
        (moment (seen F.fed cursor.old) (sight D.Desk desk.old) 0 steps.old)
        (moment (seen F.fed cursor.new) (sight D.Desk desk.new) 0 steps.new)) }
    ensures fails { IfErr result (λ f. IsUnanswered f from
        (moment (seen F.fed cursor.old) (sight D.Desk desk.old) 0 steps.old)
        (moment (seen F.fed cursor.new) (sight D.Desk desk.new) 0 steps.new)) }
{
    match show_other(cursor, from, desk, steps) {
        Ok(()) => match move_reply(alloc, store, names, cursor, ops, from, answer, left) {
            Ok(text) => Ok(text),
            Err(Memory) => Err(ReplyFault::Memory),
        },
        Err(fault) => Err(ReplyFault::Cursor(fault)),
    }
}
