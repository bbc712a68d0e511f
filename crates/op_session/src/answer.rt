ghost use Rattle.std.specs.Prelude.{◌≡◌, ◌≤◌, OnOk, IfOk};
ghost use Rattle.op_machine.specs.Machine.{event_now};
ghost use Rattle.op_moves.specs.Moves.{Stand};
ghost use Rattle.op_session.specs.Traced.{Traced};
ghost use Rattle.op_session.specs.inner.Reader.{IsReader};
ghost use Rattle.op_session.specs.Session.{other_text, unreadable_text};
ghost use Rattle.op_session.specs.inner.Feeding.{Feeds, IsHere, most_of};
ghost use Rattle.op_session.specs.inner.Giving.{Told, Pays, Gives, text_of};
ghost use Rattle.op_session.specs.Sight.{sight};

use crate::command::Meaning;
use crate::decimal::add_decimal;
use crate::feed::{End, Feed};
use crate::status::Status;
use crate::talk::say;
use crate::words::kind_word;
use op_base::{Memory, Steps};
use op_desk::{Bytes, Desk};
use op_event::line_of;
use op_reader::ReadFaultKind;
use std::alloc::Global;
use std::sync::ledger::Ledger;

/// Answers a command with one write to Talk.
pub fn give_answer<D: Desk, L: Ledger>(
    alloc: Global,
    feed: &mut Feed,
    text: &[u8],
    desk: &mut D,
    steps: &mut Steps<L>,
) -> Result<(), Status>
    requires { IsReader feed.old.commands }
    ensures { (traced : Traced) (s : Stand) → Feeds traced s feed.old → Gives traced s text.now feed.old feed.new steps.old steps.new
        (sight D.Desk desk.old) (sight D.Desk desk.new) result }
{
    let answer = answer(alloc, feed, text, steps)?;
    say(desk, answer.as_slice())
}

fn answer<L: Ledger>(
    alloc: Global,
    feed: &mut Feed,
    text: &[u8],
    steps: &mut Steps<L>,
) -> Result<Bytes, Memory>
    requires { IsReader feed.old.commands }
    ensures told { (traced : Traced) (s : Stand) → Feeds traced s feed.old
        → IfOk result (λ answer. Told traced s text.now answer feed.new) }
    ensures pays { Pays feed.old feed.new steps.old steps.new }
    ensures rises { OnOk result (most_of feed.new.machine ≤ most_of feed.old.machine) }
{
    match feed.read(text)? {
        Meaning::Next => {
            let end = feed.next(steps)?;
            next_text(alloc, feed, end)
        }
        Meaning::Other => other(alloc),
        Meaning::Unreadable(place, kind) => unreadable(alloc, place, kind),
    }
}

// The answer to `next`: the present event, or the end in its place.
fn next_text(alloc: Global, feed: &Feed, end: Option<End>) -> Result<Bytes, Memory>
    requires { IsHere end feed.now.machine }
    ensures { IfOk result (λ answer. answer ≡ text_of feed.now.machine.tables.table end (event_now feed.now.machine)) }
{
    let mut answer = Bytes::new(alloc);
    match end {
        None => {
            line_of(alloc, &feed.event(), feed.ops(), &mut answer)?;
            answer.append(b"\nyes\n")?;
        }
        Some(End::Over) => answer.append(b"no\n")?,
        Some(End::Spent) => answer.append(b"thrown trace_budget\n")?,
    }
    Ok(answer)
}

fn other(alloc: Global) -> Result<Bytes, Memory>
    ensures { IfOk result (λ answer. answer ≡ other_text) }
{
    let mut answer = Bytes::new(alloc);
    answer.append(b"unreadable form 0\n")?;
    Ok(answer)
}

fn unreadable(alloc: Global, place: u64, kind: ReadFaultKind) -> Result<Bytes, Memory>
    ensures { IfOk result (λ answer. answer ≡ unreadable_text place kind) }
{
    let mut answer = Bytes::new(alloc);
    answer.append(b"unreadable ")?;
    answer.append(kind_word(kind))?;
    answer.append(b" ")?;
    add_decimal(&mut answer, place)?;
    answer.append(b"\n")?;
    Ok(answer)
}
