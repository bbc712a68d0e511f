ghost use Rattle.std.specs.Prelude.{◌≡◌, ℕ, ◌<◌, ◌≤◌, Some, length, IfOk};
ghost use Rattle.std.specs.Io.KnownBytes.{IsAtEnd};
ghost use Rattle.op_desk.specs.declared.chan.Chan.{Chan};
ghost use Rattle.op_store.specs.Stored.{database_of};
ghost use Rattle.op_store.specs.Queries.{query_named, IsSoundGoal};
ghost use Rattle.op_session.specs.Traced.{Traced};
ghost use Rattle.op_session.specs.inner.Reader.{IsReader};
ghost use Rattle.op_session.specs.inner.Feeding.{traced_by};
ghost use Rattle.op_token.specs.Cut.{IsOpen};
ghost use Rattle.op_session.specs.Call.{Session, traced_of, channel_limit};
ghost use Rattle.op_session.specs.Promise.{too_long_line};
ghost use Rattle.op_session.specs.inner.Progress.{Holds, Goes, Leaves, Ends};
ghost use Rattle.op_session.specs.Session.{from_first as the_first};
ghost use Rattle.op_session.specs.Sight.{Sight, sight};
ghost use Rattle.op_session.specs.inner.Steps.{Says};

use crate::answer::give_answer;
use crate::feed::Feed;
use crate::status::Status;
use crate::talk::{ended_as, say, take_byte};
use op_base::characters::is_layout;
use op_base::{Memory, Steps};
use op_desk::Desk;
use op_machine::Machine;
use op_store::{Goal, Locked, Store};
use op_token::{Cutter, Piece};
use std::alloc::Global;
use std::sync::ledger::Ledger;

// How many bytes may be taken of the commands.
const CHANNEL_LIMIT: u64 = 67_108_864;

// Takes a byte of the commands, and answers the text that it ended, if it ended one. False where no byte is left.
fn answer_byte<D: Desk, L: Ledger>(
    alloc: Global,
    feed: &mut Feed,
    cutter: &mut Cutter,
    desk: &mut D,
    steps: &mut Steps<L>,
) -> Result<bool, Status>
    requires open { IsOpen cutter.old }
    requires reads { IsReader feed.old.commands }
    ensures { (traced : Traced) (a : Sight) (n before : ℕ) → n < channel_limit
        → Holds traced a (sight D.Desk desk.old) n before steps.old cutter.old feed.old
        → Goes traced a n before (sight D.Desk desk.new) steps.new cutter.new feed.new result }
{
    let Some(byte) = take_byte(desk)? else {
        return Ok(false);
    };
    if cutter.push(byte)? {
        give_answer(alloc, feed, cutter.text(), desk, steps)?;
        cutter.restart();
    }
    Ok(true)
}

// Answers what is left at the end of the commands, where that is a command.
fn answer_rest<D: Desk, L: Ledger>(
    alloc: Global,
    feed: &mut Feed,
    cutter: &Cutter,
    desk: &mut D,
    steps: &mut Steps<L>,
) -> Result<(), Status>
    requires { IsReader feed.old.commands }
    ensures { (traced : Traced) (a : Sight) (n before : ℕ) → n < channel_limit → IsAtEnd (D.left desk.old Chan.Commands)
        → Holds traced a (sight D.Desk desk.old) n before steps.old cutter.now feed.old
        → Ends traced a before (sight D.Desk desk.new) steps.new result }
{
    match cutter.piece() {
        Piece::Text(_, _) => give_answer(alloc, feed, cutter.text(), desk, steps),
        Piece::NoEnd => give_answer(alloc, feed, from_first(cutter.bytes()), desk, steps),
        Piece::Empty => Ok(()),
    }
}

// Refuses to take another byte of the commands.
fn refuse_more<D: Desk>(desk: &mut D) -> Result<(), Status>
    ensures { Says (sight D.Desk desk.old) (sight D.Desk desk.new) too_long_line result }
{
    say(desk, b"opium: too long commands\n")
}

// Answers the commands, one after the other, over the events of a feed at the start.
fn answer_feed<D: Desk, L: Ledger>(
    alloc: Global,
    feed: &mut Feed,
    cutter: &mut Cutter,
    desk: &mut D,
    steps: &mut Steps<L>,
) -> Status
    requires { Holds (traced_by feed.old.machine)
        (sight D.Desk desk.old) (sight D.Desk desk.old) 0 steps.old steps.old cutter.old feed.old }
    ensures { Leaves (Some (Session (traced_by feed.old.machine))) result
        (sight D.Desk desk.old) (sight D.Desk desk.new) steps.old steps.new }
{
    for _ in 0..CHANNEL_LIMIT {
        match answer_byte(alloc, feed, cutter, desk, steps) {
            Ok(true) => {}
            Ok(false) => {
                return ended_as(Status::Done, answer_rest(alloc, feed, cutter, desk, steps));
            }
            Err(status) => return status,
        }
    }
    ended_as(Status::TooLong, refuse_more(desk))
}

// Answers the commands over the events of a machine that has made no step.
fn answer_all<D: Desk, L: Ledger>(
    alloc: Global,
    machine: Machine,
    commands: Store,
    desk: &mut D,
    steps: &mut Steps<L>,
) -> Status
    requires steps { machine.steps ≡ 0 }
    requires reads { IsReader commands }
    ensures { Leaves (Some (Session (traced_by machine))) result
        (sight D.Desk desk.old) (sight D.Desk desk.new) steps.old steps.new }
{
    let mut feed = Feed::new(machine, commands);
    let mut cutter = Cutter::new(alloc);
    answer_feed(alloc, &mut feed, &mut cutter, desk, steps)
}

// The bytes from the first one that isn't layout.
fn from_first(bytes: &[u8]) -> &[u8]
    ensures { result.now ≡ the_first bytes.now }
{
    for (i, byte) in bytes.iter().enumerate() {
        if !is_layout(*byte) {
            return &bytes[i..];
        }
    }
    &[]
}

// A machine before the first turn of a goal's run, which may take `budget` steps.
fn begin(alloc: Global, store: Store, goal: Goal, budget: u64) -> Result<Machine, Memory>
    requires goal { IsSoundGoal (length store.names) goal }
    requires some { 1 ≤ budget }
    requires limit { budget ≤ 1000000000 }
    ensures traced { IfOk result (λ m. traced_by m ≡ traced_of budget (database_of store) (query_named store.names goal)) }
    ensures steps { IfOk result (λ m. m.steps ≡ 0) }
{
    Machine::start(alloc, store, &goal, budget, 1)
}

// Answers the commands over the events of a machine that has made no step, with a store that reads them.
fn answer_run<D: Desk, L: Ledger>(
    alloc: Global,
    machine: Machine,
    desk: &mut D,
    steps: &mut Steps<L>,
) -> Status
    requires { machine.steps ≡ 0 }
    ensures { Leaves (Some (Session (traced_by machine))) result
        (sight D.Desk desk.old) (sight D.Desk desk.new) steps.old steps.new }
{
    match Store::new(alloc, Locked::Analysis) {
        Ok(commands) => answer_all(alloc, machine, commands, desk, steps),
        Err(Memory) => Status::Memory,
    }
}

/// A session over the run of a goal, which may take `budget` steps.
pub fn session<D: Desk, L: Ledger>(
    alloc: Global,
    store: Store,
    goal: Goal,
    budget: u64,
    desk: &mut D,
    steps: &mut Steps<L>,
) -> Status
    requires goal { IsSoundGoal (length store.names) goal }
    requires some { 1 ≤ budget }
    requires limit { budget ≤ 1000000000 }
    ensures { Leaves (Some (Session (traced_of budget (database_of store) (query_named store.names goal)))) result
        (sight D.Desk desk.old) (sight D.Desk desk.new) steps.old steps.new }
{
    match begin(alloc, store, goal, budget) {
        Ok(machine) => answer_run(alloc, machine, desk, steps),
        Err(Memory) => Status::Memory,
    }
}
