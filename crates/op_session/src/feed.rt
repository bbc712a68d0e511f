ghost use Rattle.std.specs.Prelude.{◌≡◌, ◌+◌, ◌-◌, ◌≤◌, List, true, IfOk, OnOk, OnErr};
ghost use Rattle.op_trace.specs.Database.{Text};
ghost use Rattle.op_event.specs.View.{event_in};
ghost use Rattle.op_machine.specs.Machine.{Answers, ending_for, has_event, event_now, world_now};
ghost use Rattle.op_moves.specs.Moves.{Stand, at_start, end_found};
ghost use Rattle.op_session.specs.Traced.{Traced};
ghost use Rattle.op_session.specs.inner.Feeding.{Finds, Shows, found_at, most_of, to_show};

use crate::command::Meaning;
use op_base::{Memory, Steps};
use op_event::EventView;
use op_machine::{Ending, Machine, Nothing, Turn};
use op_store::Store;
use op_term::Ops;
use std::sync::ledger::Ledger;

/// The events of a run in order, one at a time, and the store that reads the commands over them. The machine is asked for a turn only
/// where an event is asked for, and no event is kept but the last.
#[derive(Drop)]
pub struct Feed {
    pub machine: Machine,
    pub ended: Option<End>,
    pub commands: Store,
}

/// Which end of a run stands behind its last event.
#[derive(Clone, Copy)]
pub enum End {
    /// There is no further event.
    Over,
    /// The run had spent its steps.
    Spent,
}

impl Feed {
    ghost use Rattle.op_session.specs.Session.{meaning};
    ghost use Rattle.op_session.specs.inner.Reader.{IsReader};
    ghost use Rattle.op_session.specs.inner.Feeding.{Feeds, IsHere, traced_by};

    /// A feed before the first event of a machine that made no step, with a store that reads commands.
    pub fn new(machine: Machine, commands: Store) -> Feed
        requires steps { machine.steps ≡ 0 }
        requires reads { IsReader commands }
        ensures feeds { Feeds (traced_by machine) at_start result }
        ensures steps { result.machine.steps ≡ 0 }
        ensures machine { result.machine ≡ machine }
    {
        Feed {
            machine,
            ended: None,
            commands,
        }
    }

    /// What a text means as a command. Only the names that commands have used change.
    pub fn read(&mut self, text: &[u8]) -> Result<Meaning, Memory>
        requires { IsReader self.old.commands }
        ensures meaning { IfOk result (λ m. m ≡ meaning text.now) }
        ensures feeds { OnOk result ((traced : Traced) (s : Stand) → Feeds traced s self.old → Feeds traced s self.new) }
        ensures machine { self.new.machine ≡ self.old.machine }
    {
        Meaning::of(&mut self.commands, text)
    }

    /// Goes to the next event, which is the present one then, or answers the end that stands in its place. A machine that has ended is not
    /// asked again.
    pub fn next<L: Ledger>(&mut self, steps: &mut Steps<L>) -> Result<Option<End>, Memory>
        ensures finds { (traced : Traced) (s : Stand) → Feeds traced s self.old → IfOk result (λ end. Finds traced s self.new end) }
        ensures here { IfOk result (λ end. IsHere end self.new.machine) }
        ensures cost { steps.new ≡ steps.old + (self.new.machine.steps - self.old.machine.steps) }
        ensures later { self.old.machine.steps ≤ self.new.machine.steps }
        ensures within { self.new.machine.steps ≤ most_of self.old.machine }
        ensures rises { OnOk result (most_of self.new.machine ≤ most_of self.old.machine) }
    {
        if self.ended.is_none() {
            self.ended = next_event(&mut self.machine, steps)?;
        }
        Ok(self.ended)
    }

    /// The present event.
    pub fn event(&self) -> EventView<'_>
        requires { has_event self.now.machine ≡ true }
        ensures { event_in result ≡ event_now self.now.machine }
    {
        self.machine.event().unwrap()
    }

    /// The operators that loading left, in which events are written.
    pub fn ops(&self) -> &Ops
        ensures { result.now ≡ self.now.machine.tables.table }
    {
        self.machine.store().ops()
    }
}

fn end_of(ending: &Ending) -> End
    ensures { (names : List Text) → end_found (ending_for names ending.now) ≡ found_at result }
{
    match ending {
        Ending::Stopped | Ending::Failed | Ending::Thrown(_) | Ending::Halted(_) => End::Over,
        Ending::Spent => End::Spent,
    }
}

// The next turn of a program outside of which nothing lies.
fn next_turn<L: Ledger>(machine: &mut Machine, steps: &mut Steps<L>) -> Result<Turn, Memory>
    ensures answers { IfOk result (λ turn. Answers turn machine.old machine.new
        (to_show machine.old) (to_show machine.new) (world_now machine.new)) }
    ensures cost { steps.new ≡ steps.old + (machine.new.steps - machine.old.steps) }
    ensures later { machine.old.steps ≤ machine.new.steps }
    ensures unmade { OnErr result (machine.new.steps ≡ machine.old.steps) }
    ensures table { machine.new.tables.table ≡ machine.old.tables.table }
{
    match machine.next(&mut Nothing, steps) {
        Ok(turn) => Ok(turn),
        Err(_) => Err(Memory),
    }
}

// Asks a machine for turns up to the next event or its end: a solution is passed over.
#[tactic(auto, using(crate::proofs::MostSteps::answers_most))]
fn next_event<L: Ledger>(machine: &mut Machine, steps: &mut Steps<L>) -> Result<Option<End>, Memory>
    ensures shows { IfOk result (λ ended. Shows machine.old machine.new ended) }
    ensures cost { steps.new ≡ steps.old + (machine.new.steps - machine.old.steps) }
    ensures later { machine.old.steps ≤ machine.new.steps }
    ensures within { machine.new.steps ≤ most_of machine.old }
    ensures rises { OnOk result (most_of machine.new ≤ most_of machine.old) }
    ensures table { machine.new.tables.table ≡ machine.old.tables.table }
{
    loop {
        match next_turn(machine, steps)? {
            Turn::Event => return Ok(None),
            Turn::Solution => {}
            Turn::Ended(ending) => return Ok(Some(end_of(&ending))),
        }
    }
}
