ghost use Rattle.std.specs.Prelude.{◌≡◌, ◌+◌, ◌-◌, ◌<◌, ◌≤◌, ◌^◌, false, length, take, IfOk, OnOk, OnErr};
ghost use Rattle.op_store.specs.Queries.{IsSoundGoal};
ghost use Rattle.op_machine.specs.Machine.{Answers, answered, world_now, TurnHasNames};
ghost use Rattle.op_retrace.specs.Holding.{to_show, IsStarted};
ghost use Rattle.op_retrace.specs.inner.Coming.{Comes, Stops};

use op_base::{Memory, Steps};
use op_machine::{Ending, Machine, Nothing, Turn};
use op_store::{Goal, Store};
use std::alloc::Global;
use std::sync::ledger::Ledger;

/// A machine at the start of a goal's run over a copy of a program.
pub(crate) fn start_again(
    alloc: Global,
    store: &Store,
    goal: &Goal,
    budget: u64,
    wanted: u64,
) -> Result<Machine, Memory>
    requires goal { IsSoundGoal (length store.now.names) goal.now }
    requires some { 1 ≤ budget }
    requires limit { budget ≤ 1000000000 }
    ensures { IfOk result (IsStarted store.now goal.now budget wanted) }
{
    Machine::start(alloc, store.copy()?, goal, budget, wanted)
}

// The next turn of a program outside of which nothing lies.
fn next_turn<L: Ledger>(machine: &mut Machine, steps: &mut Steps<L>) -> Result<Turn, Memory>
    ensures answers { IfOk result (λ turn. Answers turn machine.old machine.new
        (to_show machine.old) (to_show machine.new) (world_now machine.new)) }
    ensures ball { IfOk result (TurnHasNames (length machine.new.tables.names)) }
    ensures few { OnOk result (answered machine.new < 2 ^ 63) }
    ensures whole { OnOk result (machine.new.faulted ≡ false) }
    ensures cost { steps.new ≡ steps.old + (machine.new.steps - machine.old.steps) }
    ensures later { machine.old.steps ≤ machine.new.steps }
    ensures unmade { OnErr result (machine.new.steps ≡ machine.old.steps) }
    ensures names { take (length machine.old.tables.names) machine.new.tables.names ≡ machine.old.tables.names }
{
    match machine.next(&mut Nothing, steps) {
        Ok(turn) => Ok(turn),
        Err(_) => Err(Memory),
    }
}

/// Asks a machine for turns up to the next event, or to the end, which is answered: a solution is passed over.
pub(crate) fn come_to_next<L: Ledger>(
    machine: &mut Machine,
    steps: &mut Steps<L>,
) -> Result<Option<Ending>, Memory>
    ensures comes { IfOk result (λ ending. Comes ending machine.old machine.new) }
    ensures stops { OnErr result (Stops machine.old machine.new) }
    ensures cost { steps.new ≡ steps.old + (machine.new.steps - machine.old.steps) }
    ensures later { machine.old.steps ≤ machine.new.steps }
    ensures names { take (length machine.old.tables.names) machine.new.tables.names ≡ machine.old.tables.names }
{
    loop {
        match next_turn(machine, steps)? {
            Turn::Event => return Ok(None),
            Turn::Solution => {}
            Turn::Ended(ending) => return Ok(Some(ending)),
        }
    }
}
