ghost use Rattle.std.specs.Prelude.{◌≡◌, ◌+◌, ◌^◌, ◌≤◌, ◌==◌, ◌&&◌, length, max, IfOk, Some, is_some};
ghost use Rattle.op_store.specs.Queries.{IsSoundGoal};
ghost use Rattle.op_retrace.specs.Holding.{fed_of};
ghost use Rattle.op_retrace.specs.inner.Coming.{kept_by, step_by};

use crate::coming::{come_to_next, start_again};
use crate::fault::{Cause, FeedFault};
use crate::feed::{Feed, FeedStep};
use op_base::{Memory, Steps};
use op_desk::Desk;
use op_event::EventView;
use op_machine::{Ending, Machine};
use op_store::{Goal, Store};
use op_term::Ops;
use std::alloc::Global;
use std::marker::Model;
use std::sync::ledger::Ledger;

/// The feed of a goal's run over a program that has no input: one machine, and the program as loading left it, of which a copy is made
/// each time the run is made again. No event is kept but the last.
#[derive(Drop)]
pub struct Retrace {
    alloc: Global,
    store: Store,
    goal: Goal,
    budget: u64,
    wanted: u64,
    machine: Machine,
    place: u64,
    furthest: u64,
    ending: Option<Ending>,
    fault: Option<Cause>,
}

impl Model for Retrace {
    ghost use Rattle.std.specs.Coded.{codes};
    ghost use Rattle.op_logic.specs.inner.Code.{term_code};
    ghost use Rattle.op_retrace.specs.Holding.{Held, IsHolding};

    ghost Value = { Held };

    ghost coded = { Prim.hlevel (codes, term_code) };

    ghost use Rattle.op_retrace.specs.Retraced.{held_by};

    ghost view = { held_by };

    ghost invariant = { λ r. IsHolding (held_by r) };
}

impl Retrace {
    ghost use Rattle.op_retrace.specs.Holding.{first_held};

    /// A feed at place 0 of a goal's run: it may take `budget` steps, from 1 to 1,000,000,000, and ends at the solution numbered `wanted`,
    /// from 1, or at none for 0.
    pub fn new(
        alloc: Global,
        store: Store,
        goal: Goal,
        budget: u64,
        wanted: u64,
    ) -> Result<Retrace, Memory>
        requires goal { IsSoundGoal (length store.names) goal }
        requires some { 1 ≤ budget }
        requires limit { budget ≤ 1000000000 }
        ensures { IfOk result (λ r. r ≡ first_held store goal budget wanted r.machine) }
    {
        let machine = start_again(alloc, &store, &goal, budget, wanted)?;
        Ok(Retrace {
            alloc,
            store,
            goal,
            budget,
            wanted,
            machine,
            place: 0,
            furthest: 0,
            ending: None,
            fault: None,
        })
    }
}

// Whether a feed stands at the end.
fn is_at_end(place: u64, furthest: u64, ending: &Option<Ending>) -> bool
    ensures { result ≡ (place == furthest && is_some ending.now) }
{
    place == furthest && ending.is_some()
}

// One place on: the next event, or the end, of which the ending is kept.
fn step_on(
    place: &mut u64,
    furthest: &mut u64,
    kept: &mut Option<Ending>,
    ending: Option<Ending>,
) -> FeedStep
    requires { place.old ≤ 2 ^ 63 }
    ensures place { place.new ≡ place.old + 1 }
    ensures furthest { furthest.new ≡ max furthest.old (place.old + 1) }
    ensures kept { kept.new ≡ kept_by kept.old ending }
    ensures step { result ≡ step_by ending }
{
    *place += 1;
    *furthest = (*furthest).max(*place);
    match ending {
        None => FeedStep::Event,
        Some(ending) => {
            *kept = Some(ending);
            FeedStep::End
        }
    }
}

// Ends a feed by want of memory.
fn end_by_memory(fault: &mut Option<Cause>) -> FeedFault
    ensures fault { fault.new ≡ Some Cause.Memory }
    ensures answer { result ≡ FeedFault.Memory }
{
    *fault = Some(Cause::Memory);
    FeedFault::Memory
}

impl Feed for Retrace {
    ghost fed = { fed_of };

    fn reset(&mut self) -> Result<(), FeedFault> {
        if let Some(cause) = self.fault {
            return Err(FeedFault::Ended(cause));
        }
        match start_again(
            self.alloc,
            &self.store,
            &self.goal,
            self.budget,
            self.wanted,
        ) {
            Ok(machine) => {
                self.machine = machine;
                self.place = 0;
                Ok(())
            }
            Err(Memory) => Err(end_by_memory(&mut self.fault)),
        }
    }

    fn advance<D: Desk, L: Ledger>(
        &mut self,
        desk: &mut D,
        steps: &mut Steps<L>,
    ) -> Result<FeedStep, FeedFault> {
        let _ = desk;
        if let Some(cause) = self.fault {
            return Err(FeedFault::Ended(cause));
        }
        if is_at_end(self.place, self.furthest, &self.ending) {
            return Ok(FeedStep::End);
        }
        match come_to_next(&mut self.machine, steps) {
            Ok(ending) => Ok(step_on(
                &mut self.place,
                &mut self.furthest,
                &mut self.ending,
                ending,
            )),
            Err(Memory) => Err(end_by_memory(&mut self.fault)),
        }
    }

    fn event(&self) -> Option<EventView<'_>> {
        if self.fault.is_some() {
            return None;
        }
        self.machine.event()
    }

    fn place(&self) -> u64 {
        self.place
    }

    fn furthest(&self) -> u64 {
        self.furthest
    }

    fn ending(&self) -> Option<&Ending> {
        self.ending.as_ref()
    }

    fn ops(&self) -> &Ops {
        self.store.ops()
    }

    fn machine(&self) -> &Machine {
        &self.machine
    }
}
