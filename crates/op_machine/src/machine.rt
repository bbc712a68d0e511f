ghost use Rattle.std.specs.Prelude.{◌≡◌, ◌≢◌, ◌+◌, ◌-◌, ◌^◌, ◌<◌, ◌≤◌, ◌↔◌, ℕ, true, false, List, [], length, take};
ghost use Rattle.std.specs.Prelude.{IfOk, OnOk, OnErr, IsErrOf, IfSome, is_some};
ghost use Rattle.op_store.specs.Queries.{IsSoundGoal};
ghost use Rattle.op_store.specs.Stored.{database_of};
ghost use Rattle.op_logic.specs.Names.{named};
ghost use Rattle.op_machine.specs.Acts.{setup_for};
ghost use Rattle.op_trace.specs.Run.{run};
ghost use Rattle.op_trace.specs.World.{loaded};
ghost use Rattle.op_trace.specs.Outside.{Outside, nothing, at};
ghost use Rattle.op_machine.specs.Host.{Leaves};
ghost use Rattle.op_machine.specs.Machine.{last_after, TurnHasNames};

use crate::core_state::{Core, Mode, Seen};
use crate::host::Host;
use crate::turn::{Cause, Last, MachineFault, Turn};
use crate::view::SolutionView;
use op_base::{Memory, Steps};
use op_event::EventView;
use op_store::{Goal, Store};
use op_term::Symbols;
use op_trace::Port;
use std::alloc::Global;
use std::marker::Model;
use std::sync::ledger::Ledger;

/// The walk over the search tree of a goal, a turn at a time. It keeps no list of turns.
#[derive(Drop)]
pub struct Machine {
    core: Core,
    last: Last,
    faulted: bool,
}

impl Model for Machine {
    ghost use Rattle.op_machine.specs.Machine.{Kept, kept_of};
    ghost use Rattle.std.specs.Coded.{codes};
    ghost use Rattle.op_logic.specs.inner.Code.{term_code};

    ghost Value = { Kept };

    ghost coded = { Prim.hlevel (codes, term_code) };

    ghost view = { λ m. kept_of m.core m.last m.faulted };

    ghost use Rattle.std.specs.Prelude.{◌≡◌, false};
    ghost use Rattle.op_machine.specs.inner.Invariant.{IsSound};
    ghost use Rattle.op_machine.specs.Machine.{CanLook};

    ghost invariant = { λ m. m.faulted ≡ false → IsSound m.core × CanLook m.last m.core };
}

impl Machine {
    ghost use Rattle.op_machine.specs.Machine.{to_come, Goes, answered, event_now, has_event, has_solution};
    ghost use Rattle.op_event.specs.View.{event_in};

    /// A machine before the first turn of a goal's run over the clauses of a store: the run may take `budget` steps,
    /// from 1 to 1,000,000,000, and ends at the solution numbered `wanted`, from 1, or at none for 0. The turns to come are those
    /// of the run, whatever lies outside and whatever was written before.
    pub fn start(
        alloc: Global,
        store: Store,
        goal: &Goal,
        budget: u64,
        wanted: u64,
    ) -> Result<Machine, Memory>
        requires goal { IsSoundGoal (length store.names) goal.now }
        requires some { 1 ≤ budget }
        requires limit { budget ≤ 1000000000 }
        ensures run { IfOk result (λ m. (h : Outside) (o : List ℕ) → to_come m h o
            ≡ run (setup_for budget wanted) (named store.names goal.now.body) goal.now.vars
            (at h o (loaded (database_of store)))) }
        ensures names { IfOk result (λ m. m.names ≡ goal.now.names) }
        ensures steps { IfOk result (λ m. m.steps ≡ 0) }
        ensures answered { IfOk result (λ m. answered m ≡ 0) }
        ensures tables { IfOk result (λ m. m.tables ≡ store) }
        ensures none { IfOk result (λ m. has_event m ≡ false) }
        ensures no_solution { IfOk result (λ m. has_solution m ≡ false) }
        ensures whole { IfOk result (λ m. m.faulted ≡ false) }
    {
        let core = Core::begin(alloc, store, goal, budget, wanted)?;
        Ok(Machine {
            core,
            last: Last::Nothing,
            faulted: false,
        })
    }

    /// The next turn, or the ending, again each time. The ledger rises by the run's steps, but not by those of a call that
    /// answers a fault. After `Memory` the machine has ended, and answers so from then on; its steps and the number of
    /// turns answered are those before the call. A machine that has ended by a fault takes nothing and writes nothing. Of the program a run
    /// changes its names alone, and these only grow.
    pub fn next<H: Host, L: Ledger>(
        &mut self,
        host: &mut H,
        steps: &mut Steps<L>,
    ) -> Result<Turn, MachineFault>
        ensures goes { IfOk result (λ t. Goes t self.old self.new
            (H.went host.old host.new) (H.outside host.old) (H.outside host.new)) }
        ensures ball { IfOk result (TurnHasNames (length self.new.tables.names)) }
        ensures left { OnErr result (Leaves (H.went host.old host.new)) }
        ensures unasked { self.old.faulted ≡ true → H.went host.old host.new nothing [] }
        ensures cost { OnOk result (steps.new ≡ steps.old + (self.new.steps - self.old.steps)) }
        ensures later { self.old.steps ≤ self.new.steps }
        ensures unpaid { OnErr result (steps.new ≡ steps.old) }
        ensures unmade { OnErr result (self.new.steps ≡ self.old.steps) }
        ensures unanswered { OnErr result (answered self.new ≡ answered self.old) }
        ensures symbols { take (length self.old.tables.names) self.new.tables.names ≡ self.old.tables.names }
        ensures program { self.new.tables ≡ record self.old.tables { names = self.new.tables.names } }
        ensures names { self.new.names ≡ self.old.names }
        ensures few { OnOk result (answered self.new < 2 ^ 63) }
        ensures whole { OnOk result (self.new.faulted ≡ false) }
        ensures fault { IsErrOf result MachineFault.Memory → self.new.faulted ≡ true }
        ensures ended { IsErrOf result (MachineFault.Ended Cause.Memory) ↔ (self.old.faulted ≡ true) }
        ensures same { self.old.faulted ≡ true → self.new ≡ self.old }
    {
        let _ = host;
        if self.faulted {
            return Err(MachineFault::Ended(Cause::Memory));
        }
        let before = self.core.steps;
        let events = self.core.events;
        let solutions = self.core.solutions;
        match self.core.turn() {
            Ok(turn) => {
                self.last = last_of(&turn);
                steps.tick(self.core.steps - before);
                Ok(turn)
            }
            Err(Memory) => {
                reset_counts(&mut self.core, before, events, solutions);
                self.faulted = true;
                Err(MachineFault::Memory)
            }
        }
    }

    /// How many steps the run has made up to the last turn, or to its end; a call that answered a fault adds none.
    pub fn used_steps(&self) -> u64
        ensures { result ≡ self.now.steps }
    {
        self.core.steps
    }

    /// The program of the run.
    pub fn store(&self) -> &Store
        ensures { result.now ≡ self.now.tables }
    {
        &self.core.store
    }

    /// How many choice points are kept: what backtracking could still go back to.
    pub fn choice_points(&self) -> u64
        ensures { result ≡ length self.now.frames.choices }
    {
        self.core.frames.choices().len() as u64
    }

    /// The event that was the last turn, lent until the next one; None where the last turn was no event or a fault was answered.
    pub fn event(&self) -> Option<EventView<'_>>
        ensures there { is_some result ≡ has_event self.now }
        ensures event { IfSome result (λ v. event_in v ≡ event_now self.now) }
        ensures bindings { IfSome result (λ v. v.state ≡ self.now.bindings) }
        ensures symbols { IfSome result (λ v. v.names ≡ self.now.tables.names) }
    {
        if self.faulted || self.last != Last::Event {
            return None;
        }
        let seen = &self.core.seen;
        Some(EventView::new(
            seen.chrono,
            seen.call,
            seen.parent,
            seen.depth,
            seen.port,
            &seen.goal,
            &self.core.bindings,
            self.core.store.symbols(),
        ))
    }

    /// The solution that was the last turn; None where the last turn was no solution or a fault was answered.
    pub fn solution(&self) -> Option<SolutionView<'_>>
        ensures there { is_some result ≡ has_solution self.now }
        ensures names { IfSome result (λ v. v.variables ≡ self.now.names) }
        ensures bindings { IfSome result (λ v. v.state ≡ self.now.bindings) }
        ensures symbols { IfSome result (λ v. v.names ≡ self.now.tables.names) }
    {
        if self.faulted || self.last != Last::Solution {
            return None;
        }
        Some(SolutionView::new(
            &self.core.names,
            &self.core.values,
            &self.core.bindings,
            self.core.store.symbols(),
        ))
    }
}

// The steps and the turns that were counted before a call that failed.
fn reset_counts(core: &mut Core, steps: u64, events: u64, solutions: u64)
    ensures { core.new ≡ record core.old { steps = steps; events = events; solutions = solutions } }
{
    core.steps = steps;
    core.events = events;
    core.solutions = solutions;
}

fn last_of(turn: &Turn) -> Last
    ensures { result ≡ last_after turn.now }
{
    match turn {
        Turn::Event => Last::Event,
        Turn::Solution => Last::Solution,
        Turn::Ended(_) => Last::Nothing,
    }
}
