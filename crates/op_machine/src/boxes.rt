ghost use Rattle.std.specs.Prelude.{◌≡◌, ◌+◌, ℕ, length, IfOk, OnOk, None};
ghost use Rattle.op_machine.specs.Meaning.{world_in, level_in, items_now, goal_now, bindings_now, choice_points_in, choice_point_by};
ghost use Rattle.op_machine.specs.Meaning.{event_seen};
ghost use Rattle.op_machine.specs.Program.{inside_snapshot};
ghost use Rattle.op_machine.specs.inner.Boxes.{IsTried};
ghost use Rattle.op_machine.specs.inner.Invariant.{IsGood, IsKind, HasItems, HasGoal, HasCalled, CanGrow};
ghost use Rattle.op_store.specs.Stored.{database_of};
ghost use Rattle.op_machine.specs.inner.Moves.{Keeps, Advances, exit_moved, box_invoked};
ghost use Rattle.op_machine.specs.Resume.{Backward, showing};
ghost use Rattle.op_trace.specs.Visit.{event_of, with_event, inside, inside_procedure, last_choice};

use crate::builtin_kind::is_catch_goal;
use crate::choice_points::ChoiceKind;
use crate::core_state::{Core, Mode, Seen, Step};
use op_base::Memory;
use op_bind::Ref;
use op_store::Snapshot;
use op_trace::Port;

impl Core {
    // A goal with a box is invoked.
    pub(crate) fn invoke(&mut self, goal: Ref, rest: u64) -> Result<Step, Memory>
        requires good { IsGood self.old }
        requires there { HasItems self.old rest }
        requires goal { HasGoal self.old goal }
        requires fits { CanGrow self.old.events }
        requires calls { CanGrow self.old.calls }
        ensures advances { IfOk result (Advances self.old self.new (box_invoked self.old goal rest)) }
        ensures keeps { Keeps self.old self.new }
    {
        let call = self.call_box(goal, rest)?;
        self.show_event(Port::Call, call, goal, rest);
        let clauses = self.clauses_of(goal)?;
        let kind = self.last_kind(&clauses, call, goal);
        self.push_choice_point(kind, goal, rest)?;
        self.enter_box(clauses, call, goal, rest)?;
        Ok(Step::Event)
    }

    // A box is called before a continuation, and gets the next number.
    fn call_box(&mut self, goal: Ref, rest: u64) -> Result<u64, Memory>
        requires good { IsGood self.old }
        requires there { HasItems self.old rest }
        requires calls { CanGrow self.old.calls }
        ensures number { IfOk result (λ k. k ≡ self.old.calls + 1) }
        ensures called { IfOk result (λ k. HasCalled self.new k goal rest) }
        ensures choices { self.new.frames.choices ≡ self.old.frames.choices }
        ensures good { OnOk result (IsGood self.new) }
        ensures calls { OnOk result (self.new.calls ≡ self.old.calls + 1) }
        ensures rest { self.new ≡ record self.old { calls = self.new.calls; frames = self.new.frames } }
    {
        self.calls += 1;
        let number = self.calls;
        let parent = self.continuations.parent(rest);
        let mark = self.bindings.mark();
        self.frames.push_box(number, parent, goal, mark)?;
        Ok(number)
    }

    // What the choice point of a box does, below those of its alternatives: that of catch/3 may catch a ball.
    fn last_kind(&self, clauses: &Option<Snapshot>, call: u64, goal: Ref) -> ChoiceKind
        requires goal { HasGoal self.now goal }
        requires inside { inside (database_of self.now.store) (goal_now self.now goal)
            ≡ inside_snapshot self.now.store clauses.now (goal_now self.now goal) }
        ensures last { (n : ℕ) → choice_point_by self.now.store (level_in self.now) result goal n
            ≡ last_choice (inside (database_of self.now.store) (goal_now self.now goal)) call (goal_now self.now goal)
            (bindings_now self.now) (items_now self.now n) }
        ensures kind { IsKind (length self.now.store.names) self.now.bindings.terms goal result }
        ensures tried { (n : ℕ) → HasCalled self.now call goal n
            → IsTried self.now.frames.boxes self.now.calls self.now.continuations result goal n }
    {
        match clauses {
            Some(_) => ChoiceKind::Fail { call },
            None => self.last_kind_alone(call, goal),
        }
    }

    // The same for a goal without a procedure.
    fn last_kind_alone(&self, call: u64, goal: Ref) -> ChoiceKind
        requires goal { HasGoal self.now goal }
        ensures last { (n : ℕ) → choice_point_by self.now.store (level_in self.now) result goal n
            ≡ last_choice (inside_procedure None (goal_now self.now goal)) call (goal_now self.now goal)
            (bindings_now self.now) (items_now self.now n) }
        ensures kind { IsKind (length self.now.store.names) self.now.bindings.terms goal result }
        ensures tried { (n : ℕ) → HasCalled self.now call goal n
            → IsTried self.now.frames.boxes self.now.calls self.now.continuations result goal n }
    {
        if is_catch_goal(&self.store, self.bindings.outline(&goal)) {
            ChoiceKind::Catch { call }
        } else {
            ChoiceKind::Fail { call }
        }
    }

    // The exit of a box, which is redone when the machine comes back to it.
    pub(crate) fn exit_box(&mut self, call: u64, goal: Ref, rest: u64) -> Result<Step, Memory>
        requires good { IsGood self.old }
        requires there { HasItems self.old rest }
        requires goal { HasGoal self.old goal }
        requires fits { CanGrow self.old.events }
        ensures advances { IfOk result (Advances self.old self.new (exit_moved self.old call goal rest)) }
        ensures keeps { Keeps self.old self.new }
    {
        self.show_event(Port::Exit, call, goal, rest);
        self.push_choice_point(ChoiceKind::Redo { call }, goal, rest)?;
        self.mode = Mode::Forward { items: rest };
        Ok(Step::Event)
    }

    // A box is entered again, or has failed: an event, and the machine goes on back.
    pub(crate) fn show_and_go_back(&mut self, port: Port, call: u64, goal: Ref, rest: u64) -> Step
        requires good { IsGood self.old }
        requires there { HasItems self.old rest }
        requires goal { HasGoal self.old goal }
        requires fits { CanGrow self.old.events }
        ensures advances { Advances self.old self.new (showing port call (goal_now self.old goal) (bindings_now self.old)
            (items_now self.old rest) (world_in self.old)
            (Backward (choice_points_in self.old) (with_event (world_in self.old)))) result }
        ensures keeps { Keeps self.old self.new }
    {
        self.show_event(port, call, goal, rest);
        self.mode = Mode::Backward;
        Step::Event
    }

    // Shows an event of a box with these items behind it.
    pub(crate) fn show_event(&mut self, port: Port, call: u64, goal: Ref, rest: u64)
        requires there { HasItems self.old rest }
        requires fits { CanGrow self.old.events }
        ensures seen { event_seen self.old.store self.old.bindings self.new.seen
            ≡ event_of port call (goal_now self.old goal) (bindings_now self.old) (items_now self.old rest) (world_in self.old) }
        ensures goal { self.new.seen.goal ≡ goal }
        ensures rest { self.new ≡ record self.old { events = self.old.events + 1; seen = self.new.seen } }
    {
        self.events += 1;
        self.seen = Seen {
            chrono: self.events,
            call,
            parent: self.continuations.parent(rest),
            depth: self.continuations.depth(rest) + 1,
            port,
            goal,
        };
    }
}
