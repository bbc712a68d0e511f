ghost use Rattle.std.specs.Prelude.{◌≡◌, ◌<◌, ◌≤◌, ◌^◌, length, IfOk, OnOk};
ghost use Rattle.op_machine.specs.Meaning.{items_now, goal_now, bindings_now, choice_points_in, state_of};
ghost use Rattle.op_machine.specs.inner.Invariant.{IsGood, HasItems, HasGoal, HasCalled};
ghost use Rattle.op_machine.specs.inner.Moves.{Keeps, Advances, clause_unified, clause_tried, clauses_tried, body_entered, body_before};
ghost use Rattle.op_machine.specs.inner.Moves.{box_entered};
ghost use Rattle.op_machine.specs.Program.{inside_snapshot, AreKnown, IsKnown};
ghost use Rattle.op_store.specs.Stored.{database_of};
ghost use Rattle.op_trace.specs.Visit.{inside};
ghost use Rattle.op_store.specs.Snapshots.{snapshot_clauses};
ghost use Rattle.op_trace.specs.Visit.{is_true};
ghost use Rattle.op_logic.specs.Term.{Term};
ghost use Rattle.op_term.specs.Head.{head};
ghost use Rattle.op_store.specs.NumberedProcedures.{pi_of as the_pi};
ghost use Rattle.op_machine.specs.declared.core_state.Step.TheVariants as step;

use crate::continuations::Item;
use crate::core_state::{Core, Mode, Step};
use crate::goal_kind::{is_true_atom, names_law};
use op_base::Memory;
use op_bind::{Clause, Ref};
use op_store::{Pi, Snapshot};
use op_term::{Fuel, Node, WalkFault};
use op_trace::Barrier;

/// The procedure that a term with this outermost node is a goal of; None for a variable or an integer.
#[tactic(auto, using(crate::proofs::ProcedureOf::pi_head))]
pub(crate) fn pi_of(node: Node) -> Option<Pi>
    ensures { (t : Term _) → head t ≡ node → result ≡ the_pi t }
{
    match node {
        Node::Var(_) => None,
        Node::Int(_) => None,
        Node::Atom(name) => Some(Pi { name, arity: 0 }),
        Node::Struct(name, arity) => Some(Pi { name, arity }),
    }
}

// A law for proofs: the places of a snapshot's clauses can be counted.
fn places_law(snapshot: &Snapshot)
    ensures { length snapshot.now < 2 ^ 64 }
{
    let _ = snapshot.len();
}

impl Core {
    // A box is entered: the clauses of its goal's procedure are tried by going back to them, and a goal without a procedure is executed.
    pub(crate) fn enter_box(
        &mut self,
        clauses: Option<Snapshot>,
        call: u64,
        goal: Ref,
        rest: u64,
    ) -> Result<(), Memory>
        requires good { IsGood self.old }
        requires there { HasItems self.old rest }
        requires goal { HasGoal self.old goal }
        requires called { HasCalled self.old call goal rest }
        requires inside { inside (database_of self.old.store) (goal_now self.old goal)
            ≡ inside_snapshot self.old.store clauses (goal_now self.old goal) }
        requires known { AreKnown (length self.old.store.names) (snapshot_clauses clauses) }
        ensures state { OnOk result (state_of self.new ≡ box_entered self.old call goal rest) }
        ensures good { OnOk result (IsGood self.new) }
        ensures rest { OnOk result (self.new ≡ record self.old {
          frames = self.new.frames;
          continuations = self.new.continuations;
          mode = self.new.mode;
        }) }
        ensures keeps { Keeps self.old self.new }
    {
        match clauses {
            Some(snapshot) => {
                self.push_more(&snapshot, 0, call, goal, rest)?;
                self.mode = Mode::Backward;
            }
            None => {
                let items = self.add(Item::Execute { call, goal }, rest)?;
                self.mode = Mode::Forward { items };
            }
        }
        Ok(())
    }

    // The clauses of a goal's procedure at this moment, or None where there is no such procedure.
    pub(crate) fn clauses_of(&self, goal: Ref) -> Result<Option<Snapshot>, Memory>
        requires { HasGoal self.now goal }
        ensures inside { IfOk result (λ o. inside (database_of self.now.store) (goal_now self.now goal)
            ≡ inside_snapshot self.now.store o (goal_now self.now goal)) }
        ensures known { IfOk result (λ o. AreKnown (length self.now.store.names) (snapshot_clauses o)) }
    {
        match pi_of(self.bindings.outline(&goal)) {
            Some(pi) => Ok(self.store.snapshot(pi)?),
            None => Ok(None),
        }
    }

    // One of some clauses is tried, and those behind it are kept as a choice point.
    pub(crate) fn try_clauses(
        &mut self,
        snapshot: &Snapshot,
        next: u64,
        call: u64,
        goal: Ref,
        rest: u64,
    ) -> Result<Step, Memory>
        requires good { IsGood self.old }
        requires there { HasItems self.old rest }
        requires goal { HasGoal self.old goal }
        requires here { next < length snapshot.now }
        requires known { AreKnown (length self.old.store.names) snapshot.now }
        requires called { HasCalled self.old call goal rest }
        requires steps { self.old.steps ≤ self.old.budget }
        ensures advances { IfOk result (Advances self.old self.new (clauses_tried self.old snapshot.now next call goal rest)) }
        ensures keeps { Keeps self.old self.new }
    {
        places_law(snapshot);
        self.push_more(snapshot, next + 1, call, goal, rest)?;
        self.try_clause(snapshot.clause(next), call, goal, rest)
    }

    // A clause for the goal of a box is tried: a step, and those of the head.
    fn try_clause(
        &mut self,
        clause: &Clause,
        call: u64,
        goal: Ref,
        rest: u64,
    ) -> Result<Step, Memory>
        requires good { IsGood self.old }
        requires there { HasItems self.old rest }
        requires goal { HasGoal self.old goal }
        requires known { IsKnown (length self.old.store.names) clause.now }
        requires called { HasCalled self.old call goal rest }
        requires steps { self.old.steps ≤ self.old.budget }
        ensures advances { IfOk result (Advances self.old self.new (clause_tried self.old clause.now call goal rest)) }
        ensures keeps { Keeps self.old self.new }
    {
        if !self.spend() {
            return Ok(Step::Silent);
        }
        self.unify_head(clause, call, goal, rest)
    }

    // A clause's head is unified with the goal; where they match, its body comes next.
    fn unify_head(
        &mut self,
        clause: &Clause,
        call: u64,
        goal: Ref,
        rest: u64,
    ) -> Result<Step, Memory>
        requires good { IsGood self.old }
        requires there { HasItems self.old rest }
        requires goal { HasGoal self.old goal }
        requires known { IsKnown (length self.old.store.names) clause.now }
        requires called { HasCalled self.old call goal rest }
        requires steps { self.old.steps ≤ self.old.budget }
        ensures advances { IfOk result (Advances self.old self.new (clause_unified self.old clause.now call goal rest)) }
        ensures keeps { Keeps self.old self.new }
    {
        names_law(&self.store);
        let mut fuel = Fuel::new(self.budget - self.steps);
        match self.bindings.rename(clause, &goal, &mut fuel) {
            Ok(Some(body)) => {
                self.steps = self.budget - fuel.left();
                self.enter_body(body, call, goal, rest)?;
                Ok(Step::Silent)
            }
            Ok(None) => {
                self.steps = self.budget - fuel.left();
                self.mode = Mode::Backward;
                Ok(Step::Silent)
            }
            Err(WalkFault::Spent) => {
                self.run_out();
                Ok(Step::Silent)
            }
            Err(WalkFault::Memory) => Err(Memory),
        }
    }

    // A clause was matched: its body comes next, and then the exit of the box.
    fn enter_body(&mut self, body: Ref, call: u64, goal: Ref, rest: u64) -> Result<(), Memory>
        requires good { IsGood self.old }
        requires there { HasItems self.old rest }
        requires goal { HasGoal self.old goal }
        requires body { HasGoal self.old body }
        requires called { HasCalled self.old call goal rest }
        ensures advances { OnOk result (Advances self.old self.new (body_entered self.old body call goal rest) step.Silent) }
        ensures keeps { Keeps self.old self.new }
    {
        let exit = self.add(Item::Exit { call, goal }, rest)?;
        let items = self.add_body(body, call, exit)?;
        self.mode = Mode::Forward { items };
        Ok(())
    }

    // The body of a clause before a continuation: nothing for a fact.
    fn add_body(&mut self, body: Ref, call: u64, rest: u64) -> Result<u64, Memory>
        requires good { IsGood self.old }
        requires there { HasItems self.old rest }
        requires body { HasGoal self.old body }
        ensures within { IfOk result (λ n. HasItems self.new n) }
        ensures items { IfOk result (λ n. items_now self.new n ≡ body_before self.old body call (items_now self.old rest)) }
        ensures choices { OnOk result (choice_points_in self.new ≡ choice_points_in self.old) }
        ensures good { OnOk result (IsGood self.new) }
        ensures rest { self.new ≡ record self.old { continuations = self.new.continuations } }
    {
        if self.is_fact(body) {
            return Ok(rest);
        }
        self.add(
            Item::Goal {
                goal: body,
                barrier: Barrier::Call(call),
            },
            rest,
        )
    }

    // Whether a body is the atom `true`.
    fn is_fact(&self, body: Ref) -> bool
        requires { HasGoal self.now body }
        ensures { result ≡ is_true (goal_now self.now body) }
    {
        is_true_atom(&self.store, self.bindings.outline(&body))
    }
}
