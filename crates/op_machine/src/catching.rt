ghost use Rattle.std.specs.Prelude.{◌≡◌, ◌<◌, ◌≤◌, length, IfOk, Ok, Err, Some, None};
ghost use Rattle.op_logic.specs.Term.{IsWithin};
ghost use Rattle.op_term.specs.Places.{term_at};
ghost use Rattle.op_bind.specs.Grown.{Grows};
ghost use Rattle.op_bind.specs.State.{bindings};
ghost use Rattle.op_bind.specs.Unified.{unified};
ghost use Rattle.op_machine.specs.inner.Invariant.{IsGood, HasItems, HasGoal, HasCalled, HasRecovery, CanGrow};
ghost use Rattle.op_machine.specs.inner.Leaving.{box_met};
ghost use Rattle.op_machine.specs.inner.Moves.{Keeps, Advances, recovery_moved};

use crate::choice_points::ChoiceKind;
use crate::continuations::Item;
use crate::core_state::{Core, Mode, Step};
use crate::goal_kind::names_law;
use op_base::Memory;
use op_bind::{Bindings, Ref, Unified};
use op_term::{Fuel, Term, WalkFault};

// A ball is brought in, its variables with the numbers that they have, and unified with a term. Where that can't be, all is as it was.
fn unify_ball(
    terms: &mut Bindings,
    ball: &Term,
    catcher: &Ref,
    fuel: &mut Fuel,
) -> Result<Unified, WalkFault>
    requires ball { IsWithin terms.old.count ball.now }
    requires catcher { catcher.now < length terms.old.terms }
    ensures yes { result ≡ Ok Unified.Yes → unified fuel.old terms.old ball.now (term_at terms.old.terms catcher.now)
        ≡ Some (Some (bindings terms.new), fuel.new) }
    ensures no { result ≡ Ok Unified.No → unified fuel.old terms.old ball.now (term_at terms.old.terms catcher.now)
        ≡ Some (None, fuel.new) }
    ensures spent { result ≡ Err WalkFault.Spent → unified fuel.old terms.old ball.now (term_at terms.old.terms catcher.now) ≡ None }
    ensures kept { result ≡ Ok Unified.No → terms.new ≡ terms.old }
    ensures still { result ≡ Err WalkFault.Spent → terms.new ≡ terms.old }
    ensures count { terms.new.count ≡ terms.old.count }
    ensures grows { Grows terms.old terms.new }
    ensures falls { fuel.new ≤ fuel.old }
{
    let mark = terms.mark();
    let ball = terms.load(ball, 0)?;
    match terms.unify(&ball, catcher, fuel) {
        Ok(Unified::Yes) => Ok(Unified::Yes),
        Ok(Unified::No) => {
            terms.undo_to(mark);
            Ok(Unified::No)
        }
        Err(fault) => {
            terms.undo_to(mark);
            Err(fault)
        }
    }
}

impl Core {
    // A ball comes to a box that may catch it, under the bindings at its call: where it is unified with the catcher, the recovery comes
    // next in the box, which catches nothing any more; else the box shows the ball.
    pub(crate) fn meet_ball(
        &mut self,
        call: u64,
        goal: Ref,
        rest: u64,
        around: u64,
    ) -> Result<Step, Memory>
        requires good { IsGood self.old }
        requires fits { CanGrow self.old.events }
        requires steps { self.old.steps ≤ self.old.budget }
        requires there { HasItems self.old rest }
        requires goal { HasGoal self.old goal }
        requires recovery { HasRecovery self.old.bindings.terms goal }
        requires called { HasCalled self.old call goal rest }
        ensures advances { IfOk result (Advances self.old self.new (box_met self.old call goal rest around)) }
        ensures keeps { Keeps self.old self.new }
    {
        names_law(&self.store);
        let own = self.choice_now(ChoiceKind::Fail { call }, goal, rest);
        let catcher = self.bindings.argument(&goal, 1);
        let mut fuel = Fuel::new(self.budget - self.steps);
        let Some(ball) = &self.ball else {
            return Err(Memory);
        };
        match unify_ball(&mut self.bindings, ball, &catcher, &mut fuel) {
            Ok(Unified::Yes) => {
                self.steps = self.budget - fuel.left();
                self.frames.push_choice(own)?;
                self.recover(call, goal, rest)
            }
            Ok(Unified::No) => {
                self.steps = self.budget - fuel.left();
                Ok(self.show_and_go_up(call, goal, rest, around))
            }
            Err(WalkFault::Spent) => {
                self.run_out();
                Ok(Step::Silent)
            }
            Err(WalkFault::Memory) => Err(Memory),
        }
    }

    // The recovery of a box comes next: a step.
    fn recover(&mut self, call: u64, goal: Ref, rest: u64) -> Result<Step, Memory>
        requires good { IsGood self.old }
        requires steps { self.old.steps ≤ self.old.budget }
        requires there { HasItems self.old rest }
        requires goal { HasGoal self.old goal }
        requires recovery { HasRecovery self.old.bindings.terms goal }
        requires called { HasCalled self.old call goal rest }
        ensures advances { IfOk result (Advances self.old self.new (recovery_moved self.old call goal rest)) }
        ensures keeps { Keeps self.old self.new }
    {
        if !self.spend() {
            return Ok(Step::Silent);
        }
        let items = self.add(Item::Recover { call, goal }, rest)?;
        self.mode = Mode::Forward { items };
        Ok(Step::Silent)
    }
}
