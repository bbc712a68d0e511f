ghost use Rattle.std.specs.Prelude.{◌≡◌, ◌<◌, ◌≤◌, ◌∷◌, codes, IfOk, OnOk};
ghost use Rattle.op_logic.specs.Term.{args_of, arity, nth_arg, atom};
ghost use Rattle.op_term.specs.Places.{term_at};
ghost use Rattle.op_trace.specs.declared.barrier.Barrier.TheVariants.{InCondition, AtSuccess};
ghost use Rattle.op_trace.specs.World.{Goal, Cut};
ghost use Rattle.op_trace.specs.Visit.{IfThenElse, control_of_disjunction};
ghost use Rattle.op_machine.specs.Meaning.{world_in, items_now, goal_now, bindings_now, choice_points_in};
ghost use Rattle.op_machine.specs.inner.Invariant.{IsGood, Fits, HasItems, HasGoal, CanGrow};
ghost use Rattle.op_machine.specs.Program.{goal_named};
ghost use Rattle.op_machine.specs.Resume.{chosen, silent, Forward};
ghost use Rattle.op_machine.specs.inner.Moves.{Keeps, Advances, branch_tried, disjunction_before, if_then_else_before, chosen_now};
ghost use Rattle.op_machine.specs.inner.Moves.{goal_moved, conjunction_before};
ghost use Rattle.op_machine.specs.declared.core_state.Step.TheVariants as step;

use crate::choice_points::ChoiceKind;
use crate::continuations::Item;
use crate::core_state::{Core, Mode, Step};
use crate::goal_kind::{GoalKind, is_if_then, kind_of, names_law};
use op_base::Memory;
use op_bind::Ref;
use op_trace::Barrier;

impl Core {
    // A goal is selected.
    pub(crate) fn select(&mut self, goal: Ref, barrier: Barrier, rest: u64) -> Result<Step, Memory>
        requires good { IsGood self.old }
        requires fits { Fits self.old }
        requires there { HasItems self.old rest }
        requires goal { HasGoal self.old goal }
        ensures advances { IfOk result (Advances self.old self.new (goal_moved self.old (goal_now self.old goal) barrier rest)) }
        ensures keeps { Keeps self.old self.new }
    {
        if !self.spend() {
            return Ok(Step::Silent);
        }
        self.execute(goal, barrier, rest)
    }

    // A goal of which the step was paid.
    fn execute(&mut self, goal: Ref, barrier: Barrier, rest: u64) -> Result<Step, Memory>
        requires good { IsGood self.old }
        requires fits { Fits self.old }
        requires there { HasItems self.old rest }
        requires goal { HasGoal self.old goal }
        ensures advances { IfOk result (Advances self.old self.new
            (chosen_now self.old (goal_now self.old goal) barrier rest (world_in self.old))) }
        ensures keeps { Keeps self.old self.new }
    {
        match kind_of(&self.store, self.bindings.outline(&goal)) {
            GoalKind::True => {
                self.mode = Mode::Forward { items: rest };
                Ok(Step::Silent)
            }
            GoalKind::Fail => {
                self.mode = Mode::Backward;
                Ok(Step::Silent)
            }
            GoalKind::Cut => {
                self.make_cut(barrier);
                self.mode = Mode::Forward { items: rest };
                Ok(Step::Silent)
            }
            GoalKind::Conjunction => {
                self.select_conjunction(goal, barrier, rest)?;
                Ok(Step::Silent)
            }
            GoalKind::Disjunction => {
                self.select_disjunction(goal, barrier, rest)?;
                Ok(Step::Silent)
            }
            GoalKind::IfThen => {
                self.select_if_then(goal, barrier, rest)?;
                Ok(Step::Silent)
            }
            GoalKind::Boxed => self.invoke(goal, rest),
        }
    }

    // Both goals of a conjunction come next.
    fn select_conjunction(&mut self, goal: Ref, barrier: Barrier, rest: u64) -> Result<(), Memory>
        requires good { IsGood self.old }
        requires there { HasItems self.old rest }
        requires goal { HasGoal self.old goal }
        requires two { arity (args_of (term_at self.old.bindings.terms goal)) ≡ 2 }
        ensures advances { OnOk result (Advances self.old self.new
            (silent (Forward (conjunction_before self.old goal barrier rest) (choice_points_in self.old) (bindings_now self.old)
            (world_in self.old))) step.Silent) }
        ensures keeps { Keeps self.old self.new }
    {
        let first = self.bindings.argument(&goal, 0);
        let second = self.bindings.argument(&goal, 1);
        let tail = self.add(
            Item::Goal {
                goal: second,
                barrier,
            },
            rest,
        )?;
        let items = self.add(
            Item::Goal {
                goal: first,
                barrier,
            },
            tail,
        )?;
        self.mode = Mode::Forward { items };
        Ok(())
    }

    // A disjunction: an if-then-else, or two branches.
    pub(crate) fn select_disjunction(
        &mut self,
        goal: Ref,
        barrier: Barrier,
        rest: u64,
    ) -> Result<(), Memory>
        requires good { IsGood self.old }
        requires there { HasItems self.old rest }
        requires goal { HasGoal self.old goal }
        requires two { arity (args_of (term_at self.old.bindings.terms goal)) ≡ 2 }
        requires conditions { CanGrow self.old.conditions }
        ensures advances { OnOk result (Advances self.old self.new (chosen
            (control_of_disjunction (goal_named self.old.store (nth_arg (args_of (term_at self.old.bindings.terms goal)) 0))
            (goal_named self.old.store (nth_arg (args_of (term_at self.old.bindings.terms goal)) 1)))
            (goal_now self.old goal) barrier (items_now self.old rest) (choice_points_in self.old) (bindings_now self.old)
            (world_in self.old)) step.Silent) }
        ensures keeps { Keeps self.old self.new }
    {
        let first = self.bindings.argument(&goal, 0);
        let second = self.bindings.argument(&goal, 1);
        if is_if_then(&self.store, self.bindings.outline(&first)) {
            let condition = self.bindings.argument(&first, 0);
            let then = self.bindings.argument(&first, 1);
            self.select_if_then_else(condition, then, second, barrier, rest)
        } else {
            self.select_branches(first, second, barrier, rest)
        }
    }

    // Two branches: the first comes next, and the second is kept as a choice point.
    fn select_branches(
        &mut self,
        first: Ref,
        second: Ref,
        barrier: Barrier,
        rest: u64,
    ) -> Result<(), Memory>
        requires good { IsGood self.old }
        requires there { HasItems self.old rest }
        requires first { HasGoal self.old first }
        requires second { HasGoal self.old second }
        ensures advances { OnOk result (Advances self.old self.new (disjunction_before self.old first second barrier rest) step.Silent) }
        ensures keeps { Keeps self.old self.new }
    {
        self.push_choice_point(ChoiceKind::Branch { barrier }, second, rest)?;
        let items = self.add(
            Item::Goal {
                goal: first,
                barrier,
            },
            rest,
        )?;
        self.mode = Mode::Forward { items };
        Ok(())
    }

    // An if-then, which fails where its condition has no solution.
    pub(crate) fn select_if_then(
        &mut self,
        goal: Ref,
        barrier: Barrier,
        rest: u64,
    ) -> Result<(), Memory>
        requires good { IsGood self.old }
        requires there { HasItems self.old rest }
        requires goal { HasGoal self.old goal }
        requires two { arity (args_of (term_at self.old.bindings.terms goal)) ≡ 2 }
        requires conditions { CanGrow self.old.conditions }
        ensures advances { OnOk result (Advances self.old self.new (chosen
            (IfThenElse (goal_named self.old.store (nth_arg (args_of (term_at self.old.bindings.terms goal)) 0))
            (goal_named self.old.store (nth_arg (args_of (term_at self.old.bindings.terms goal)) 1)) (atom (codes "fail")))
            (goal_now self.old goal) barrier (items_now self.old rest) (choice_points_in self.old) (bindings_now self.old)
            (world_in self.old)) step.Silent) }
        ensures keeps { Keeps self.old self.new }
    {
        names_law(&self.store);
        let condition = self.bindings.argument(&goal, 0);
        let then = self.bindings.argument(&goal, 1);
        self.select_if_then_else(condition, then, self.failure, barrier, rest)
    }

    // A condition comes next, and the cut of its success behind it; the else branch is kept as a choice point.
    fn select_if_then_else(
        &mut self,
        condition: Ref,
        then: Ref,
        otherwise: Ref,
        barrier: Barrier,
        rest: u64,
    ) -> Result<(), Memory>
        requires good { IsGood self.old }
        requires there { HasItems self.old rest }
        requires condition { HasGoal self.old condition }
        requires then { HasGoal self.old then }
        requires otherwise { HasGoal self.old otherwise }
        requires conditions { CanGrow self.old.conditions }
        ensures advances { OnOk result (Advances self.old self.new (if_then_else_before self.old condition then otherwise barrier rest)
            step.Silent) }
        ensures keeps { Keeps self.old self.new }
    {
        self.conditions += 1;
        let number = self.conditions;
        self.push_choice_point(ChoiceKind::Condition { number, barrier }, otherwise, rest)?;
        let items = self.add_condition(number, condition, then, barrier, rest)?;
        self.mode = Mode::Forward { items };
        Ok(())
    }

    // A condition with its number, the cut of its success and what follows it, before a continuation.
    fn add_condition(
        &mut self,
        number: u64,
        condition: Ref,
        then: Ref,
        barrier: Barrier,
        rest: u64,
    ) -> Result<u64, Memory>
        requires good { IsGood self.old }
        requires there { HasItems self.old rest }
        requires condition { HasGoal self.old condition }
        requires then { HasGoal self.old then }
        ensures within { IfOk result (λ n. HasItems self.new n) }
        ensures items { IfOk result (λ n. items_now self.new n
            ≡ Goal (goal_now self.old condition) (InCondition number) ∷ Cut (AtSuccess number) ∷ Goal (goal_now self.old then)
            barrier ∷ items_now self.old rest) }
        ensures choices { OnOk result (choice_points_in self.new ≡ choice_points_in self.old) }
        ensures good { OnOk result (IsGood self.new) }
        ensures rest { self.new ≡ record self.old { continuations = self.new.continuations } }
    {
        let tail = self.add(
            Item::Goal {
                goal: then,
                barrier,
            },
            rest,
        )?;
        let cut = self.add(
            Item::Cut {
                barrier: Barrier::AtSuccess(number),
            },
            tail,
        )?;
        self.add(
            Item::Goal {
                goal: condition,
                barrier: Barrier::InCondition(number),
            },
            cut,
        )
    }

    // Another branch is tried: a step, and its goal.
    pub(crate) fn try_branch(
        &mut self,
        goal: Ref,
        barrier: Barrier,
        rest: u64,
    ) -> Result<Step, Memory>
        requires good { IsGood self.old }
        requires there { HasItems self.old rest }
        requires goal { HasGoal self.old goal }
        requires steps { self.old.steps ≤ self.old.budget }
        ensures advances { IfOk result (Advances self.old self.new (branch_tried self.old goal barrier rest)) }
        ensures keeps { Keeps self.old self.new }
    {
        if !self.spend() {
            return Ok(Step::Silent);
        }
        let items = self.add(Item::Goal { goal, barrier }, rest)?;
        self.mode = Mode::Forward { items };
        Ok(Step::Silent)
    }
}
