//! The builtins on terms, as the execution of a goal calls them.

ghost use Rattle.std.specs.Prelude.{◌≡◌, ◌<◌, ◌≤◌, ℕ, List, length, map, take, IfOk, OnOk, All};
ghost use Rattle.std.specs.Bool.{OnTrue, OnFalse};
ghost use Rattle.op_logic.specs.Term.{args_of, arity};
ghost use Rattle.op_term.specs.Places.{term_at};
ghost use Rattle.op_term.specs.Arguments.{args_list};
ghost use Rattle.op_inspect.specs.Inspected.{act_on_terms};
ghost use Rattle.op_machine.specs.Meaning.{world_in, goal_now, items_now, bindings_now, choice_points_in};
ghost use Rattle.op_machine.specs.inner.BuiltinKinds.{IsOnTerms};
ghost use Rattle.op_machine.specs.inner.Inspection.{IsFit, IsMade, HasAsked, success, settled, exit_next};
ghost use Rattle.op_bind.specs.State.{IsGoodMark};
ghost use Rattle.op_machine.specs.inner.Invariant.{IsGood, HasItems, HasGoal, HasCalled};
ghost use Rattle.op_machine.specs.inner.Moves.{Keeps, Advances, KeepsProgram, Proceeds, act_moved, steps_left};
ghost use Rattle.op_machine.specs.declared.core_state.Mode.TheVariants as mode;
ghost use Rattle.op_machine.specs.declared.core_state.Outcome.TheVariants as outcome;
ghost use Rattle.op_machine.specs.declared.core_state.Step.TheVariants as step;

use crate::continuations::Item;
use crate::core_state::{Core, Mode, Outcome as Ended, Step};
use op_base::Memory;
use op_bind::{Bindings, Mark, Ref};
use op_inspect::{Outcome, inspect};
use op_store::Borrower;
use op_term::{Fuel, Sym, Symbols, WalkFault};
use smallvec::SmallVec;
use std::mem;

/// A builtin with its arguments, which takes the bindings and the steps that are left along.
#[derive(Drop)]
pub struct Inspection {
    pub name: Sym,
    pub args: SmallVec<Ref, 3>,
    pub bindings: Bindings,
    pub fuel: Fuel,
}

/// How it answers, with the bindings and the steps that are left then.
#[derive(Drop)]
pub struct Inspected {
    pub answer: Result<Outcome, WalkFault>,
    pub bindings: Bindings,
    pub fuel: Fuel,
}

impl Borrower for Inspection {
    type Out = Inspected;

    ghost wants = { λ i names. IsFit i names };

    ghost makes = { λ i names more r. IsMade i names more r };

    fn borrow(self, symbols: &mut Symbols) -> Inspected {
        let Inspection {
            name,
            args,
            mut bindings,
            mut fuel,
        } = self;
        let answer = inspect(name, &args, symbols, &mut bindings, &mut fuel);
        Inspected {
            answer,
            bindings,
            fuel,
        }
    }
}

// The arguments of a goal that has so many.
fn arguments_of(bindings: &Bindings, goal: Ref, count: u64) -> Result<SmallVec<Ref, 3>, Memory>
    requires goal { goal < length bindings.now.terms }
    requires count { count ≡ arity (args_of (term_at bindings.now.terms goal)) }
    ensures there { IfOk result (λ args. All (λ r. r < length bindings.now.terms) args.items) }
    ensures terms { IfOk result (λ args. map (term_at bindings.now.terms) args.items
        ≡ args_list (args_of (term_at bindings.now.terms goal))) }
{
    let mut args = SmallVec::new(bindings.alloc());
    for i in 0..count {
        args.push(bindings.argument(&goal, i))?;
    }
    Ok(args)
}

fn is_success(answer: &Result<Outcome, WalkFault>) -> bool
    ensures { result ≡ success answer.now }
{
    match answer {
        Ok(Outcome::Yes) => true,
        Ok(Outcome::No) => false,
        Ok(Outcome::Throw(_)) => false,
        Err(_) => false,
    }
}

// Bindings that were made since a mark are undone where there is no success.
fn settle(bindings: &mut Bindings, success: bool, mark: Mark)
    requires { IsGoodMark bindings.old mark }
    ensures { bindings.new ≡ settled success bindings.old mark }
{
    if !success {
        bindings.undo_to(mark);
    }
}

// How many variables were given out.
fn given_out(bindings: &mut Bindings) -> Result<u64, Memory>
    ensures count { IfOk result (λ n. n ≡ bindings.old.count) }
    ensures same { bindings.new ≡ bindings.old }
{
    bindings.fresh(0)
}

impl Core {
    // A goal of one of the builtins on terms is executed.
    pub(crate) fn inspect_goal(
        &mut self,
        name: Sym,
        count: u64,
        call: u64,
        goal: Ref,
        rest: u64,
    ) -> Result<Step, Memory>
        requires good { IsGood self.old }
        requires steps { self.old.steps ≤ self.old.budget }
        requires there { HasItems self.old rest }
        requires goal { HasGoal self.old goal }
        requires called { HasCalled self.old call goal rest }
        requires builtin { IsOnTerms self.old.store name count (term_at self.old.bindings.terms goal) }
        ensures advances { IfOk result (Proceeds self.old self.new (act_moved self.old
            (act_on_terms (steps_left self.old) (goal_now self.old goal) (bindings_now self.old) (world_in self.old))
            call goal rest)) }
        ensures keeps { KeepsProgram self.old self.new }
    {
        let before = given_out(&mut self.bindings)?;
        match self.ask(name, count, goal) {
            Ok(Outcome::Yes) => {
                self.succeed(call, goal, rest)?;
                Ok(Step::Silent)
            }
            Ok(Outcome::No) => {
                self.mode = Mode::Backward;
                Ok(Step::Silent)
            }
            Ok(Outcome::Throw(ball)) => {
                self.ball = Some(ball);
                self.mode = Mode::Throwing { inner: call };
                Ok(Step::Silent)
            }
            Err(WalkFault::Spent) => {
                self.interrupt(before);
                Ok(Step::Silent)
            }
            Err(WalkFault::Memory) => Err(Memory),
        }
    }

    // The builtin is called with the arguments of its goal, the program's names and the steps that are left. Where it doesn't succeed,
    // what it bound is undone.
    fn ask(&mut self, name: Sym, count: u64, goal: Ref) -> Result<Outcome, WalkFault>
        requires good { IsGood self.old }
        requires steps { self.old.steps ≤ self.old.budget }
        requires goal { HasGoal self.old goal }
        requires builtin { IsOnTerms self.old.store name count (term_at self.old.bindings.terms goal) }
        ensures asked { HasAsked self.old self.new goal result }
    {
        let Ok(args) = arguments_of(&self.bindings, goal, count) else {
            return Err(WalkFault::Memory);
        };
        let mark = self.bindings.mark();
        let alloc = self.bindings.alloc();
        let bindings = mem::replace(&mut self.bindings, Bindings::new(alloc));
        let fuel = Fuel::new(self.budget - self.steps);
        let inspected = self.store.lend(Inspection {
            name,
            args,
            bindings,
            fuel,
        });
        let Inspected {
            answer,
            bindings,
            fuel,
        } = inspected;
        self.bindings = bindings;
        self.steps = self.budget - fuel.left();
        settle(&mut self.bindings, is_success(&answer), mark);
        answer
    }

    // A builtin has succeeded: the exit of its box comes next.
    fn succeed(&mut self, call: u64, goal: Ref, rest: u64) -> Result<(), Memory>
        requires good { IsGood self.old }
        requires there { HasItems self.old rest }
        requires goal { HasGoal self.old goal }
        requires called { HasCalled self.old call goal rest }
        ensures advances { OnOk result (Advances self.old self.new (exit_next self.old call goal rest) step.Silent) }
        ensures keeps { Keeps self.old self.new }
    {
        let items = self.add(Item::Exit { call, goal }, rest)?;
        self.mode = Mode::Forward { items };
        Ok(())
    }

    // The budget is spent within a builtin, before which so many variables had been given out.
    fn interrupt(&mut self, variables: u64)
        ensures { self.new ≡ record self.old {
          steps = self.old.budget;
          mode = mode.Over (outcome.Interrupted variables);
        } }
    {
        self.steps = self.budget;
        self.mode = Mode::Over {
            outcome: Ended::Interrupted { variables },
        };
    }
}
