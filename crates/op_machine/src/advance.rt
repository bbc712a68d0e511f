ghost use Rattle.std.specs.Prelude.{◌≡◌, ◌≤◌, ◌∷◌, length, IfOk, Some};
ghost use Rattle.op_machine.specs.Meaning.{world_in, level_in, items_now, bindings_now, choice_points_in, setup_of, state_of};
ghost use Rattle.op_machine.specs.Meaning.{choice_point_of, item_term, verdict_of};
ghost use Rattle.op_machine.specs.Machine.{ending_for, HasBallNames};
ghost use Rattle.op_trace.specs.Run.{ending_of};
ghost use Rattle.op_machine.specs.inner.Invariant.{IsGood, IsItem, IsFrame, IsBall, IsSound, Fits, HasItems, CanGrow};
ghost use Rattle.op_machine.specs.inner.Moves.{Keeps, Advances, KeepsProgram, Proceeds};
ghost use Rattle.op_machine.specs.inner.Boxes.{IsTried, IsEntered};
ghost use Rattle.op_machine.specs.Resume.{Forward, move, Backward, at_solution};
ghost use Rattle.op_machine.specs.inner.Turns.{Turned};
ghost use Rattle.op_machine.specs.declared.core_state.Mode.TheVariants as mode;

use crate::choice_points::{Alternative, ChoiceKind};
use crate::continuations::Item;
use crate::core_state::{Core, Mode, Outcome, Step};
use crate::turn::{Ending, Turn};
use op_base::Memory;
use op_frames::Choice;
use op_term::Term;
use op_trace::Port;

// A copy of the ball that was thrown.
fn ball_copy(ball: &Option<Term>) -> Result<Term, Memory>
    ensures { IfOk result (λ b. ball.now ≡ Some b) }
{
    match ball {
        Some(ball) => Ok(ball.copy()?),
        None => Err(Memory),
    }
}

impl Core {
    // Small moves, up to the next turn or the ending.
    pub(crate) fn turn(&mut self) -> Result<Turn, Memory>
        requires { IsSound self.old }
        ensures turned { IfOk result (Turned self.old self.new) }
        ensures keeps { KeepsProgram self.old self.new }
    {
        loop {
            if let Mode::Over { outcome } = self.mode {
                return Ok(Turn::Ended(self.ending(outcome)?));
            }
            match self.advance()? {
                Step::Silent => {}
                Step::Event => return Ok(Turn::Event),
                Step::Solution => return Ok(Turn::Solution),
            }
        }
    }

    // An outcome as it is answered, with a copy of the ball.
    fn ending(&self, outcome: Outcome) -> Result<Ending, Memory>
        requires { IsBall (length self.now.store.names) self.now.bindings.count self.now.ball }
        ensures ending { IfOk result (λ e. ending_of (verdict_of self.now.store self.now.frames self.now.ball outcome)
            ≡ ending_for self.now.store.names e) }
        ensures names { IfOk result (λ e. HasBallNames (length self.now.store.names) e) }
    {
        match outcome {
            Outcome::Stopped => Ok(Ending::Stopped),
            Outcome::Failed => Ok(Ending::Failed),
            Outcome::Thrown { .. } => Ok(Ending::Thrown(ball_copy(&self.ball)?)),
            Outcome::Halted { status } => Ok(Ending::Halted(status)),
            Outcome::Spent => Ok(Ending::Spent),
            Outcome::Interrupted { .. } => Ok(Ending::Spent),
        }
    }

    // One small move.
    #[tactic(auto, using(crate::proofs::ProgramLaws::keeps_program, crate::proofs::ProgramLaws::proceeds, crate::proofs::ProgramLaws::answer_proceeds))]
    pub(crate) fn advance(&mut self) -> Result<Step, Memory>
        requires good { IsGood self.old }
        requires fits { Fits self.old }
        ensures advances { IfOk result (Proceeds self.old self.new (move (setup_of self.old) (state_of self.old))) }
        ensures keeps { KeepsProgram self.old self.new }
    {
        match self.mode {
            Mode::Forward { items } => self.forward(items),
            Mode::Backward => self.backward(),
            Mode::Throwing { inner } => self.leave_box(inner),
            Mode::Over { outcome: _ } => Ok(Step::Silent),
        }
    }

    // The first item of a continuation is done, or there is none.
    #[tactic(auto, using(crate::proofs::ProgramLaws::keeps_program, crate::proofs::ProgramLaws::proceeds, crate::proofs::ProgramLaws::answer_proceeds))]
    fn forward(&mut self, items: u64) -> Result<Step, Memory>
        requires good { IsGood self.old }
        requires fits { Fits self.old }
        requires there { HasItems self.old items }
        ensures advances { IfOk result (Proceeds self.old self.new (move (setup_of self.old)
            (Forward (items_now self.old items) (choice_points_in self.old) (bindings_now self.old) (world_in self.old)))) }
        ensures keeps { KeepsProgram self.old self.new }
    {
        match self.continuations.first(items) {
            Some((item, rest)) => self.perform(item, rest),
            None => Ok(self.show_solution()),
        }
    }

    // An item is done.
    #[tactic(auto, using(crate::proofs::ProgramLaws::keeps_program, crate::proofs::ProgramLaws::proceeds, crate::proofs::ProgramLaws::answer_proceeds))]
    fn perform(&mut self, item: Item, rest: u64) -> Result<Step, Memory>
        requires good { IsGood self.old }
        requires fits { Fits self.old }
        requires item { IsItem (length self.old.store.names) self.old.bindings.terms item }
        requires there { HasItems self.old rest }
        requires entered { IsEntered self.old.frames.boxes self.old.calls self.old.continuations item rest }
        ensures advances { IfOk result (Proceeds self.old self.new (move (setup_of self.old)
            (Forward (item_term self.old.store (level_in self.old) item ∷ items_now self.old rest) (choice_points_in self.old)
            (bindings_now self.old) (world_in self.old)))) }
        ensures keeps { KeepsProgram self.old self.new }
    {
        match item {
            Item::Goal { goal, barrier } => self.select(goal, barrier, rest),
            Item::Cut { barrier } => {
                self.make_cut(barrier);
                self.mode = Mode::Forward { items: rest };
                Ok(Step::Silent)
            }
            Item::Exit { call, goal } => self.exit_box(call, goal, rest),
            Item::Execute { call, goal } => self.execute_goal(call, goal, rest),
            Item::Recover { call, goal } => self.run_part(2, call, goal, rest),
        }
    }

    // The last choice point is taken, or there is none.
    fn backward(&mut self) -> Result<Step, Memory>
        requires good { IsGood self.old }
        requires fits { Fits self.old }
        requires mode { self.old.mode ≡ mode.Backward }
        ensures advances { IfOk result (Advances self.old self.new
            (move (setup_of self.old) (Backward (choice_points_in self.old) (world_in self.old)))) }
        ensures keeps { Keeps self.old self.new }
    {
        match self.pop_choice_point() {
            Some(choice) => {
                self.restore(&choice);
                self.resume(&choice)
            }
            None => {
                self.mode = Mode::Over {
                    outcome: Outcome::Failed,
                };
                Ok(Step::Silent)
            }
        }
    }

    // What a choice point, made at the present moment, does after a failure.
    fn resume(&mut self, choice: &Choice<Alternative>) -> Result<Step, Memory>
        requires good { IsGood self.old }
        requires fits { Fits self.old }
        requires frame { IsFrame self.old.store (level_in self.old) choice.now }
        requires calls { choice.now.kept.calls ≤ self.old.calls }
        requires tried { IsTried self.old.frames.boxes choice.now.kept.calls self.old.continuations choice.now.kept.kind
            choice.now.kept.goal choice.now.rest }
        ensures advances { IfOk result (Advances self.old self.new (move (setup_of self.old)
            (Backward (choice_point_of self.old.store (level_in self.old) choice.now ∷ choice_points_in self.old) (world_in self.old)))) }
        ensures keeps { Keeps self.old self.new }
    {
        let goal = choice.kept.goal;
        let rest = choice.rest;
        match &choice.kept.kind {
            ChoiceKind::Redo { call } => Ok(self.show_and_go_back(Port::Redo, *call, goal, rest)),
            ChoiceKind::Branch { barrier } => self.try_branch(goal, *barrier, rest),
            ChoiceKind::More {
                call,
                snapshot,
                next,
            } => self.try_clauses(snapshot, *next, *call, goal, rest),
            ChoiceKind::Fail { call } => Ok(self.show_and_go_back(Port::Fail, *call, goal, rest)),
            ChoiceKind::Catch { call } => Ok(self.show_and_go_back(Port::Fail, *call, goal, rest)),
            ChoiceKind::Condition { barrier, .. } => self.try_branch(goal, *barrier, rest),
        }
    }

    // No item is left: a solution, which is the last if it is the wanted one.
    fn show_solution(&mut self) -> Step
        requires good { IsGood self.old }
        requires fits { CanGrow self.old.solutions }
        ensures advances { Advances self.old self.new
            (at_solution (setup_of self.old) (choice_points_in self.old) (bindings_now self.old) (world_in self.old)) result }
        ensures keeps { Keeps self.old self.new }
    {
        self.solutions += 1;
        self.mode = if self.solutions == self.wanted {
            Mode::Over {
                outcome: Outcome::Stopped,
            }
        } else {
            Mode::Backward
        };
        Step::Solution
    }
}
