ghost use Rattle.std.specs.Prelude.{◌≡◌, ◌<◌, ◌≤◌, ◌++◌, ℕ, IfOk, OnOk, length, map, drop, take, All};
ghost use Rattle.op_logic.specs.Term.{node, args_of, arity, nth_arg, IsWithin};
ghost use Rattle.op_logic.specs.Bind.{follow};
ghost use Rattle.op_logic.specs.Names.{name_at, HaveNames};
ghost use Rattle.op_term.specs.Places.{term_at};
ghost use Rattle.op_term.specs.Arguments.{args_list};
ghost use Rattle.op_bind.specs.State.{resolved, value_of};
ghost use Rattle.op_trace.specs.Act.{Halts, done};
ghost use Rattle.op_trace.specs.Builtins.{instantiation_error, type_error, unknown};
ghost use Rattle.op_trace.specs.Builtins as builtins;
ghost use Rattle.op_machine.specs.Meaning.{world_in, goal_now, bindings_now};
ghost use Rattle.op_machine.specs.inner.Invariant.{IsGood, HasItems, HasGoal, HasCalled};
ghost use Rattle.op_machine.specs.inner.BuiltinKinds.{first_argument as the_first_argument, more_arguments, with_more_arguments};
ghost use Rattle.op_machine.specs.inner.Moves.{Keeps, Advances, KeepsProgram, Proceeds, Makes, act_moved, steps_left, goal_executed};
ghost use Rattle.op_machine.specs.inner.Moves.{ball_thrown, body_run};
ghost use Rattle.op_machine.specs.inner.Moves.{ball_raised, argument_run, part_run, goal_run};
ghost use Rattle.op_machine.specs.declared.core_state.Step.TheVariants as step;

use crate::builtin_kind::{Around, Builtin, builtin_of};
use crate::continuations::Item;
use crate::core_state::{Core, Mode, Outcome, Step};
use crate::goal_kind::names_law;
use op_base::Memory;
use op_bind::{Bindings, Ref};
use op_store::names::control::{CALLABLE, INTEGER};
use op_store::{BodyFault, body_in};
use op_term::{Fuel, Node, Sym, WalkFault};
use op_trace::Barrier;

impl Core {
    // The first execution of a goal without a procedure.
    #[tactic(auto, using(crate::proofs::ProgramLaws::keeps_program))]
    pub(crate) fn execute_goal(&mut self, call: u64, goal: Ref, rest: u64) -> Result<Step, Memory>
        requires good { IsGood self.old }
        requires steps { self.old.steps ≤ self.old.budget }
        requires there { HasItems self.old rest }
        requires goal { HasGoal self.old goal }
        requires called { HasCalled self.old call goal rest }
        ensures advances { IfOk result (Proceeds self.old self.new (goal_executed self.old call goal rest)) }
        ensures keeps { KeepsProgram self.old self.new }
    {
        match builtin_of(&self.store, self.bindings.outline(&goal)) {
            Builtin::Run(around) => self.run_argument(around, call, goal, rest),
            Builtin::Catch => self.run_part(0, call, goal, rest),
            Builtin::Throw => self.throw_argument(call, goal, rest),
            Builtin::Halt => Ok(self.halt(0)),
            Builtin::HaltWith => self.halt_with(call, goal, rest),
            Builtin::OnTerms(name, count) => self.inspect_goal(name, count, call, goal, rest),
            Builtin::Unknown(name, arity) => self.meet_unknown(name, arity, call, goal, rest),
            Builtin::NoGoal => {
                self.mode = Mode::Backward;
                Ok(Step::Silent)
            }
        }
    }

    // The run ends, without an event.
    fn halt(&mut self, status: i64) -> Step
        requires good { IsGood self.old }
        requires steps { self.old.steps ≤ self.old.budget }
        ensures advances { (k g n : ℕ) → Advances self.old self.new
            (act_moved self.old (done (world_in self.old) (Halts status)) k g n) result }
        ensures keeps { Keeps self.old self.new }
    {
        self.mode = Mode::Over {
            outcome: Outcome::Halted { status },
        };
        Step::Silent
    }

    // The first argument of a goal, followed.
    fn first_argument(&self, goal: Ref) -> Ref
        requires goal { HasGoal self.now goal }
        requires bound { HaveNames (length self.now.store.names) (resolved self.now.bindings.terms self.now.bindings.bound) }
        requires argument { 0 < arity (args_of (term_at self.now.bindings.terms goal)) }
        ensures there { HasGoal self.now result }
        ensures value { goal_now self.now result ≡ follow (bindings_now self.now) (the_first_argument (goal_now self.now goal)) }
    {
        self.followed_argument(goal, 0)
    }

    // An argument of a goal, by its place, followed.
    fn followed_argument(&self, goal: Ref, place: u64) -> Ref
        requires goal { HasGoal self.now goal }
        requires bound { HaveNames (length self.now.store.names) (resolved self.now.bindings.terms self.now.bindings.bound) }
        requires argument { place < arity (args_of (term_at self.now.bindings.terms goal)) }
        ensures there { HasGoal self.now result }
        ensures value { goal_now self.now result ≡ follow (bindings_now self.now) (nth_arg (args_of (goal_now self.now goal)) place) }
    {
        self.bindings
            .followed(&self.bindings.argument(&goal, place))
    }

    fn halt_with(&mut self, call: u64, goal: Ref, rest: u64) -> Result<Step, Memory>
        requires good { IsGood self.old }
        requires steps { self.old.steps ≤ self.old.budget }
        requires there { HasItems self.old rest }
        requires goal { HasGoal self.old goal }
        requires called { HasCalled self.old call goal rest }
        requires argument { 0 < arity (args_of (term_at self.old.bindings.terms goal)) }
        ensures advances { IfOk result (Advances self.old self.new (act_moved self.old
            (builtins.halt_with (follow (bindings_now self.old) (the_first_argument (goal_now self.old goal)))
            (steps_left self.old) (bindings_now self.old) (world_in self.old)) call goal rest)) }
        ensures keeps { Keeps self.old self.new }
    {
        names_law(&self.store);
        let argument = self.first_argument(goal);
        match self.bindings.outline(&argument) {
            Node::Var(_) => self.throw_instantiation_error(call, goal, rest),
            Node::Int(status) => Ok(self.halt(status)),
            _ => self.throw_type_error(INTEGER, argument, call, goal, rest),
        }
    }

    fn throw_argument(&mut self, call: u64, goal: Ref, rest: u64) -> Result<Step, Memory>
        requires good { IsGood self.old }
        requires steps { self.old.steps ≤ self.old.budget }
        requires there { HasItems self.old rest }
        requires goal { HasGoal self.old goal }
        requires called { HasCalled self.old call goal rest }
        requires argument { 0 < arity (args_of (term_at self.old.bindings.terms goal)) }
        ensures advances { IfOk result (Advances self.old self.new (act_moved self.old
            (builtins.throw_argument (follow (bindings_now self.old) (the_first_argument (goal_now self.old goal)))
            (steps_left self.old) (bindings_now self.old) (world_in self.old)) call goal rest)) }
        ensures keeps { Keeps self.old self.new }
    {
        let argument = self.first_argument(goal);
        match self.bindings.outline(&argument) {
            Node::Var(_) => self.throw_instantiation_error(call, goal, rest),
            _ => self.throw(argument, call, goal, rest),
        }
    }

    // A goal that has no procedure fails, or its error is thrown, by the flag.
    fn meet_unknown(
        &mut self,
        name: Sym,
        arity: u64,
        call: u64,
        goal: Ref,
        rest: u64,
    ) -> Result<Step, Memory>
        requires good { IsGood self.old }
        requires steps { self.old.steps ≤ self.old.budget }
        requires there { HasItems self.old rest }
        requires goal { HasGoal self.old goal }
        requires called { HasCalled self.old call goal rest }
        requires name { name.0 < length self.old.store.names }
        ensures advances { IfOk result (Advances self.old self.new (act_moved self.old
            (unknown (name_at self.old.store.names name.0) arity (steps_left self.old) (bindings_now self.old) (world_in self.old))
            call goal rest)) }
        ensures keeps { Keeps self.old self.new }
    {
        if self.store.flags().unknown_fails {
            self.mode = Mode::Backward;
            return Ok(Step::Silent);
        }
        let ball = self.make_existence_error(name, arity)?;
        self.throw(ball, call, goal, rest)
    }

    fn throw_instantiation_error(&mut self, call: u64, goal: Ref, rest: u64) -> Result<Step, Memory>
        requires good { IsGood self.old }
        requires steps { self.old.steps ≤ self.old.budget }
        requires there { HasItems self.old rest }
        requires goal { HasGoal self.old goal }
        requires called { HasCalled self.old call goal rest }
        ensures advances { IfOk result (Advances self.old self.new (ball_thrown self.old instantiation_error call goal rest)) }
        ensures keeps { Keeps self.old self.new }
    {
        let ball = self.make_instantiation_error()?;
        self.throw(ball, call, goal, rest)
    }

    fn throw_type_error(
        &mut self,
        expected: Sym,
        culprit: Ref,
        call: u64,
        goal: Ref,
        rest: u64,
    ) -> Result<Step, Memory>
        requires good { IsGood self.old }
        requires steps { self.old.steps ≤ self.old.budget }
        requires there { HasItems self.old rest }
        requires goal { HasGoal self.old goal }
        requires called { HasCalled self.old call goal rest }
        requires name { expected.0 < length self.old.store.names }
        requires culprit { HasGoal self.old culprit }
        ensures advances { IfOk result (Advances self.old self.new (ball_thrown self.old
            (type_error (name_at self.old.store.names expected.0) (goal_now self.old culprit)) call goal rest)) }
        ensures keeps { Keeps self.old self.new }
    {
        let ball = self.make_type_error(expected, culprit)?;
        self.throw(ball, call, goal, rest)
    }

    // A ball is thrown: a copy of a term, at a step for each node.
    fn throw(&mut self, term: Ref, call: u64, goal: Ref, rest: u64) -> Result<Step, Memory>
        requires good { IsGood self.old }
        requires steps { self.old.steps ≤ self.old.budget }
        requires there { HasItems self.old rest }
        requires goal { HasGoal self.old goal }
        requires called { HasCalled self.old call goal rest }
        requires term { HasGoal self.old term }
        ensures advances { IfOk result (Advances self.old self.new (ball_thrown self.old (goal_now self.old term) call goal rest)) }
        ensures keeps { Keeps self.old self.new }
    {
        let mut fuel = Fuel::new(self.budget - self.steps);
        match self.bindings.copy(&term, &mut fuel) {
            Ok(ball) => {
                self.steps = self.budget - fuel.left();
                self.raise(ball, call)?;
                Ok(Step::Silent)
            }
            Err(WalkFault::Spent) => {
                self.run_out();
                Ok(Step::Silent)
            }
            Err(WalkFault::Memory) => Err(Memory),
        }
    }

    // A ball is kept as a term of its own, and goes up from a box.
    fn raise(&mut self, ball: Ref, call: u64) -> Result<(), Memory>
        requires good { IsGood self.old }
        requires ball { HasGoal self.old ball }
        requires within { IsWithin self.old.bindings.count (value_of self.old.bindings ball) }
        ensures advances { OnOk result (Advances self.old self.new (ball_raised self.old ball call) step.Silent) }
        ensures keeps { Keeps self.old self.new }
    {
        let mut nodes = Fuel::new(u64::MAX);
        match self.bindings.resolve(&ball, &mut nodes) {
            Ok(ball) => {
                self.ball = Some(ball);
                self.mode = Mode::Throwing { inner: call };
                Ok(())
            }
            Err(_) => Err(Memory),
        }
    }

    // The first argument of a goal runs in its box, with the arguments behind it added.
    fn run_argument(
        &mut self,
        around: Around,
        call: u64,
        goal: Ref,
        rest: u64,
    ) -> Result<Step, Memory>
        requires good { IsGood self.old }
        requires steps { self.old.steps ≤ self.old.budget }
        requires there { HasItems self.old rest }
        requires goal { HasGoal self.old goal }
        requires called { HasCalled self.old call goal rest }
        requires argument { 0 < arity (args_of (term_at self.old.bindings.terms goal)) }
        ensures advances { IfOk result (Advances self.old self.new (argument_run self.old around call goal rest)) }
        ensures keeps { Keeps self.old self.new }
    {
        let argument = self.first_argument(goal);
        if let Node::Var(_) = self.bindings.outline(&argument) {
            return self.throw_instantiation_error(call, goal, rest);
        }
        let whole = self.make_goal(argument, goal)?;
        self.run(around, whole, call, goal, rest)
    }

    // An argument of a goal, by its place, runs in its box, as that of call/1 does.
    pub(crate) fn run_part(
        &mut self,
        place: u64,
        call: u64,
        goal: Ref,
        rest: u64,
    ) -> Result<Step, Memory>
        requires good { IsGood self.old }
        requires steps { self.old.steps ≤ self.old.budget }
        requires there { HasItems self.old rest }
        requires goal { HasGoal self.old goal }
        requires called { HasCalled self.old call goal rest }
        requires argument { place < arity (args_of (term_at self.old.bindings.terms goal)) }
        ensures advances { IfOk result (Advances self.old self.new (part_run self.old place call goal rest)) }
        ensures keeps { Keeps self.old self.new }
    {
        let argument = self.followed_argument(goal, place);
        if let Node::Var(_) = self.bindings.outline(&argument) {
            return self.throw_instantiation_error(call, goal, rest);
        }
        self.run(Around::Alone, argument, call, goal, rest)
    }

    // A goal with the arguments that stand behind the first of another; a number takes none.
    fn make_goal(&mut self, argument: Ref, goal: Ref) -> Result<Ref, Memory>
        requires argument { HasGoal self.old argument }
        requires goal { HasGoal self.old goal }
        ensures made { IfOk result (Makes self.old self.new) }
        ensures value { IfOk result (λ r. goal_now self.new r
            ≡ with_more_arguments (goal_now self.old argument) (more_arguments (goal_now self.old goal))) }
        ensures keeps { Keeps self.old self.new }
    {
        let added = self.bindings.outline(&goal).arity();
        if added < 2 {
            return Ok(argument);
        }
        match self.bindings.outline(&argument) {
            Node::Atom(name) => self.make_longer(name, argument, 0, goal, added),
            Node::Struct(name, n) => self.make_longer(name, argument, n, goal, added),
            Node::Var(_) => Ok(argument),
            Node::Int(_) => Ok(argument),
        }
    }

    // A compound of the first arguments of a goal, `count` of them, and of those of another up to `end`, but the first.
    fn make_longer(
        &mut self,
        name: Sym,
        argument: Ref,
        count: u64,
        goal: Ref,
        end: u64,
    ) -> Result<Ref, Memory>
        requires argument { HasGoal self.old argument }
        requires goal { HasGoal self.old goal }
        requires name { term_at self.old.bindings.terms argument ≡ node name.0 (args_of (term_at self.old.bindings.terms argument)) }
        requires count { arity (args_of (term_at self.old.bindings.terms argument)) ≡ count }
        requires end { arity (args_of (term_at self.old.bindings.terms goal)) ≡ end }
        requires some { 1 < end }
        ensures made { IfOk result (Makes self.old self.new) }
        ensures value { IfOk result (λ r. goal_now self.new r
            ≡ with_more_arguments (goal_now self.old argument) (more_arguments (goal_now self.old goal))) }
        ensures keeps { Keeps self.old self.new }
    {
        let mut parts = Vec::new(self.bindings.alloc());
        push_arguments(&self.bindings, argument, 0, count, &mut parts)?;
        push_arguments(&self.bindings, goal, 1, end, &mut parts)?;
        self.bindings.compound(name, &parts)
    }

    // A goal is converted, and its body with what stands around it runs in a box.
    fn run(
        &mut self,
        around: Around,
        whole: Ref,
        call: u64,
        goal: Ref,
        rest: u64,
    ) -> Result<Step, Memory>
        requires good { IsGood self.old }
        requires steps { self.old.steps ≤ self.old.budget }
        requires there { HasItems self.old rest }
        requires goal { HasGoal self.old goal }
        requires called { HasCalled self.old call goal rest }
        requires whole { HasGoal self.old whole }
        ensures advances { IfOk result (Advances self.old self.new (goal_run self.old around whole call goal rest)) }
        ensures keeps { Keeps self.old self.new }
    {
        names_law(&self.store);
        let mut fuel = Fuel::new(self.budget - self.steps);
        let alloc = self.bindings.alloc();
        match body_in(
            alloc,
            &mut self.bindings,
            &whole,
            self.store.symbols(),
            &mut fuel,
        ) {
            Ok(body) => {
                self.steps = self.budget - fuel.left();
                let body = self.make_around(around, body)?;
                self.run_body(body, call, goal, rest)?;
                Ok(Step::Silent)
            }
            Err(BodyFault::NotCallable) => {
                self.steps = self.budget - fuel.left();
                self.throw_type_error(CALLABLE, whole, call, goal, rest)
            }
            Err(BodyFault::Spent) => {
                self.run_out();
                Ok(Step::Silent)
            }
            Err(BodyFault::Memory) => Err(Memory),
        }
    }

    // A body runs in a box, which exits behind it.
    fn run_body(&mut self, body: Ref, call: u64, goal: Ref, rest: u64) -> Result<(), Memory>
        requires good { IsGood self.old }
        requires there { HasItems self.old rest }
        requires goal { HasGoal self.old goal }
        requires body { HasGoal self.old body }
        requires called { HasCalled self.old call goal rest }
        ensures advances { OnOk result (Advances self.old self.new (body_run self.old body call goal rest) step.Silent) }
        ensures keeps { Keeps self.old self.new }
    {
        let exit = self.add(Item::Exit { call, goal }, rest)?;
        let items = self.add(
            Item::Goal {
                goal: body,
                barrier: Barrier::Call(call),
            },
            exit,
        )?;
        self.mode = Mode::Forward { items };
        Ok(())
    }
}

// The arguments of a goal from one place up to another join a list.
fn push_arguments(
    bindings: &Bindings,
    goal: Ref,
    from: u64,
    to: u64,
    parts: &mut Vec<Ref>,
) -> Result<(), Memory>
    requires goal { goal < length bindings.now.terms }
    requires within { to ≤ arity (args_of (term_at bindings.now.terms goal)) }
    requires from { from ≤ to }
    requires there { All (λ r. r < length bindings.now.terms) parts.old.items }
    ensures there { OnOk result (All (λ r. r < length bindings.now.terms) parts.new.items) }
    ensures terms { OnOk result (map (term_at bindings.now.terms) parts.new.items ≡ map (term_at bindings.now.terms) parts.old.items
        ++ drop from (take to (args_list (args_of (term_at bindings.now.terms goal))))) }
{
    for i in from..to {
        parts.push(bindings.argument(&goal, i))?;
    }
    Ok(())
}
