ghost use Rattle.std.specs.Prelude.{◌≡◌, ◌<◌, IfOk, length};
ghost use Rattle.op_bind.specs.State.{value_of};
ghost use Rattle.op_trace.specs.Builtins.{throw as the_throw};
ghost use Rattle.op_inspect.specs.Outcomes.{text_at, texts_of, Answers, IsKnown, IsSetting};
ghost use Rattle.op_inspect.specs.inner.Problems.{problem_text, IsKnownProblem};

use crate::making::make_ball;
use crate::outcome::Outcome;
use crate::problem::Problem;
use op_base::Memory;
use op_bind::{Bindings, Ref};
use op_term::{Fuel, Symbols, Term, WalkFault};

// A ball is thrown, a copy of a term with new variables, at a step for each node.
fn throw(
    ball: &Ref,
    symbols: &Symbols,
    bindings: &mut Bindings,
    fuel: &mut Fuel,
) -> Result<Outcome, WalkFault>
    requires ball { IsKnown symbols.now bindings.old ball.now }
    requires setting { IsSetting symbols.now bindings.old }
    ensures { Answers (the_throw fuel.old (texts_of symbols.now bindings.old) (text_at symbols.now bindings.old ball.now))
        symbols.now bindings.old fuel.old result symbols.now bindings.new fuel.new }
{
    let _count = symbols.count();
    match bindings.copy(ball, fuel) {
        Ok(copy) => Ok(Outcome::Throw(resolve(&copy, bindings)?)),
        Err(fault) => Err(fault),
    }
}

// The value of a Ref, as a term of its own.
fn resolve(r: &Ref, bindings: &Bindings) -> Result<Term, Memory>
    requires { r.now < length bindings.now.terms }
    ensures { IfOk result (λ t. t ≡ value_of bindings.now r.now) }
{
    let mut nodes = Fuel::new(u64::MAX);
    match bindings.resolve(r, &mut nodes) {
        Ok(term) => Ok(term),
        Err(_) => Err(Memory),
    }
}

/// The error of a problem is thrown.
pub(crate) fn refuse(
    problem: Problem,
    symbols: &mut Symbols,
    bindings: &mut Bindings,
    fuel: &mut Fuel,
) -> Result<Outcome, WalkFault>
    requires problem { IsKnownProblem symbols.old bindings.old problem }
    requires setting { IsSetting symbols.old bindings.old }
    ensures { Answers (the_throw fuel.old (texts_of symbols.old bindings.old) (problem_text symbols.old bindings.old problem))
        symbols.old bindings.old fuel.old result symbols.new bindings.new fuel.new }
{
    let ball = make_ball(problem, symbols, bindings)?;
    throw(&ball, symbols, bindings, fuel)
}
