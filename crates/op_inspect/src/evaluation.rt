//! Evaluation (ISO/IEC 13211-1, 8.6 and 8.7).

ghost use Rattle.std.specs.Prelude.{length};
ghost use Rattle.op_inspect.specs.Evaluation.{is_act, arithmetic_act, compared_with};
ghost use Rattle.op_inspect.specs.Outcomes.{text_at, texts_of, Answers, IsKnown, IsSetting};
ghost use Rattle.op_inspect.specs.Told.{HasKnownName};
ghost use Rattle.op_inspect.specs.inner.Problems.{AnswersFault};

use crate::arithmetic::evaluate;
use crate::fault::{EvalFault, EvaluationError};
use crate::making::make_integer;
use crate::outcome::{Outcome, decided};
use crate::problem::Problem;
use crate::relation::Relation;
use crate::throwing::refuse;
use crate::unification::unify_terms;
use op_bind::{Bindings, Ref};
use op_term::{Fuel, Symbols, WalkFault};

// What a fault of an evaluation comes to.
fn refuse_fault(
    fault: EvalFault,
    symbols: &mut Symbols,
    bindings: &mut Bindings,
    fuel: &mut Fuel,
) -> Result<Outcome, WalkFault>
    requires known { HasKnownName (length symbols.old) fault }
    requires setting { IsSetting symbols.old bindings.old }
    ensures { AnswersFault fault symbols.old bindings.old fuel.old result symbols.new bindings.new fuel.new }
{
    let problem = match fault {
        EvalFault::Memory => return Err(WalkFault::Memory),
        EvalFault::Spent => return Err(WalkFault::Spent),
        EvalFault::Unbound => Problem::Instantiation,
        EvalFault::Evaluable(name, arity) => Problem::Evaluable(name, arity),
        EvalFault::Overflow => Problem::Evaluation(EvaluationError::Overflow),
        EvalFault::ZeroDivisor => Problem::Evaluation(EvaluationError::ZeroDivisor),
        EvalFault::Undefined => Problem::Evaluation(EvaluationError::Undefined),
    };
    refuse(problem, symbols, bindings, fuel)
}

/// `is`.
pub(crate) fn is(
    term: &Ref,
    expression: &Ref,
    symbols: &mut Symbols,
    bindings: &mut Bindings,
    fuel: &mut Fuel,
) -> Result<Outcome, WalkFault>
    requires term { IsKnown symbols.old bindings.old term.now }
    requires expression { IsKnown symbols.old bindings.old expression.now }
    requires setting { IsSetting symbols.old bindings.old }
    ensures { Answers (is_act (text_at symbols.old bindings.old term.now) (text_at symbols.old bindings.old expression.now)
        fuel.old (texts_of symbols.old bindings.old)) symbols.old bindings.old fuel.old result symbols.new bindings.new fuel.new }
{
    match evaluate(bindings.alloc(), expression, bindings, symbols, fuel) {
        Ok(x) => {
            let value = make_integer(x, symbols, bindings)?;
            unify_terms(term, &value, symbols, bindings, fuel)
        }
        Err(fault) => refuse_fault(fault, symbols, bindings, fuel),
    }
}

// A value is compared with that of an expression.
fn compare_with(
    relation: Relation,
    x: i64,
    expression: &Ref,
    symbols: &mut Symbols,
    bindings: &mut Bindings,
    fuel: &mut Fuel,
) -> Result<Outcome, WalkFault>
    requires expression { IsKnown symbols.old bindings.old expression.now }
    requires setting { IsSetting symbols.old bindings.old }
    ensures { Answers (compared_with relation x (text_at symbols.old bindings.old expression.now)
        fuel.old (texts_of symbols.old bindings.old)) symbols.old bindings.old fuel.old result symbols.new bindings.new fuel.new }
{
    match evaluate(bindings.alloc(), expression, bindings, symbols, fuel) {
        Ok(y) => Ok(decided(relation.holds(x.cmp(&y)))),
        Err(fault) => refuse_fault(fault, symbols, bindings, fuel),
    }
}

/// `=:=`, `=\=`, `<`, `=<`, `>` and `>=`.
pub(crate) fn compare_values(
    relation: Relation,
    a: &Ref,
    b: &Ref,
    symbols: &mut Symbols,
    bindings: &mut Bindings,
    fuel: &mut Fuel,
) -> Result<Outcome, WalkFault>
    requires a { IsKnown symbols.old bindings.old a.now }
    requires b { IsKnown symbols.old bindings.old b.now }
    requires setting { IsSetting symbols.old bindings.old }
    ensures { Answers (arithmetic_act relation (text_at symbols.old bindings.old a.now) (text_at symbols.old bindings.old b.now)
        fuel.old (texts_of symbols.old bindings.old)) symbols.old bindings.old fuel.old result symbols.new bindings.new fuel.new }
{
    match evaluate(bindings.alloc(), a, bindings, symbols, fuel) {
        Ok(x) => compare_with(relation, x, b, symbols, bindings, fuel),
        Err(fault) => refuse_fault(fault, symbols, bindings, fuel),
    }
}
