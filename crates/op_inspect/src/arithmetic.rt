ghost use Rattle.std.specs.Prelude.{◌≡◌, ◌+◌, ◌<◌, ◌≤◌, length, Ok, Err, Some, None, IfOk, IfErr, OnOk, IfSome, ℕ};
ghost use Rattle.std.specs.Prelude.{List};
ghost use Rattle.op_logic.specs.Names.{named, HasNames};
ghost use Rattle.op_term.specs.Head.{head};
ghost use Rattle.op_bind.specs.State.{State, value_of};
ghost use Rattle.op_inspect.specs.Arithmetic.{answered};
ghost use Rattle.op_inspect.specs.Told.{evaluated_within, cause_of, HasKnownName};
ghost use Rattle.op_inspect.specs.inner.Pending.{meaning_at, all_resumed, resumed, IsReady, IsReadyPending, AreReady, Goes};
ghost use Rattle.op_inspect.specs.inner.Pending.{moves_left, moves_of};

use crate::fault::{EvalFault, EvaluationError};
use crate::function::{binary_of, unary_of};
use crate::pending::{Next, Pending};
use crate::value::{binary_value, unary_value};
use op_bind::{Bindings, Ref};
use op_term::{Fuel, Node, Sym, Symbols, Tree};
use std::alloc::Global;

// A function of one argument is looked for, and its argument comes next.
fn enter_unary(
    name: Sym,
    at: &Ref,
    bindings: &Bindings,
    symbols: &Symbols,
    pending: &mut Vec<Pending>,
) -> Result<Next, EvalFault>
    requires node { head (value_of bindings.now at.now) ≡ Node.Struct name 1 }
    requires ready { IsReady (length symbols.now) bindings.now at.now }
    requires pending { AreReady (length symbols.now) bindings.now pending.old.items }
    ensures goes { Goes symbols.now bindings.now (all_resumed symbols.now bindings.now pending.old.items
        (meaning_at symbols.now bindings.now at.now)) 1 result pending.new.items }
    ensures moves { OnOk result (moves_left pending.new.items ≤ moves_left pending.old.items + 2) }
{
    let Some(f) = unary_of(symbols.name_of(name)) else {
        return Err(EvalFault::Evaluable(name, 1));
    };
    pending.push(Pending::Single(f))?;
    Ok(Next::Expression(bindings.part(at, 0)))
}

// A function of two arguments is looked for, and its first argument comes next.
fn enter_binary(
    name: Sym,
    at: &Ref,
    bindings: &Bindings,
    symbols: &Symbols,
    pending: &mut Vec<Pending>,
) -> Result<Next, EvalFault>
    requires node { head (value_of bindings.now at.now) ≡ Node.Struct name 2 }
    requires ready { IsReady (length symbols.now) bindings.now at.now }
    requires pending { AreReady (length symbols.now) bindings.now pending.old.items }
    ensures goes { Goes symbols.now bindings.now (all_resumed symbols.now bindings.now pending.old.items
        (meaning_at symbols.now bindings.now at.now)) 1 result pending.new.items }
    ensures moves { OnOk result (moves_left pending.new.items ≤ moves_left pending.old.items + 2) }
{
    let Some(f) = binary_of(symbols.name_of(name)) else {
        return Err(EvalFault::Evaluable(name, 2));
    };
    let second = bindings.part(at, 1);
    pending.push(Pending::First(f, second))?;
    let first = bindings.part(at, 0);
    Ok(Next::Expression(first))
}

// A node is met, its step taken.
fn meet(
    at: &Ref,
    bindings: &Bindings,
    symbols: &Symbols,
    pending: &mut Vec<Pending>,
) -> Result<Next, EvalFault>
    requires ready { IsReady (length symbols.now) bindings.now at.now }
    requires pending { AreReady (length symbols.now) bindings.now pending.old.items }
    ensures goes { Goes symbols.now bindings.now (all_resumed symbols.now bindings.now pending.old.items
        (meaning_at symbols.now bindings.now at.now)) 1 result pending.new.items }
    ensures moves { OnOk result (moves_left pending.new.items ≤ moves_left pending.old.items + 2) }
{
    match bindings.node(at) {
        Node::Var(_) => Err(EvalFault::Unbound),
        Node::Int(i) => Ok(Next::Value(i)),
        Node::Atom(name) => Err(EvalFault::Evaluable(name, 0)),
        Node::Struct(name, 1) => enter_unary(name, at, bindings, symbols, pending),
        Node::Struct(name, 2) => enter_binary(name, at, bindings, symbols, pending),
        Node::Struct(name, n) => Err(EvalFault::Evaluable(name, n)),
    }
}

// What comes next behind a function's value.
fn finished(answer: Result<i64, EvaluationError>, pending: &[Pending]) -> Result<Next, EvalFault>
    ensures { (names : List (List ℕ)) (s : State) → AreReady (length names) s pending.now
        → Goes names s (all_resumed names s pending.now (answered answer)) 0 result pending.now }
{
    match answer {
        Ok(x) => Ok(Next::Value(x)),
        Err(error) => Err(error.as_fault()),
    }
}

// A function goes on with the value of the argument that it waited for.
fn resume(function: Pending, x: i64, pending: &mut Vec<Pending>) -> Result<Next, EvalFault>
    ensures goes { (names : List (List ℕ)) (s : State) → IsReadyPending (length names) s function
        → AreReady (length names) s pending.old.items
        → Goes names s (all_resumed names s pending.old.items (resumed names s function x)) 0 result pending.new.items }
    ensures moves { OnOk result (moves_left pending.new.items < moves_left pending.old.items + moves_of function) }
{
    match function {
        Pending::Single(f) => finished(unary_value(f, x), pending),
        Pending::Second(f, first) => finished(binary_value(f, first, x), pending),
        Pending::First(f, second) => {
            pending.push(Pending::Second(f, x))?;
            Ok(Next::Expression(second))
        }
    }
}

/// The value of an expression, at a step for each node that is met, from the left and taken before the node is looked at
/// (ISO/IEC 13211-1, 7.9). What has no value tells the cause that is met first. After Spent no step is left.
pub fn evaluate(
    alloc: Global,
    term: &Ref,
    bindings: &Bindings,
    symbols: &Symbols,
    fuel: &mut Fuel,
) -> Result<i64, EvalFault>
    requires there { term.now < length bindings.now.terms }
    requires names { HasNames (length symbols.now) (value_of bindings.now term.now) }
    ensures ok { IfOk result (λ i. evaluated_within fuel.old (named symbols.now (value_of bindings.now term.now))
        ≡ Some (Ok i, fuel.new)) }
    ensures err { IfErr result (λ e. IfSome (cause_of symbols.now e) (λ c.
        evaluated_within fuel.old (named symbols.now (value_of bindings.now term.now)) ≡ Some (Err c, fuel.new))) }
    ensures spent { result ≡ Err EvalFault.Spent
        → evaluated_within fuel.old (named symbols.now (value_of bindings.now term.now)) ≡ None }
    ensures none_left { result ≡ Err EvalFault.Spent → fuel.new ≡ 0 }
    ensures known { IfErr result (λ e. HasKnownName (length symbols.now) e) }
    ensures falls { fuel.new ≤ fuel.old }
{
    let mut pending = Vec::new(alloc);
    let mut next = Next::Expression(*term);
    'walk: loop {
        match next {
            Next::Expression(at) => {
                fuel.spend(1)?;
                next = meet(&at, bindings, symbols, &mut pending)?;
            }
            Next::Value(x) => {
                let Some(function) = pending.pop() else {
                    return Ok(x);
                };
                next = resume(function, x, &mut pending)?;
            }
        }
    }
}
