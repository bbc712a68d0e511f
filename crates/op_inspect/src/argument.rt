//! arg/3 (ISO/IEC 13211-1, 8.5.2).

ghost use Rattle.op_logic.specs.Term.{args_of};
ghost use Rattle.op_inspect.specs.Construction.{arg_act, arg_found};
ghost use Rattle.op_inspect.specs.Outcomes.{text_at, texts_of, Answers, IsKnown, IsSetting};

use crate::outcome::Outcome;
use crate::refusing::{arg_problem, natural_of};
use crate::throwing::refuse;
use crate::unification::unify_terms;
use op_bind::{Bindings, Ref};
use op_term::{Fuel, Symbols, WalkFault};

// The argument at a place from 1 on.
fn unify_argument(
    place: u64,
    whole: &Ref,
    value: &Ref,
    symbols: &Symbols,
    bindings: &mut Bindings,
    fuel: &mut Fuel,
) -> Result<Outcome, WalkFault>
    requires whole { IsKnown symbols.now bindings.old whole.now }
    requires value { IsKnown symbols.now bindings.old value.now }
    requires setting { IsSetting symbols.now bindings.old }
    ensures { Answers (arg_found place (args_of (text_at symbols.now bindings.old whole.now))
        (text_at symbols.now bindings.old value.now) fuel.old (texts_of symbols.now bindings.old))
        symbols.now bindings.old fuel.old result symbols.now bindings.new fuel.new }
{
    let _count = symbols.count();
    if place == 0 {
        Ok(Outcome::No)
    } else if place > bindings.outline(whole).arity() {
        Ok(Outcome::No)
    } else {
        let part = bindings.argument(whole, place - 1);
        unify_terms(value, &part, symbols, bindings, fuel)
    }
}

/// arg/3.
pub(crate) fn arg(
    index: &Ref,
    term: &Ref,
    value: &Ref,
    symbols: &mut Symbols,
    bindings: &mut Bindings,
    fuel: &mut Fuel,
) -> Result<Outcome, WalkFault>
    requires index { IsKnown symbols.old bindings.old index.now }
    requires term { IsKnown symbols.old bindings.old term.now }
    requires value { IsKnown symbols.old bindings.old value.now }
    requires setting { IsSetting symbols.old bindings.old }
    ensures { Answers (arg_act (text_at symbols.old bindings.old index.now) (text_at symbols.old bindings.old term.now)
        (text_at symbols.old bindings.old value.now) fuel.old (texts_of symbols.old bindings.old))
        symbols.old bindings.old fuel.old result symbols.new bindings.new fuel.new }
{
    let place = bindings.followed(index);
    let whole = bindings.followed(term);
    let number = bindings.outline(&place);
    match arg_problem(number, bindings.outline(&whole), &place, &whole) {
        Some(problem) => refuse(problem, symbols, bindings, fuel),
        None => unify_argument(natural_of(number), &whole, value, symbols, bindings, fuel),
    }
}
