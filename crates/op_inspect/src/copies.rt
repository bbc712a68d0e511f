//! A term's copy, and whether it has variables (ISO/IEC 13211-1, 8.3.10 and 8.5.4).

ghost use Rattle.op_inspect.specs.TypeTests.{ground_act};
ghost use Rattle.op_inspect.specs.Copies.{copy_act};
ghost use Rattle.op_inspect.specs.Outcomes.{text_at, texts_of, Answers, IsKnown, IsSetting};

use crate::outcome::{Outcome, decided};
use crate::unification::unify_terms;
use op_bind::{Bindings, Ref};
use op_term::{Fuel, Symbols, WalkFault, is_ground};

/// `ground`.
pub(crate) fn ground(
    term: &Ref,
    symbols: &Symbols,
    bindings: &Bindings,
    fuel: &mut Fuel,
) -> Result<Outcome, WalkFault>
    requires term { IsKnown symbols.now bindings.now term.now }
    requires setting { IsSetting symbols.now bindings.now }
    ensures { Answers (ground_act (text_at symbols.now bindings.now term.now) fuel.old (texts_of symbols.now bindings.now))
        symbols.now bindings.now fuel.old result symbols.now bindings.now fuel.new }
{
    let _count = symbols.count();
    match is_ground(bindings.alloc(), bindings, term, fuel) {
        Ok(ground) => Ok(decided(ground)),
        Err(fault) => Err(fault),
    }
}

/// copy_term/2.
pub(crate) fn copy(
    term: &Ref,
    other: &Ref,
    symbols: &Symbols,
    bindings: &mut Bindings,
    fuel: &mut Fuel,
) -> Result<Outcome, WalkFault>
    requires term { IsKnown symbols.now bindings.old term.now }
    requires other { IsKnown symbols.now bindings.old other.now }
    requires setting { IsSetting symbols.now bindings.old }
    ensures { Answers (copy_act (text_at symbols.now bindings.old term.now) (text_at symbols.now bindings.old other.now)
        fuel.old (texts_of symbols.now bindings.old)) symbols.now bindings.old fuel.old result symbols.now bindings.new fuel.new }
{
    match bindings.copy(term, fuel) {
        Ok(copy) => unify_terms(other, &copy, symbols, bindings, fuel),
        Err(fault) => Err(fault),
    }
}
