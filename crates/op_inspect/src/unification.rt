//! Unification (ISO/IEC 13211-1, 8.2).

ghost use Rattle.op_inspect.specs.Answering.{unify_terms as the_unification, unify_pairs, different_act};
ghost use Rattle.op_inspect.specs.Outcomes.{text_at, texts_of, Answers, IsKnown, IsSetting};
ghost use Rattle.op_inspect.specs.inner.Settings.{IsAtomicAt};
ghost use Rattle.std.specs.Prelude.{[], ◌∷◌};

use crate::outcome::Outcome;
use op_bind::{Bindings, Ref, Unified};
use op_term::{Fuel, Symbols, WalkFault};

/// `=`: two terms are unified.
pub(crate) fn unify_terms(
    a: &Ref,
    b: &Ref,
    symbols: &Symbols,
    bindings: &mut Bindings,
    fuel: &mut Fuel,
) -> Result<Outcome, WalkFault>
    requires a { IsKnown symbols.now bindings.old a.now }
    requires b { IsKnown symbols.now bindings.old b.now }
    requires setting { IsSetting symbols.now bindings.old }
    ensures { Answers (λ w. the_unification (text_at symbols.now bindings.old a.now) (text_at symbols.now bindings.old b.now)
        fuel.old (texts_of symbols.now bindings.old) w w) symbols.now bindings.old fuel.old result symbols.now bindings.new fuel.new }
{
    let _count = symbols.count();
    match bindings.unify(a, b, fuel) {
        Ok(Unified::Yes) => Ok(Outcome::Yes),
        Ok(Unified::No) => Ok(Outcome::No),
        Err(fault) => Err(fault),
    }
}

/// Two pairs of terms are unified, of which the second term of the first is atomic.
pub(crate) fn unify_both(
    a: &Ref,
    b: &Ref,
    c: &Ref,
    d: &Ref,
    symbols: &Symbols,
    bindings: &mut Bindings,
    fuel: &mut Fuel,
) -> Result<Outcome, WalkFault>
    requires a { IsKnown symbols.now bindings.old a.now }
    requires b { IsKnown symbols.now bindings.old b.now }
    requires c { IsKnown symbols.now bindings.old c.now }
    requires d { IsKnown symbols.now bindings.old d.now }
    requires setting { IsSetting symbols.now bindings.old }
    requires atomic { IsAtomicAt bindings.old b.now }
    ensures { Answers (λ w. unify_pairs ((text_at symbols.now bindings.old a.now, text_at symbols.now bindings.old b.now)
        ∷ (text_at symbols.now bindings.old c.now, text_at symbols.now bindings.old d.now) ∷ [])
        fuel.old (texts_of symbols.now bindings.old) w w) symbols.now bindings.old fuel.old result symbols.now bindings.new fuel.new }
{
    let _count = symbols.count();
    match bindings.unify(a, b, fuel) {
        Ok(Unified::Yes) => unify_terms(c, d, symbols, bindings, fuel),
        Ok(Unified::No) => Ok(Outcome::No),
        Err(fault) => Err(fault),
    }
}

/// `\=`: two terms have no unifier. Nothing is bound.
pub(crate) fn differ(
    a: &Ref,
    b: &Ref,
    symbols: &Symbols,
    bindings: &mut Bindings,
    fuel: &mut Fuel,
) -> Result<Outcome, WalkFault>
    requires a { IsKnown symbols.now bindings.old a.now }
    requires b { IsKnown symbols.now bindings.old b.now }
    requires setting { IsSetting symbols.now bindings.old }
    ensures { Answers (different_act (text_at symbols.now bindings.old a.now) (text_at symbols.now bindings.old b.now)
        fuel.old (texts_of symbols.now bindings.old)) symbols.now bindings.old fuel.old result symbols.now bindings.new fuel.new }
{
    let _count = symbols.count();
    let mark = bindings.mark();
    match bindings.unify(a, b, fuel) {
        Ok(Unified::Yes) => Ok(Outcome::No),
        Ok(Unified::No) => {
            bindings.undo_to(mark);
            Ok(Outcome::Yes)
        }
        Err(fault) => Err(fault),
    }
}
