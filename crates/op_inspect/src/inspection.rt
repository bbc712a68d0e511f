//! The builtins on terms, as a machine calls them.

ghost use Rattle.std.specs.Prelude.{◌≡◌, ◌<◌, true, length, All};
ghost use Rattle.op_logic.specs.Term.{node};
ghost use Rattle.op_logic.specs.Names.{name_at, named};
ghost use Rattle.op_term.specs.Places.{args_at};
ghost use Rattle.op_inspect.specs.Inspected.{act_on_terms, act_of_one, act_of_two, act_of_three, is_builtin};
ghost use Rattle.op_inspect.specs.Outcomes.{text_at, texts_of, Answers, IsKnown, IsSetting};

use crate::argument::arg;
use crate::builtin::{OfOne, OfThree, OfTwo, of_one, of_three, of_two};
use crate::comparison::{compare_terms, order};
use crate::copies::{copy, ground};
use crate::evaluation::{compare_values, is};
use crate::functor::functor;
use crate::outcome::Outcome;
use crate::type_test::test;
use crate::unification::{differ, unify_terms};
use crate::univ::univ;
use crate::variables::variables;
use op_bind::{Bindings, Ref};
use op_term::{Fuel, Sym, Symbols, WalkFault};

/// Whether a name with so many arguments is one of the builtins on terms (ISO/IEC 13211-1, 8.2 to 8.7).
pub fn is_inspected(name: &str, arity: u64) -> bool
    ensures { result ≡ is_builtin name.now arity }
{
    if arity == 1 {
        of_one(name).is_some()
    } else if arity == 2 {
        of_two(name).is_some()
    } else if arity == 3 {
        of_three(name).is_some()
    } else {
        false
    }
}

// One of one argument.
fn inspect_one(
    builtin: OfOne,
    a: &Ref,
    symbols: &Symbols,
    bindings: &Bindings,
    fuel: &mut Fuel,
) -> Result<Outcome, WalkFault>
    requires a { IsKnown symbols.now bindings.now a.now }
    requires setting { IsSetting symbols.now bindings.now }
    ensures { Answers (act_of_one builtin (text_at symbols.now bindings.now a.now) fuel.old (texts_of symbols.now bindings.now))
        symbols.now bindings.now fuel.old result symbols.now bindings.now fuel.new }
{
    match builtin {
        OfOne::Test(kind) => Ok(test(kind, a, bindings)),
        OfOne::Ground => ground(a, symbols, bindings, fuel),
    }
}

// One of two arguments.
fn inspect_two(
    builtin: OfTwo,
    a: &Ref,
    b: &Ref,
    symbols: &mut Symbols,
    bindings: &mut Bindings,
    fuel: &mut Fuel,
) -> Result<Outcome, WalkFault>
    requires a { IsKnown symbols.old bindings.old a.now }
    requires b { IsKnown symbols.old bindings.old b.now }
    requires setting { IsSetting symbols.old bindings.old }
    ensures { Answers (act_of_two builtin (text_at symbols.old bindings.old a.now) (text_at symbols.old bindings.old b.now)
        fuel.old (texts_of symbols.old bindings.old)) symbols.old bindings.old fuel.old result symbols.new bindings.new fuel.new }
{
    match builtin {
        OfTwo::Equal => unify_terms(a, b, symbols, bindings, fuel),
        OfTwo::Different => differ(a, b, symbols, bindings, fuel),
        OfTwo::Order(relation) => order(relation, a, b, symbols, bindings, fuel),
        OfTwo::Values(relation) => compare_values(relation, a, b, symbols, bindings, fuel),
        OfTwo::Is => is(a, b, symbols, bindings, fuel),
        OfTwo::Univ => univ(a, b, symbols, bindings, fuel),
        OfTwo::Copy => copy(a, b, symbols, bindings, fuel),
        OfTwo::Variables => variables(a, b, symbols, bindings, fuel),
    }
}

// One of three arguments.
fn inspect_three(
    builtin: OfThree,
    a: &Ref,
    b: &Ref,
    c: &Ref,
    symbols: &mut Symbols,
    bindings: &mut Bindings,
    fuel: &mut Fuel,
) -> Result<Outcome, WalkFault>
    requires a { IsKnown symbols.old bindings.old a.now }
    requires b { IsKnown symbols.old bindings.old b.now }
    requires c { IsKnown symbols.old bindings.old c.now }
    requires setting { IsSetting symbols.old bindings.old }
    ensures { Answers (act_of_three builtin (text_at symbols.old bindings.old a.now) (text_at symbols.old bindings.old b.now)
        (text_at symbols.old bindings.old c.now) fuel.old (texts_of symbols.old bindings.old))
        symbols.old bindings.old fuel.old result symbols.new bindings.new fuel.new }
{
    match builtin {
        OfThree::Functor => functor(a, b, c, symbols, bindings, fuel),
        OfThree::Arg => arg(a, b, c, symbols, bindings, fuel),
        OfThree::Compare => compare_terms(a, b, c, symbols, bindings, fuel),
    }
}

/// A goal of one of the builtins on terms, with this name and these arguments, is executed by its act. What it answers is how it ends:
/// `Spent` where the act takes more steps than are left; variables may have been given out, and bound, by then. Names keep their numbers,
/// and the names of errors may join them.
pub fn inspect(
    name: Sym,
    args: &[Ref],
    symbols: &mut Symbols,
    bindings: &mut Bindings,
    fuel: &mut Fuel,
) -> Result<Outcome, WalkFault>
    requires name { name.0 < length symbols.old }
    requires builtin { is_builtin (name_at symbols.old name.0) (length args.now) ≡ true }
    requires args { All (IsKnown symbols.old bindings.old) args.now }
    requires setting { IsSetting symbols.old bindings.old }
    ensures { Answers (act_on_terms fuel.old (named symbols.old (node name.0 (args_at bindings.old.terms args.now)))
        (texts_of symbols.old bindings.old)) symbols.old bindings.old fuel.old result symbols.new bindings.new fuel.new }
{
    let text = symbols.name_of(name);
    if args.len() == 1 {
        let builtin = of_one(text).unwrap();
        inspect_one(builtin, &args[0], symbols, bindings, fuel)
    } else if args.len() == 2 {
        let builtin = of_two(text).unwrap();
        inspect_two(builtin, &args[0], &args[1], symbols, bindings, fuel)
    } else {
        let builtin = of_three(text).unwrap();
        inspect_three(
            builtin, &args[0], &args[1], &args[2], symbols, bindings, fuel,
        )
    }
}
