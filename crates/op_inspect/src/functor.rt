//! functor/3 (ISO/IEC 13211-1, 8.5.1).

ghost use Rattle.std.specs.Prelude.{◌≡◌, ◌<◌, ◌+◌, IfOk, OnOk, length};
ghost use Rattle.op_logic.specs.Term.{node};
ghost use Rattle.op_term.specs.Places.{term_at};
ghost use Rattle.op_bind.specs.Grown.{Grows};
ghost use Rattle.op_bind.specs.State.{bindings as the_bindings};
ghost use Rattle.op_inspect.specs.Construction.{functor_act, functor_built, functor_taken, made_functor};
ghost use Rattle.op_inspect.specs.Construction.{variables_from, with_arguments};
ghost use Rattle.op_inspect.specs.Outcomes.{text_at, texts_of, Answers, IsKnown, IsSetting};
ghost use Rattle.op_inspect.specs.inner.Made.{MakesNew, CanName, IsBoundAt};
ghost use Rattle.op_inspect.specs.inner.Settings.{Stays};

use crate::naming::{make_count, make_name};
use crate::outcome::Outcome;
use crate::refusing::{functor_problem, natural_of};
use crate::skeleton::skeleton;
use crate::throwing::refuse;
use crate::type_test::is_variable;
use crate::unification::{unify_both, unify_terms};
use op_base::Memory;
use op_bind::{Bindings, Ref};
use op_term::{Fuel, Node, Sym, Symbols, WalkFault};

// Of a term that is no variable.
fn take_functor(
    at: &Ref,
    name: &Ref,
    count: &Ref,
    symbols: &mut Symbols,
    bindings: &mut Bindings,
    fuel: &mut Fuel,
) -> Result<Outcome, WalkFault>
    requires at { IsKnown symbols.old bindings.old at.now }
    requires bound { IsBoundAt bindings.old at.now }
    requires name { IsKnown symbols.old bindings.old name.now }
    requires count { IsKnown symbols.old bindings.old count.now }
    requires setting { IsSetting symbols.old bindings.old }
    ensures { Answers (functor_taken (text_at symbols.old bindings.old at.now) (text_at symbols.old bindings.old name.now)
        (text_at symbols.old bindings.old count.now) fuel.old (texts_of symbols.old bindings.old))
        symbols.old bindings.old fuel.old result symbols.new bindings.new fuel.new }
{
    let head = make_name(at, symbols, bindings)?;
    let number = make_count(bindings.outline(at).arity(), symbols, bindings)?;
    unify_both(name, &head, count, &number, symbols, bindings, fuel)
}

// A compound of a name and so many new variables.
fn make_compound(name: Sym, count: u64, bindings: &mut Bindings) -> Result<Ref, Memory>
    requires { 0 < count }
    ensures there { IfOk result (λ r. r < length bindings.new.terms) }
    ensures value { IfOk result (λ r. term_at bindings.new.terms r ≡ node name.0 (variables_from bindings.old.count count)) }
    ensures count { OnOk result (bindings.new.count ≡ bindings.old.count + count) }
    ensures bindings { the_bindings bindings.new ≡ the_bindings bindings.old }
    ensures grows { Grows bindings.old bindings.new }
{
    let first = bindings.fresh(count)?;
    let term = skeleton(bindings.alloc(), name, count)?;
    bindings.load(&term, first)
}

// A name with so many new variables as its arguments.
fn make_functor(
    name: &Ref,
    count: u64,
    symbols: &Symbols,
    bindings: &mut Bindings,
) -> Result<Ref, Memory>
    requires name { IsKnown symbols.now bindings.old name.now }
    requires can { CanName (term_at bindings.old.terms name.now) count }
    ensures made { IfOk result (λ r. MakesNew symbols.now bindings.old bindings.new r count
        (with_arguments (text_at symbols.now bindings.old name.now) (variables_from bindings.old.count count))) }
    ensures stays { Stays symbols.now symbols.now bindings.old bindings.new }
{
    let _count = symbols.count();
    match bindings.outline(name) {
        Node::Atom(atom) => {
            if count == 0 {
                Ok(*name)
            } else {
                make_compound(atom, count, bindings)
            }
        }
        _ => Ok(*name),
    }
}

// Of a variable, by a name that can have so many arguments.
fn unify_functor(
    at: &Ref,
    name: &Ref,
    count: u64,
    symbols: &Symbols,
    bindings: &mut Bindings,
    fuel: &mut Fuel,
) -> Result<Outcome, WalkFault>
    requires at { IsKnown symbols.now bindings.old at.now }
    requires name { IsKnown symbols.now bindings.old name.now }
    requires can { CanName (term_at bindings.old.terms name.now) count }
    requires setting { IsSetting symbols.now bindings.old }
    ensures { Answers (made_functor (text_at symbols.now bindings.old at.now) (text_at symbols.now bindings.old name.now) count
        fuel.old (texts_of symbols.now bindings.old)) symbols.now bindings.old fuel.old result symbols.now bindings.new fuel.new }
{
    let _count = symbols.count();
    fuel.spend(count)?;
    let made = make_functor(name, count, symbols, bindings)?;
    unify_terms(at, &made, symbols, bindings, fuel)
}

// Of a variable.
fn build_functor(
    at: &Ref,
    name: &Ref,
    count: &Ref,
    symbols: &mut Symbols,
    bindings: &mut Bindings,
    fuel: &mut Fuel,
) -> Result<Outcome, WalkFault>
    requires at { IsKnown symbols.old bindings.old at.now }
    requires name { IsKnown symbols.old bindings.old name.now }
    requires count { IsKnown symbols.old bindings.old count.now }
    requires setting { IsSetting symbols.old bindings.old }
    ensures { Answers (functor_built (text_at symbols.old bindings.old at.now) (text_at symbols.old bindings.old name.now)
        (text_at symbols.old bindings.old count.now) fuel.old (texts_of symbols.old bindings.old))
        symbols.old bindings.old fuel.old result symbols.new bindings.new fuel.new }
{
    let name = bindings.followed(name);
    let count = bindings.followed(count);
    let number = bindings.outline(&count);
    match functor_problem(bindings.outline(&name), number, &name, &count) {
        Some(problem) => refuse(problem, symbols, bindings, fuel),
        None => unify_functor(at, &name, natural_of(number), symbols, bindings, fuel),
    }
}

/// functor/3.
pub(crate) fn functor(
    term: &Ref,
    name: &Ref,
    count: &Ref,
    symbols: &mut Symbols,
    bindings: &mut Bindings,
    fuel: &mut Fuel,
) -> Result<Outcome, WalkFault>
    requires term { IsKnown symbols.old bindings.old term.now }
    requires name { IsKnown symbols.old bindings.old name.now }
    requires count { IsKnown symbols.old bindings.old count.now }
    requires setting { IsSetting symbols.old bindings.old }
    ensures { Answers (functor_act (text_at symbols.old bindings.old term.now) (text_at symbols.old bindings.old name.now)
        (text_at symbols.old bindings.old count.now) fuel.old (texts_of symbols.old bindings.old))
        symbols.old bindings.old fuel.old result symbols.new bindings.new fuel.new }
{
    let at = bindings.followed(term);
    if is_variable(bindings.outline(&at)) {
        build_functor(&at, name, count, symbols, bindings, fuel)
    } else {
        take_functor(&at, name, count, symbols, bindings, fuel)
    }
}
