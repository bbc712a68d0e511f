//! `=..` (ISO/IEC 13211-1, 8.5.3).

ghost use Rattle.std.specs.Prelude.{◌≡◌, ◌<◌, ◌∷◌, IfOk, length, map, All};
ghost use Rattle.op_logic.specs.Term.{args_of};
ghost use Rattle.op_term.specs.Arguments.{args_list};
ghost use Rattle.op_term.specs.Places.{term_at};
ghost use Rattle.op_inspect.specs.Construction.{univ_act, univ_taken, univ_built, univ_listed, univ_of_elements, term_made};
ghost use Rattle.op_inspect.specs.Construction.{with_arguments};
ghost use Rattle.op_inspect.specs.Lists.{Elements};
ghost use Rattle.op_inspect.specs.Outcomes.{text_at, texts_of, Answers, IsKnown, IsSetting};
ghost use Rattle.op_inspect.specs.inner.Seen.{texts};
ghost use Rattle.op_inspect.specs.inner.Settings.{Makes, Stays};
ghost use Rattle.op_inspect.specs.inner.Made.{CanName};

use crate::lists::{Seen, listed, make_list};
use crate::naming::make_name;
use crate::outcome::Outcome;
use crate::problem::{Domain, Expected, Problem};
use crate::refusing::head_problem;
use crate::throwing::refuse;
use crate::type_test::is_variable;
use crate::unification::unify_terms;
use op_base::Memory;
use op_bind::{Bindings, Ref};
use op_term::{Fuel, Node, Symbols, WalkFault};

// A term's name, and then its arguments.
fn parts_of(name: &Ref, at: &Ref, bindings: &Bindings) -> Result<Vec<Ref>, Memory>
    requires name { name.now < length bindings.now.terms }
    requires at { at.now < length bindings.now.terms }
    ensures there { IfOk result (λ parts. All (λ r. r < length bindings.now.terms) parts.items) }
    ensures terms { IfOk result (λ parts. map (term_at bindings.now.terms) parts.items
        ≡ term_at bindings.now.terms name.now ∷ args_list (args_of (term_at bindings.now.terms at.now))) }
{
    let mut parts = Vec::new(bindings.alloc());
    parts.push(*name)?;
    'push: for i in 0..bindings.outline(at).arity() {
        parts.push(bindings.argument(at, i))?;
    }
    Ok(parts)
}

// Of a term that is no variable: the list of its name and its arguments.
fn take_univ(
    at: &Ref,
    list: &Ref,
    symbols: &mut Symbols,
    bindings: &mut Bindings,
    fuel: &mut Fuel,
) -> Result<Outcome, WalkFault>
    requires at { IsKnown symbols.old bindings.old at.now }
    requires list { IsKnown symbols.old bindings.old list.now }
    requires setting { IsSetting symbols.old bindings.old }
    ensures { Answers (univ_taken (text_at symbols.old bindings.old at.now) (text_at symbols.old bindings.old list.now)
        fuel.old (texts_of symbols.old bindings.old)) symbols.old bindings.old fuel.old result symbols.new bindings.new fuel.new }
{
    fuel.spend(bindings.outline(at).arity())?;
    let name = make_name(at, symbols, bindings)?;
    let parts = parts_of(&name, at, bindings)?;
    let made = make_list(&parts, symbols, bindings)?;
    unify_terms(list, &made, symbols, bindings, fuel)
}

// A name with arguments that are there.
fn make_term(
    name: &Ref,
    args: &[Ref],
    symbols: &Symbols,
    bindings: &mut Bindings,
) -> Result<Ref, Memory>
    requires name { IsKnown symbols.now bindings.old name.now }
    requires args { All (IsKnown symbols.now bindings.old) args.now }
    requires can { CanName (term_at bindings.old.terms name.now) (length args.now) }
    ensures made { IfOk result (λ r. Makes symbols.now bindings.old symbols.now bindings.new r
        (with_arguments (text_at symbols.now bindings.old name.now) (texts symbols.now bindings.old args.now))) }
    ensures stays { Stays symbols.now symbols.now bindings.old bindings.new }
{
    let _count = symbols.count();
    match bindings.outline(name) {
        Node::Atom(atom) => {
            if args.len() == 0 {
                Ok(*name)
            } else {
                bindings.compound(atom, args)
            }
        }
        _ => Ok(*name),
    }
}

// Of a variable, by a name that can have these arguments.
fn unify_made(
    at: &Ref,
    name: &Ref,
    args: &[Ref],
    symbols: &Symbols,
    bindings: &mut Bindings,
    fuel: &mut Fuel,
) -> Result<Outcome, WalkFault>
    requires at { IsKnown symbols.now bindings.old at.now }
    requires name { IsKnown symbols.now bindings.old name.now }
    requires args { All (IsKnown symbols.now bindings.old) args.now }
    requires can { CanName (term_at bindings.old.terms name.now) (length args.now) }
    requires setting { IsSetting symbols.now bindings.old }
    ensures { Answers (term_made (text_at symbols.now bindings.old at.now) (text_at symbols.now bindings.old name.now)
        (texts symbols.now bindings.old args.now) fuel.old (texts_of symbols.now bindings.old))
        symbols.now bindings.old fuel.old result symbols.now bindings.new fuel.new }
{
    let _count = symbols.count();
    fuel.spend(args.len() as u64)?;
    let made = make_term(name, args, symbols, bindings)?;
    unify_terms(at, &made, symbols, bindings, fuel)
}

// Of a variable, by a list's first element and the others.
fn build_of_elements(
    at: &Ref,
    head: &Ref,
    args: &[Ref],
    symbols: &mut Symbols,
    bindings: &mut Bindings,
    fuel: &mut Fuel,
) -> Result<Outcome, WalkFault>
    requires at { IsKnown symbols.old bindings.old at.now }
    requires head { IsKnown symbols.old bindings.old head.now }
    requires args { All (IsKnown symbols.old bindings.old) args.now }
    requires setting { IsSetting symbols.old bindings.old }
    ensures { Answers (univ_of_elements (text_at symbols.old bindings.old at.now) (text_at symbols.old bindings.old head.now)
        (texts symbols.old bindings.old args.now) fuel.old (texts_of symbols.old bindings.old))
        symbols.old bindings.old fuel.old result symbols.new bindings.new fuel.new }
{
    let name = bindings.followed(head);
    match head_problem(bindings.outline(&name), args.len() as u64, &name) {
        Some(problem) => refuse(problem, symbols, bindings, fuel),
        None => unify_made(at, &name, args, symbols, bindings, fuel),
    }
}

// Of a variable, by a list of these elements.
fn build_of_list(
    at: &Ref,
    list: &Ref,
    elements: &[Ref],
    symbols: &mut Symbols,
    bindings: &mut Bindings,
    fuel: &mut Fuel,
) -> Result<Outcome, WalkFault>
    requires at { IsKnown symbols.old bindings.old at.now }
    requires list { IsKnown symbols.old bindings.old list.now }
    requires elements { All (IsKnown symbols.old bindings.old) elements.now }
    requires setting { IsSetting symbols.old bindings.old }
    ensures { Answers (univ_listed (Elements (texts symbols.old bindings.old elements.now))
        (text_at symbols.old bindings.old at.now) (text_at symbols.old bindings.old list.now)
        fuel.old (texts_of symbols.old bindings.old)) symbols.old bindings.old fuel.old result symbols.new bindings.new fuel.new }
{
    if elements.len() == 0 {
        refuse(
            Problem::NotInDomain(Domain::NonEmptyList, *list),
            symbols,
            bindings,
            fuel,
        )
    } else {
        build_of_elements(at, &elements[0], &elements[1..], symbols, bindings, fuel)
    }
}

// Of a variable.
fn build_univ(
    at: &Ref,
    list: &Ref,
    symbols: &mut Symbols,
    bindings: &mut Bindings,
    fuel: &mut Fuel,
) -> Result<Outcome, WalkFault>
    requires at { IsKnown symbols.old bindings.old at.now }
    requires list { IsKnown symbols.old bindings.old list.now }
    requires setting { IsSetting symbols.old bindings.old }
    ensures { Answers (univ_built (text_at symbols.old bindings.old at.now) (text_at symbols.old bindings.old list.now)
        fuel.old (texts_of symbols.old bindings.old)) symbols.old bindings.old fuel.old result symbols.new bindings.new fuel.new }
{
    match listed(list, symbols, bindings)? {
        Seen::List(elements) => build_of_list(at, list, &elements, symbols, bindings, fuel),
        Seen::Partial => refuse(Problem::Instantiation, symbols, bindings, fuel),
        Seen::NoList => refuse(
            Problem::NotOfType(Expected::List, *list),
            symbols,
            bindings,
            fuel,
        ),
    }
}

/// `=..`.
pub(crate) fn univ(
    term: &Ref,
    list: &Ref,
    symbols: &mut Symbols,
    bindings: &mut Bindings,
    fuel: &mut Fuel,
) -> Result<Outcome, WalkFault>
    requires term { IsKnown symbols.old bindings.old term.now }
    requires list { IsKnown symbols.old bindings.old list.now }
    requires setting { IsSetting symbols.old bindings.old }
    ensures { Answers (univ_act (text_at symbols.old bindings.old term.now) (text_at symbols.old bindings.old list.now)
        fuel.old (texts_of symbols.old bindings.old)) symbols.old bindings.old fuel.old result symbols.new bindings.new fuel.new }
{
    let at = bindings.followed(term);
    if is_variable(bindings.outline(&at)) {
        build_univ(&at, list, symbols, bindings, fuel)
    } else {
        take_univ(&at, list, symbols, bindings, fuel)
    }
}
