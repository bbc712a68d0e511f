//! The variables of a term (ISO/IEC 13211-1, 8.5.5).

ghost use Rattle.std.specs.Prelude.{◌≡◌, ◌<◌, [], ℕ, List, IfOk, OnOk, length, map, All};
ghost use Rattle.op_logic.specs.Term.{var};
ghost use Rattle.op_term.specs.Head.{head};
ghost use Rattle.op_term.specs.Places.{term_at};
ghost use Rattle.op_term.specs.Variables.{distinct_variables};
ghost use Rattle.op_bind.specs.State.{value_of};
ghost use Rattle.op_inspect.specs.Answering.{unify_terms as the_unification};
ghost use Rattle.op_inspect.specs.Copies.{variables_act, variables_as, variables_listed};
ghost use Rattle.op_inspect.specs.Lists.{list_of};
ghost use Rattle.op_inspect.specs.Outcomes.{text_at, texts_of, Answers, IsKnown, IsSetting};
ghost use Rattle.op_inspect.specs.inner.Met.{with_node, met_back};

use crate::lists::{Seen, listed, make_list};
use crate::outcome::Outcome;
use crate::problem::{Expected, Problem};
use crate::throwing::refuse;
use crate::unification::unify_terms;
use indexmap::IndexSet;
use op_base::Memory;
use op_bind::{Bindings, Ref};
use op_term::{Fuel, Node, Symbols, WalkFault, push_args, size};

// The place of a variable joins.
fn note(at: &Ref, bindings: &Bindings, places: &mut Vec<Ref>) -> Result<(), Memory>
    requires at { at.now < length bindings.now.terms }
    requires places { All (λ r. r < length bindings.now.terms) places.old.items }
    ensures there { OnOk result (All (λ r. r < length bindings.now.terms) places.new.items) }
    ensures met { OnOk result ((vs : List ℕ) → met_back bindings.now vs places.new.items
        ≡ met_back bindings.now (with_node vs (head (value_of bindings.now at.now))) places.old.items) }
{
    let place = bindings.followed(at);
    if let Node::Var(_) = bindings.outline(&place) {
        places.push(place)?;
    }
    Ok(())
}

// The places of the variables in a term's value, from the right.
fn places_within(term: &Ref, bindings: &Bindings) -> Result<Vec<Ref>, Memory>
    requires { term.now < length bindings.now.terms }
    ensures there { IfOk result (λ places. All (λ r. r < length bindings.now.terms) places.items) }
    ensures met { IfOk result (λ places. met_back bindings.now [] places.items
        ≡ distinct_variables (value_of bindings.now term.now)) }
{
    let mut places = Vec::new(bindings.alloc());
    let mut todo = Vec::new(bindings.alloc());
    todo.push(*term)?;
    'walk: while let Some(next) = todo.pop() {
        note(&next, bindings, &mut places)?;
        push_args(bindings, &next, bindings.head_of(&next).arity(), &mut todo)?;
    }
    Ok(places)
}

// A variable's place joins where the variable is met for the first time.
fn meet_variable(
    place: &Ref,
    bindings: &Bindings,
    met: &mut IndexSet<u64>,
    found: &mut Vec<Ref>,
) -> Result<(), Memory>
    requires place { place.now < length bindings.now.terms }
    requires there { All (λ r. r < length bindings.now.terms) found.old.items }
    requires terms { map (term_at bindings.now.terms) found.old.items ≡ map var met.old.keys }
    ensures there { OnOk result (All (λ r. r < length bindings.now.terms) found.new.items) }
    ensures terms { OnOk result (map (term_at bindings.now.terms) found.new.items ≡ map var met.new.keys) }
    ensures met { OnOk result (met.new.keys ≡ with_node met.old.keys (head (term_at bindings.now.terms place.now))) }
{
    if let Node::Var(v) = bindings.outline(place) {
        if met.insert(v)? {
            found.push(*place)?;
        }
    }
    Ok(())
}

// Of places from the right: the first one of each variable, from the left.
fn first_places(mut places: Vec<Ref>, bindings: &Bindings) -> Result<Vec<Ref>, Memory>
    requires { All (λ r. r < length bindings.now.terms) places.items }
    ensures there { IfOk result (λ found. All (λ r. r < length bindings.now.terms) found.items) }
    ensures terms { IfOk result (λ found. map (term_at bindings.now.terms) found.items
        ≡ map var (met_back bindings.now [] places.items)) }
{
    let mut met = IndexSet::new(bindings.alloc());
    let mut found = Vec::new(bindings.alloc());
    'first: while let Some(place) = places.pop() {
        meet_variable(&place, bindings, &mut met, &mut found)?;
    }
    Ok(found)
}

// The variables of a term's value, each once, by first occurrence.
fn variables_within(term: &Ref, bindings: &Bindings) -> Result<Vec<Ref>, Memory>
    requires { term.now < length bindings.now.terms }
    ensures there { IfOk result (λ found. All (λ r. r < length bindings.now.terms) found.items) }
    ensures terms { IfOk result (λ found. map (term_at bindings.now.terms) found.items
        ≡ map var (distinct_variables (value_of bindings.now term.now))) }
{
    let places = places_within(term, bindings)?;
    let found = first_places(places, bindings)?;
    Ok(found)
}

// The list of the variables is unified with a list.
fn unify_variables(
    term: &Ref,
    list: &Ref,
    symbols: &mut Symbols,
    bindings: &mut Bindings,
    fuel: &mut Fuel,
) -> Result<Outcome, WalkFault>
    requires term { IsKnown symbols.old bindings.old term.now }
    requires list { IsKnown symbols.old bindings.old list.now }
    requires setting { IsSetting symbols.old bindings.old }
    ensures { Answers (λ w. the_unification (text_at symbols.old bindings.old list.now)
        (list_of (variables_as (distinct_variables (value_of bindings.old term.now)))) fuel.old (texts_of symbols.old bindings.old) w w)
        symbols.old bindings.old fuel.old result symbols.new bindings.new fuel.new }
{
    let found = variables_within(term, bindings)?;
    let made = make_list(&found, symbols, bindings)?;
    unify_terms(list, &made, symbols, bindings, fuel)
}

// Where the list is one, or may become one: a step for each node of the term's value comes first.
fn list_variables(
    term: &Ref,
    list: &Ref,
    symbols: &mut Symbols,
    bindings: &mut Bindings,
    fuel: &mut Fuel,
) -> Result<Outcome, WalkFault>
    requires term { IsKnown symbols.old bindings.old term.now }
    requires list { IsKnown symbols.old bindings.old list.now }
    requires setting { IsSetting symbols.old bindings.old }
    ensures { Answers (variables_listed (text_at symbols.old bindings.old term.now) (text_at symbols.old bindings.old list.now)
        fuel.old (texts_of symbols.old bindings.old)) symbols.old bindings.old fuel.old result symbols.new bindings.new fuel.new }
{
    match size(bindings.alloc(), bindings, term, fuel) {
        Ok(_) => unify_variables(term, list, symbols, bindings, fuel),
        Err(fault) => Err(fault),
    }
}

/// term_variables/2.
pub(crate) fn variables(
    term: &Ref,
    list: &Ref,
    symbols: &mut Symbols,
    bindings: &mut Bindings,
    fuel: &mut Fuel,
) -> Result<Outcome, WalkFault>
    requires term { IsKnown symbols.old bindings.old term.now }
    requires list { IsKnown symbols.old bindings.old list.now }
    requires setting { IsSetting symbols.old bindings.old }
    ensures { Answers (variables_act (text_at symbols.old bindings.old term.now) (text_at symbols.old bindings.old list.now)
        fuel.old (texts_of symbols.old bindings.old)) symbols.old bindings.old fuel.old result symbols.new bindings.new fuel.new }
{
    match listed(list, symbols, bindings)? {
        Seen::List(elements) => list_variables(term, list, symbols, bindings, fuel),
        Seen::Partial => list_variables(term, list, symbols, bindings, fuel),
        Seen::NoList => {
            refuse(
                Problem::NotOfType(Expected::List, *list),
                symbols,
                bindings,
                fuel,
            )
        }
    }
}
