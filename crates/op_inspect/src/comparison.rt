//! Comparison in the standard order (ISO/IEC 13211-1, 8.4).

ghost use Rattle.std.specs.Prelude.{◌≡◌, ◌<◌, length, option_map};
ghost use Rattle.op_inspect.specs.Comparison.{order_act, compare_act, order_told, text_of_order, is_order as the_is_order};
ghost use Rattle.op_inspect.specs.Outcomes.{text_at, texts_of, Answers, IsKnown, IsSetting};
ghost use Rattle.op_inspect.specs.inner.Nodes.{compare_problem as the_problem, HasItsName};

use crate::making::make_atom;
use crate::outcome::{Outcome, decided};
use crate::problem::{Domain, Expected, Problem};
use crate::relation::Relation;
use crate::throwing::refuse;
use crate::unification::unify_terms;
use op_bind::{Bindings, Ref};
use op_term::{Fuel, Node, Symbols, WalkFault, compare};
use std::cmp::Ordering;

/// `==`, `\==`, `@<`, `@=<`, `@>` and `@>=`.
pub(crate) fn order(
    relation: Relation,
    a: &Ref,
    b: &Ref,
    symbols: &Symbols,
    bindings: &Bindings,
    fuel: &mut Fuel,
) -> Result<Outcome, WalkFault>
    requires a { IsKnown symbols.now bindings.now a.now }
    requires b { IsKnown symbols.now bindings.now b.now }
    requires setting { IsSetting symbols.now bindings.now }
    ensures { Answers (order_act relation (text_at symbols.now bindings.now a.now) (text_at symbols.now bindings.now b.now)
        fuel.old (texts_of symbols.now bindings.now)) symbols.now bindings.now fuel.old result symbols.now bindings.now fuel.new }
{
    match compare(bindings.alloc(), bindings, a, b, symbols, fuel) {
        Ok(order) => Ok(decided(relation.holds(order))),
        Err(fault) => Err(fault),
    }
}

fn is_order(name: &str) -> bool
    ensures { result ≡ the_is_order name.now }
{
    name == "<" || (name == "=" || name == ">")
}

// The error of the first argument of compare/3, by its outermost node.
fn compare_problem(node: Node, order: &Ref, symbols: &Symbols) -> Option<Problem>
    requires { HasItsName (length symbols.now) node }
    ensures { result ≡ the_problem symbols.now node order.now }
{
    match node {
        Node::Var(_) => None,
        Node::Atom(name) => {
            if is_order(symbols.name_of(name)) {
                None
            } else {
                Some(Problem::NotInDomain(Domain::Order, *order))
            }
        }
        _ => Some(Problem::NotOfType(Expected::Atom, *order)),
    }
}

fn order_text(order: Ordering) -> &'static str
    ensures { result.now ≡ text_of_order order }
{
    match order {
        Ordering::Less => "<",
        Ordering::Equal => "=",
        Ordering::Greater => ">",
    }
}

// How two terms compare is unified with a term.
fn tell_order(
    order: &Ref,
    a: &Ref,
    b: &Ref,
    symbols: &mut Symbols,
    bindings: &mut Bindings,
    fuel: &mut Fuel,
) -> Result<Outcome, WalkFault>
    requires order { IsKnown symbols.old bindings.old order.now }
    requires a { IsKnown symbols.old bindings.old a.now }
    requires b { IsKnown symbols.old bindings.old b.now }
    requires setting { IsSetting symbols.old bindings.old }
    ensures { Answers (order_told (text_at symbols.old bindings.old order.now) (text_at symbols.old bindings.old a.now)
        (text_at symbols.old bindings.old b.now) fuel.old (texts_of symbols.old bindings.old))
        symbols.old bindings.old fuel.old result symbols.new bindings.new fuel.new }
{
    match compare(bindings.alloc(), bindings, a, b, symbols, fuel) {
        Ok(found) => {
            let word = make_atom(order_text(found), symbols, bindings)?;
            unify_terms(order, &word, symbols, bindings, fuel)
        }
        Err(fault) => Err(fault),
    }
}

/// compare/3.
pub(crate) fn compare_terms(
    order: &Ref,
    a: &Ref,
    b: &Ref,
    symbols: &mut Symbols,
    bindings: &mut Bindings,
    fuel: &mut Fuel,
) -> Result<Outcome, WalkFault>
    requires order { IsKnown symbols.old bindings.old order.now }
    requires a { IsKnown symbols.old bindings.old a.now }
    requires b { IsKnown symbols.old bindings.old b.now }
    requires setting { IsSetting symbols.old bindings.old }
    ensures { Answers (compare_act (text_at symbols.old bindings.old order.now) (text_at symbols.old bindings.old a.now)
        (text_at symbols.old bindings.old b.now) fuel.old (texts_of symbols.old bindings.old))
        symbols.old bindings.old fuel.old result symbols.new bindings.new fuel.new }
{
    let at = bindings.followed(order);
    match compare_problem(bindings.outline(&at), &at, symbols) {
        Some(problem) => refuse(problem, symbols, bindings, fuel),
        None => tell_order(order, a, b, symbols, bindings, fuel),
    }
}
