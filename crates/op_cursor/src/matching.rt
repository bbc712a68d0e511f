ghost use Rattle.std.specs.Prelude.{◌≡◌, ◌+◌, ◌<◌, ◌≤◌, [], ◌∷◌, ℕ, length, All, Err, IfOk, OnOk};
ghost use Rattle.op_logic.specs.Term.{args_of, arity};
ghost use Rattle.op_logic.specs.Bind.{zip_args};
ghost use Rattle.op_logic.specs.Names.{named, HasNames};
ghost use Rattle.op_term.specs.Places.{term_at};
ghost use Rattle.op_moves.specs.Pattern.{tested};
ghost use Rattle.op_moves.specs.Pairs.{all_matched, went_on};
ghost use Rattle.op_event.specs.View.{event_in};
ghost use Rattle.op_cursor.specs.inner.Parts.{part_term, side_term, IsPart};
ghost use Rattle.op_cursor.specs.inner.Stacks.{pairs_from, values_from, IsFollowed, IsPair};

use crate::outline::{Outline, agree};
use crate::part::{Part, Side, argument, part_outline, side_argument, side_outline};
use crate::values::value_of;
use op_base::Memory;
use op_event::EventView;
use op_term::{Fuel, Node, Symbols, Tree, WalkFault, Whole};
use smallvec::SmallVec;
use std::alloc::Global;

// A variable's part in place of the variable, where it stands for one.
fn followed(whole: &Whole<'_>, side: &Side, values: &[(u64, Part)]) -> Side
    requires { (at : ℕ) → side.now ≡ Side.Pattern at → at < length whole.now.terms }
    ensures { IsFollowed whole.now.terms values.now side.now result }
{
    match side {
        Side::Event(_) => *side,
        Side::Pattern(at) => followed_node(whole, *at, values),
    }
}

fn followed_node(whole: &Whole<'_>, at: u64, values: &[(u64, Part)]) -> Side
    requires { at < length whole.now.terms }
    ensures { IsFollowed whole.now.terms values.now (Side.Pattern at) result }
{
    match whole.node(&at) {
        Node::Var(v) => match value_of(values, v) {
            Some(part) => Side::Event(part),
            None => Side::Pattern(at),
        },
        _ => Side::Pattern(at),
    }
}

// The pairs of two terms' arguments, the first pair on top.
fn push_pairs(
    whole: &Whole<'_>,
    names: &Symbols,
    view: &EventView<'_>,
    side: &Side,
    part: &Part,
    n: u64,
    todo: &mut SmallVec<(Side, Part), 8>,
) -> Result<(), Memory>
    requires pair { IsPair whole.now.terms names.now view.now (side.now, part.now) }
    requires left { n ≡ arity (args_of (side_term whole.now.terms names.now view.now side.now)) }
    requires right { n ≡ arity (args_of (part_term view.now part.now)) }
    requires todo { All (λ p. IsPair whole.now.terms names.now view.now p) todo.old.items }
    ensures todo { OnOk result (All (λ p. IsPair whole.now.terms names.now view.now p) todo.new.items) }
    ensures pairs { OnOk result (pairs_from whole.now.terms names.now view.now todo.new.items []
        ≡ zip_args (args_of (side_term whole.now.terms names.now view.now side.now)) (args_of (part_term view.now part.now))
        (pairs_from whole.now.terms names.now view.now todo.old.items [])) }
{
    let mut i = n;
    'down: while i > 0 {
        i -= 1;
        let left = side_argument(whole, view, side, i);
        let right = argument(view, part, i);
        todo.push((left, right))?;
    }
    Ok(())
}

// One pair: what it leaves goes on top of the others. Whether the pattern may still accept.
fn take_pair(
    whole: &Whole<'_>,
    names: &Symbols,
    view: &EventView<'_>,
    side: &Side,
    part: &Part,
    values: &mut SmallVec<(u64, Part), 8>,
    todo: &mut SmallVec<(Side, Part), 8>,
) -> Result<bool, Memory>
    requires pair { IsPair whole.now.terms names.now view.now (side.now, part.now) }
    requires values { All (λ x. IsPart view.now x.1) values.old.items }
    requires todo { All (λ p. IsPair whole.now.terms names.now view.now p) todo.old.items }
    ensures met { IfOk result (λ went. all_matched (values_from view.now values.old.items [])
        ((side_term whole.now.terms names.now view.now side.now, part_term view.now part.now)
        ∷ pairs_from whole.now.terms names.now view.now todo.old.items [])
        ≡ went_on went (values_from view.now values.new.items [])
        (pairs_from whole.now.terms names.now view.now todo.new.items [])) }
    ensures values { OnOk result (All (λ x. IsPart view.now x.1) values.new.items) }
    ensures todo { OnOk result (All (λ p. IsPair whole.now.terms names.now view.now p) todo.new.items) }
{
    let side = followed(whole, side, values.as_slice());
    let left = side_outline(whole, view, &side);
    if let Outline::Variable(v) = left {
        values.push((v, *part))?;
        return Ok(true);
    }
    if !agree(&left, &part_outline(view, part), names, view) {
        return Ok(false);
    }
    push_pairs(whole, names, view, &side, part, left.count(), todo)?;
    Ok(true)
}

/// Whether a pattern accepts an event, at a step for each pair that is taken. Where fewer are left, all of them are taken.
pub(crate) fn accepts(
    alloc: Global,
    whole: &Whole<'_>,
    names: &Symbols,
    view: &EventView<'_>,
    fuel: &mut Fuel,
) -> Result<bool, WalkFault>
    requires there { whole.now.root < length whole.now.terms }
    requires names { HasNames (length names.now) (term_at whole.now.terms whole.now.root) }
    ensures answer { IfOk result (λ b. b ≡ (tested (named names.now (term_at whole.now.terms whole.now.root)) (event_in view.now)).yes) }
    ensures paid { OnOk result (fuel.old
        ≡ fuel.new + (tested (named names.now (term_at whole.now.terms whole.now.root)) (event_in view.now)).cost) }
    ensures spent { result ≡ Err WalkFault.Spent
        → fuel.old < (tested (named names.now (term_at whole.now.terms whole.now.root)) (event_in view.now)).cost }
    ensures empty { result ≡ Err WalkFault.Spent → fuel.new ≡ 0 }
    ensures falls { fuel.new ≤ fuel.old }
{
    let mut values = SmallVec::new(alloc);
    let mut todo = SmallVec::new(alloc);
    todo.push((Side::Pattern(whole.root()), Part::Whole))?;
    'pairs: while let Some(pair) = todo.pop() {
        fuel.spend(1)?;
        if !take_pair(whole, names, view, &pair.0, &pair.1, &mut values, &mut todo)? {
            return Ok(false);
        }
    }
    Ok(true)
}
