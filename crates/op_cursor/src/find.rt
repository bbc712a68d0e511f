ghost use Rattle.std.specs.Prelude.{◌≡◌, ◌+◌, ◌-◌, ◌<◌, ◌≤◌, ℕ, List};
ghost use Rattle.std.specs.Prelude.{IfOk, OnOk, IfErr, None, is_some, false, true, length};
ghost use Rattle.op_trace.specs.Run.{events_of};
ghost use Rattle.op_moves.specs.Moves as moves;
ghost use Rattle.op_moves.specs.Moves.{Stand, outcome};
ghost use Rattle.op_moves.specs.Places.{event_count};
ghost use Rattle.op_retrace.specs.Fed.{IsSound};
ghost use Rattle.op_retrace.specs.Sight.{Sight, sight};
ghost use Rattle.op_cursor.specs.Seen.{IsPlaceOf};
ghost use Rattle.op_cursor.specs.Moving.{any_run, to_place};
ghost use Rattle.op_cursor.specs.inner.Walks.{Walks, Stops};
ghost use Rattle.op_cursor.specs.inner.Finds.{found_of, place_found as the_place_found};
ghost use Rattle.op_cursor.specs.inner.Does.{Does, Forward, Fails};

use crate::found::{Found, end_found, is_short};
use crate::walk::{go_past, step};
use op_base::Steps;
use op_desk::Desk;
use op_retrace::{Feed, FeedFault, FeedStep};
use op_term::Fuel;
use std::sync::ledger::Ledger;

// Whether it is known already what lies behind a place.
fn is_known<F: Feed>(feed: &F, limit: u64) -> bool
    ensures known { result ≡ true → is_some (F.fed feed.now).ending ≡ false → limit < (F.fed feed.now).furthest }
    ensures open { result ≡ false → (is_some (F.fed feed.now).ending ≡ false) × ((F.fed feed.now).furthest ≤ limit) }
{
    feed.ending().is_some() || feed.furthest() > limit
}

// Whether the end was reached.
fn has_ended<F: Feed>(feed: &F) -> bool
    ensures { result ≡ is_some (F.fed feed.now).ending }
{
    feed.ending().is_some()
}

// What lies behind a place: an event or the end.
fn place_found<F: Feed>(feed: &F, limit: u64) -> Found
    requires none { (F.fed feed.now).fault ≡ None }
    requires sound { IsSound (F.fed feed.now) }
    requires known { is_some (F.fed feed.now).ending ≡ false → limit < (F.fed feed.now).furthest }
    ensures { (rest : List ℕ) → found_of result ≡ the_place_found ((F.fed feed.now).run rest) (limit + 1) }
{
    let furthest = feed.furthest();
    if feed.ending().is_some() && furthest.saturating_sub(limit) <= 1 {
        return end_found(feed);
    }
    Found::At(limit + 1)
}

/// What lies behind a place, at a step for the look.
pub(crate) fn find_behind<F: Feed, D: Desk, L: Ledger>(
    feed: &mut F,
    limit: u64,
    desk: &mut D,
    fuel: &mut Fuel,
    steps: &mut Steps<L>,
) -> Result<Found, FeedFault>
    requires none { (F.fed feed.old).fault ≡ None }
    requires sound { IsSound (F.fed feed.old) }
    ensures does { IfOk result (λ y. (p : ℕ) → IsPlaceOf (F.fed feed.old) p → Does any_run (to_place (limit + 1)) p y
        (F.fed feed.old) (F.fed feed.new) (sight D.Desk desk.old) (sight D.Desk desk.new) steps.old steps.new fuel.old fuel.new) }
    ensures forward { IfOk result (λ y. (p : ℕ) → IsPlaceOf (F.fed feed.old) p
        → Forward p y (F.fed feed.old) (F.fed feed.new) steps.old steps.new) }
    ensures fails { IfErr result (λ f. (p : ℕ) → IsPlaceOf (F.fed feed.old) p → Fails (to_place (limit + 1)) p f
        (F.fed feed.old) (F.fed feed.new) (sight D.Desk desk.old) (sight D.Desk desk.new) steps.old steps.new fuel.old) }
    ensures falls { fuel.new ≤ fuel.old }
{
    if is_short(fuel, 1) {
        return Ok(Found::Spent);
    }
    if is_known(feed, limit) {
        return Ok(place_found(feed, limit));
    }
    match go_past(feed, limit, desk, steps) {
        Ok(()) => Ok(place_found(feed, limit)),
        Err(fault) => Err(fault),
    }
}

/// The event with a number, or place 0, at a step for the look.
pub(crate) fn find_place<F: Feed, D: Desk, L: Ledger>(
    feed: &mut F,
    n: u64,
    desk: &mut D,
    fuel: &mut Fuel,
    steps: &mut Steps<L>,
) -> Result<Found, FeedFault>
    requires none { (F.fed feed.old).fault ≡ None }
    requires sound { IsSound (F.fed feed.old) }
    ensures does { IfOk result (λ y. (p : ℕ) → IsPlaceOf (F.fed feed.old) p → Does any_run (to_place n) p y
        (F.fed feed.old) (F.fed feed.new) (sight D.Desk desk.old) (sight D.Desk desk.new) steps.old steps.new fuel.old fuel.new) }
    ensures forward { IfOk result (λ y. (p : ℕ) → IsPlaceOf (F.fed feed.old) p
        → Forward p y (F.fed feed.old) (F.fed feed.new) steps.old steps.new) }
    ensures fails { IfErr result (λ f. (p : ℕ) → IsPlaceOf (F.fed feed.old) p → Fails (to_place n) p f
        (F.fed feed.old) (F.fed feed.new) (sight D.Desk desk.old) (sight D.Desk desk.new) steps.old steps.new fuel.old) }
    ensures falls { fuel.new ≤ fuel.old }
{
    if n == 0 {
        return Ok(find_start(fuel));
    }
    find_behind(feed, n - 1, desk, fuel, steps)
}

// To the end.
fn go_to_end<F: Feed, D: Desk, L: Ledger>(
    feed: &mut F,
    desk: &mut D,
    steps: &mut Steps<L>,
) -> Result<(), FeedFault>
    requires none { (F.fed feed.old).fault ≡ None }
    requires sound { IsSound (F.fed feed.old) }
    ensures walks { OnOk result (Walks (F.fed feed.old).place (F.fed feed.old) (F.fed feed.new)
        (sight D.Desk desk.old) (sight D.Desk desk.new) steps.old steps.new) }
    ensures there { OnOk result ((rest : List ℕ) → (F.fed feed.new).place ≡ event_count ((F.fed feed.new).run rest) + 1) }
    ensures stops { IfErr result (λ f. (to : ℕ) × Stops (F.fed feed.old).place to f (F.fed feed.old) (F.fed feed.new)
        (sight D.Desk desk.old) (sight D.Desk desk.new) steps.old steps.new) }
{
    'events: loop {
        match step(feed, desk, steps) {
            Ok(FeedStep::Event) => {}
            Ok(FeedStep::End) => return Ok(()),
            Err(fault) => return Err(fault),
        }
    }
}

// The last event, where the end is known.
fn last_found<F: Feed>(feed: &F) -> Found
    requires none { (F.fed feed.now).fault ≡ None }
    requires sound { IsSound (F.fed feed.now) }
    requires known { is_some (F.fed feed.now).ending ≡ true }
    ensures { (rest : List ℕ) → found_of result
        ≡ moves.last_found (event_count ((F.fed feed.now).run rest)) (moves.end_found ((F.fed feed.now).run rest).ending) }
{
    let furthest = feed.furthest();
    match end_found(feed) {
        Found::NoEvent if furthest > 1 => Found::At(furthest - 1),
        found => found,
    }
}

/// The last event, at a step for the look at the end.
pub(crate) fn find_last<F: Feed, D: Desk, L: Ledger>(
    feed: &mut F,
    desk: &mut D,
    fuel: &mut Fuel,
    steps: &mut Steps<L>,
) -> Result<Found, FeedFault>
    requires none { (F.fed feed.old).fault ≡ None }
    requires sound { IsSound (F.fed feed.old) }
    ensures does { IfOk result (λ y. (p : ℕ) → IsPlaceOf (F.fed feed.old) p → Does any_run moves.last p y
        (F.fed feed.old) (F.fed feed.new) (sight D.Desk desk.old) (sight D.Desk desk.new) steps.old steps.new fuel.old fuel.new) }
    ensures fails { IfErr result (λ f. (p : ℕ) → IsPlaceOf (F.fed feed.old) p → Fails moves.last p f
        (F.fed feed.old) (F.fed feed.new) (sight D.Desk desk.old) (sight D.Desk desk.new) steps.old steps.new fuel.old) }
    ensures falls { fuel.new ≤ fuel.old }
{
    if is_short(fuel, 1) {
        return Ok(Found::Spent);
    }
    if has_ended(feed) {
        return Ok(last_found(feed));
    }
    match go_to_end(feed, desk, steps) {
        Ok(()) => Ok(last_found(feed)),
        Err(fault) => Err(fault),
    }
}

/// Place 0, at a step.
pub(crate) fn find_start(fuel: &mut Fuel) -> Found
    ensures finds { (s : Stand) → moves.first s fuel.old ≡ outcome (found_of result) s.furthest fuel.new }
    ensures place { (j : ℕ) → found_of result ≡ moves.At j → j ≤ 0 }
    ensures falls { fuel.new ≤ fuel.old }
{
    if is_short(fuel, 1) {
        return Found::Spent;
    }
    Found::At(0)
}

/// The place before, at a step.
pub(crate) fn find_before(place: u64, fuel: &mut Fuel) -> Found
    ensures finds { (f : ℕ) → place ≤ f → moves.prev_of place (record { place = place; furthest = f }) fuel.old
        ≡ outcome (found_of result) f fuel.new }
    ensures place { (j : ℕ) → found_of result ≡ moves.At j → j ≤ place }
    ensures falls { fuel.new ≤ fuel.old }
{
    if is_short(fuel, 1) {
        return Found::Spent;
    }
    if place == 0 {
        return Found::NoEvent;
    }
    Found::At(place - 1)
}
