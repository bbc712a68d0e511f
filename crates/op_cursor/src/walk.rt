ghost use Rattle.std.specs.Prelude.{◌≡◌, ◌+◌, ◌-◌, ◌<◌, ◌≤◌, ℕ, List, min, IfOk, OnOk, IfErr, None};
ghost use Rattle.op_moves.specs.Places.{event_count};
ghost use Rattle.op_retrace.specs.Fed.{IsSound, shows_event as event_is_shown};
ghost use Rattle.op_retrace.specs.Sight.{Sight, sight};
ghost use Rattle.op_cursor.specs.Seen.{IsPlaceOf};
ghost use Rattle.op_cursor.specs.inner.Walks.{Walks, Advanced, Stops, Arrives, behind, start_of};
ghost use Rattle.op_cursor.specs.inner.Does.{Wakes, FailsToWake};

use op_base::Steps;
use op_desk::Desk;
use op_retrace::{Feed, FeedFault, FeedStep};
use std::sync::ledger::Ledger;

/// One place on.
pub(crate) fn step<F: Feed, D: Desk, L: Ledger>(
    feed: &mut F,
    desk: &mut D,
    steps: &mut Steps<L>,
) -> Result<FeedStep, FeedFault>
    requires none { (F.fed feed.old).fault ≡ None }
    requires sound { IsSound (F.fed feed.old) }
    ensures advanced { IfOk result (λ s. Advanced s (F.fed feed.old) (F.fed feed.new) (sight D.Desk desk.old) (sight D.Desk desk.new)
        steps.old steps.new) }
    ensures stops { IfErr result (λ f. Stops (F.fed feed.old).place ((F.fed feed.old).place + 1) f (F.fed feed.old) (F.fed feed.new)
        (sight D.Desk desk.old) (sight D.Desk desk.new) steps.old steps.new) }
{
    match feed.advance(desk, steps) {
        Ok(came) => {
            let _place = feed.place();
            Ok(came)
        }
        Err(fault) => Err(fault),
    }
}

/// To the place behind a limit, or to the end.
pub(crate) fn go_past<F: Feed, D: Desk, L: Ledger>(
    feed: &mut F,
    limit: u64,
    desk: &mut D,
    steps: &mut Steps<L>,
) -> Result<(), FeedFault>
    requires none { (F.fed feed.old).fault ≡ None }
    requires sound { IsSound (F.fed feed.old) }
    requires before { (F.fed feed.old).place ≤ limit + 1 }
    ensures walks { OnOk result (Walks (F.fed feed.old).place (F.fed feed.old) (F.fed feed.new)
        (sight D.Desk desk.old) (sight D.Desk desk.new) steps.old steps.new) }
    ensures there { OnOk result ((rest : List ℕ) → (F.fed feed.new).place ≡ behind ((F.fed feed.new).run rest) limit) }
    ensures stops { IfErr result (λ f. Stops (F.fed feed.old).place (limit + 1) f (F.fed feed.old) (F.fed feed.new)
        (sight D.Desk desk.old) (sight D.Desk desk.new) steps.old steps.new) }
{
    'places: loop {
        if feed.place() > limit {
            return Ok(());
        }
        match step(feed, desk, steps) {
            Ok(FeedStep::Event) => {}
            Ok(FeedStep::End) => return Ok(()),
            Err(fault) => return Err(fault),
        }
    }
}

// Back to the start, where the feed stands behind a place.
fn back<F: Feed>(feed: &mut F, place: u64) -> Result<(), FeedFault>
    requires none { (F.fed feed.old).fault ≡ None }
    requires sound { IsSound (F.fed feed.old) }
    ensures walks { OnOk result ((a : Sight) (n : ℕ)
        → Walks (start_of (F.fed feed.old).place place) (F.fed feed.old) (F.fed feed.new) a a n n) }
    ensures there { OnOk result ((F.fed feed.new).place ≡ start_of (F.fed feed.old).place place) }
    ensures furthest { OnOk result ((F.fed feed.new).furthest ≡ (F.fed feed.old).furthest) }
    ensures places { OnOk result ((p : ℕ) → IsPlaceOf (F.fed feed.old) p → IsPlaceOf (F.fed feed.new) p) }
    ensures stops { IfErr result (λ f. (a : Sight) (n from to : ℕ) → Stops from to f (F.fed feed.old) (F.fed feed.new) a a n n) }
{
    if feed.place() <= place {
        return Ok(());
    }
    reset(feed)
}

/// To the start.
pub(crate) fn reset<F: Feed>(feed: &mut F) -> Result<(), FeedFault>
    requires none { (F.fed feed.old).fault ≡ None }
    requires sound { IsSound (F.fed feed.old) }
    ensures walks { OnOk result ((a : Sight) (n : ℕ) → Walks 0 (F.fed feed.old) (F.fed feed.new) a a n n) }
    ensures there { OnOk result ((F.fed feed.new).place ≡ 0) }
    ensures furthest { OnOk result ((F.fed feed.new).furthest ≡ (F.fed feed.old).furthest) }
    ensures places { OnOk result ((p : ℕ) → IsPlaceOf (F.fed feed.old) p → IsPlaceOf (F.fed feed.new) p) }
    ensures stops { IfErr result (λ f. (a : Sight) (n from to : ℕ) → Stops from to f (F.fed feed.old) (F.fed feed.new) a a n n) }
{
    match feed.reset() {
        Ok(()) => {
            let _place = feed.place();
            Ok(())
        }
        Err(fault) => Err(fault),
    }
}

/// To an event that was looked at, or to place 0.
pub(crate) fn arrive<F: Feed, D: Desk, L: Ledger>(
    feed: &mut F,
    place: u64,
    desk: &mut D,
    steps: &mut Steps<L>,
) -> Result<(), FeedFault>
    requires none { (F.fed feed.old).fault ≡ None }
    requires sound { IsSound (F.fed feed.old) }
    requires place { IsPlaceOf (F.fed feed.old) place }
    ensures arrives { OnOk result (Arrives place (F.fed feed.old) (F.fed feed.new)
        (sight D.Desk desk.old) (sight D.Desk desk.new) steps.old steps.new) }
    ensures stops { IfErr result (λ f. Stops (start_of (F.fed feed.old).place place) place f (F.fed feed.old) (F.fed feed.new)
        (sight D.Desk desk.old) (sight D.Desk desk.new) steps.old steps.new) }
{
    match back(feed, place) {
        Ok(()) => go_on(feed, place, desk, steps),
        Err(fault) => Err(fault),
    }
}

// On to an event that was looked at.
fn go_on<F: Feed, D: Desk, L: Ledger>(
    feed: &mut F,
    place: u64,
    desk: &mut D,
    steps: &mut Steps<L>,
) -> Result<(), FeedFault>
    requires none { (F.fed feed.old).fault ≡ None }
    requires sound { IsSound (F.fed feed.old) }
    requires place { IsPlaceOf (F.fed feed.old) place }
    requires before { (F.fed feed.old).place ≤ place }
    ensures walks { OnOk result (Walks (F.fed feed.old).place (F.fed feed.old) (F.fed feed.new)
        (sight D.Desk desk.old) (sight D.Desk desk.new) steps.old steps.new) }
    ensures there { OnOk result ((F.fed feed.new).place ≡ place) }
    ensures stops { IfErr result (λ f. Stops (F.fed feed.old).place place f (F.fed feed.old) (F.fed feed.new)
        (sight D.Desk desk.old) (sight D.Desk desk.new) steps.old steps.new) }
{
    if place == 0 {
        return Ok(());
    }
    go_past(feed, place - 1, desk, steps)
}

// Whether there is an event to be shown.
fn shows_event<F: Feed>(feed: &F) -> bool
    ensures { result ≡ event_is_shown (F.fed feed.now) }
{
    feed.event().is_some()
}

/// Sees that a feed has answered no fault: it shows an event, or else it goes to the start.
pub(crate) fn wake<F: Feed>(feed: &mut F) -> Result<(), FeedFault>
    ensures wakes { OnOk result (Wakes (F.fed feed.old) (F.fed feed.new)) }
    ensures fails { IfErr result (λ f. FailsToWake f (F.fed feed.old) (F.fed feed.new)) }
{
    let _place = feed.place();
    if shows_event(feed) {
        return Ok(());
    }
    match feed.reset() {
        Ok(()) => {
            let _start = feed.place();
            Ok(())
        }
        Err(fault) => Err(fault),
    }
}
