ghost use Rattle.std.specs.Prelude.{◌≡◌, ◌+◌, ◌<◌, ◌≤◌, ◌==◌, ◌&&◌, ℕ};
ghost use Rattle.std.specs.Prelude.{List, IfOk, OnOk, IfErr, None, true, Err};
ghost use Rattle.op_event.specs.View.{event_in};
ghost use Rattle.op_machine.specs.Machine.{event_now};
ghost use Rattle.op_moves.specs.Moves as moves;
ghost use Rattle.op_moves.specs.Moves.{is_leaving};
ghost use Rattle.op_retrace.specs.Fed.{IsSound, shows_event};
ghost use Rattle.op_retrace.specs.Sight.{sight};
ghost use Rattle.op_cursor.specs.inner.Walks.{Walks};
ghost use Rattle.op_cursor.specs.inner.Finds.{sought_test, Tells, Looks, Finds, BreaksOff};
ghost use Rattle.op_cursor.specs.Seen.{IsPlaceOf};
ghost use Rattle.op_cursor.specs.Moving.{any_run};
ghost use Rattle.op_cursor.specs.inner.Does.{Does, Forward};
ghost use Rattle.op_cursor.specs.inner.Seeks.{searching, Misses};

use crate::found::{Found, end_found, is_short};
use crate::pattern::Pattern;
use crate::walk::{arrive, step};
use op_base::{Memory, Steps};
use op_desk::Desk;
use op_event::EventView;
use op_retrace::{Feed, FeedFault, FeedStep};
use op_term::{Fuel, WalkFault};
use op_trace::Port;
use std::sync::ledger::Ledger;

/// What a search is for: an event that a pattern accepts, or one at which a box is left.
#[derive(Drop)]
pub(crate) enum Sought<'a> {
    Accepted(&'a Pattern),
    Left(u64),
}

/// Why a search doesn't answer: want of memory of its own, or a fault of the feed.
#[derive(Clone, Copy)]
pub(crate) enum SearchFault {
    Memory,
    Feed(FeedFault),
}

fn leaves_box(port: Port) -> bool
    ensures { result ≡ is_leaving port }
{
    match port {
        Port::Exit | Port::Fail | Port::Exception => true,
        Port::Call | Port::Redo => false,
    }
}

// Whether an event is one that is sought.
fn is_sought(sought: &Sought<'_>, view: &EventView<'_>, fuel: &mut Fuel) -> Result<bool, WalkFault>
    ensures answer { IfOk result (λ b. b ≡ (sought_test sought.now (event_in view.now)).yes) }
    ensures paid { OnOk result (fuel.old ≡ fuel.new + (sought_test sought.now (event_in view.now)).cost) }
    ensures spent { result ≡ Err WalkFault.Spent → fuel.old < (sought_test sought.now (event_in view.now)).cost }
    ensures empty { result ≡ Err WalkFault.Spent → fuel.new ≡ 0 }
    ensures falls { fuel.new ≤ fuel.old }
{
    match sought {
        Sought::Accepted(pattern) => pattern.accepts(view, fuel),
        Sought::Left(call) => Ok(leaves_box(view.port()) && view.call() == *call),
    }
}

// The same of the event at which a feed stands.
fn is_sought_now<F: Feed>(sought: &Sought<'_>, feed: &F, fuel: &mut Fuel) -> Result<bool, WalkFault>
    requires { shows_event (F.fed feed.now) ≡ true }
    ensures answer { IfOk result (λ b. b ≡ (sought_test sought.now (event_now (F.fed feed.now).machine)).yes) }
    ensures paid { OnOk result (fuel.old ≡ fuel.new + (sought_test sought.now (event_now (F.fed feed.now).machine)).cost) }
    ensures spent { result ≡ Err WalkFault.Spent → fuel.old < (sought_test sought.now (event_now (F.fed feed.now).machine)).cost }
    ensures empty { result ≡ Err WalkFault.Spent → fuel.new ≡ 0 }
    ensures falls { fuel.new ≤ fuel.old }
{
    match feed.event() {
        Some(view) => is_sought(sought, &view, fuel),
        None => Err(WalkFault::Memory),
    }
}

// A look at the event where the feed stands: None where the search goes on.
fn look_at_event<F: Feed>(
    sought: &Sought<'_>,
    feed: &F,
    fuel: &mut Fuel,
) -> Result<Option<Found>, Memory>
    requires { shows_event (F.fed feed.now) ≡ true }
    ensures tells { IfOk result (λ found. Tells found (sought_test sought.now (event_now (F.fed feed.now).machine))
        (F.fed feed.now).place fuel.old fuel.new) }
    ensures falls { fuel.new ≤ fuel.old }
{
    match is_sought_now(sought, feed, fuel) {
        Ok(true) => Ok(Some(Found::At(feed.place()))),
        Ok(false) => Ok(None),
        Err(WalkFault::Spent) => Ok(Some(Found::Spent)),
        Err(WalkFault::Memory) => Err(Memory),
    }
}

// One look behind the place: None where the search goes on.
fn look<F: Feed, D: Desk, L: Ledger>(
    sought: &Sought<'_>,
    feed: &mut F,
    desk: &mut D,
    fuel: &mut Fuel,
    steps: &mut Steps<L>,
) -> Result<Option<Found>, SearchFault>
    requires none { (F.fed feed.old).fault ≡ None }
    requires sound { IsSound (F.fed feed.old) }
    ensures walks { OnOk result (Walks (F.fed feed.old).place (F.fed feed.old) (F.fed feed.new)
        (sight D.Desk desk.old) (sight D.Desk desk.new) steps.old steps.new) }
    ensures looks { IfOk result (λ found. Looks sought.now found (F.fed feed.old) fuel.old (F.fed feed.new) fuel.new) }
    ensures breaks { IfErr result (λ f. BreaksOff sought.now f (F.fed feed.old) (F.fed feed.new)
        (sight D.Desk desk.old) (sight D.Desk desk.new) steps.old steps.new fuel.old) }
    ensures falls { fuel.new ≤ fuel.old }
{
    if is_short(fuel, 1) {
        return Ok(Some(Found::Spent));
    }
    match step(feed, desk, steps) {
        Ok(FeedStep::End) => Ok(Some(end_found(feed))),
        Ok(FeedStep::Event) => match look_at_event(sought, feed, fuel) {
            Ok(found) => Ok(found),
            Err(Memory) => Err(SearchFault::Memory),
        },
        Err(fault) => Err(SearchFault::Feed(fault)),
    }
}

/// Looks at the events behind the place of the feed, each for a step and what its test takes, until one is sought, and at the end.
pub(crate) fn search<F: Feed, D: Desk, L: Ledger>(
    sought: &Sought<'_>,
    feed: &mut F,
    desk: &mut D,
    fuel: &mut Fuel,
    steps: &mut Steps<L>,
) -> Result<Found, SearchFault>
    requires none { (F.fed feed.old).fault ≡ None }
    requires sound { IsSound (F.fed feed.old) }
    ensures walks { OnOk result (Walks (F.fed feed.old).place (F.fed feed.old) (F.fed feed.new)
        (sight D.Desk desk.old) (sight D.Desk desk.new) steps.old steps.new) }
    ensures finds { IfOk result (λ found. Finds sought.now found (F.fed feed.old).place fuel.old (F.fed feed.new) fuel.new) }
    ensures breaks { IfErr result (λ f. BreaksOff sought.now f (F.fed feed.old) (F.fed feed.new)
        (sight D.Desk desk.old) (sight D.Desk desk.new) steps.old steps.new fuel.old) }
    ensures falls { fuel.new ≤ fuel.old }
{
    'looks: loop {
        match look(sought, feed, desk, fuel, steps) {
            Ok(Some(found)) => return Ok(found),
            Ok(None) => {}
            Err(fault) => return Err(fault),
        }
    }
}

/// The next event behind a place that is sought. The feed goes to the place first, which takes no fuel.
pub(crate) fn find_sought<F: Feed, D: Desk, L: Ledger>(
    sought: &Sought<'_>,
    feed: &mut F,
    place: u64,
    desk: &mut D,
    fuel: &mut Fuel,
    steps: &mut Steps<L>,
) -> Result<Found, SearchFault>
    requires none { (F.fed feed.old).fault ≡ None }
    requires sound { IsSound (F.fed feed.old) }
    requires place { IsPlaceOf (F.fed feed.old) place }
    ensures does { IfOk result (λ y. Does any_run (searching sought.now) place y (F.fed feed.old) (F.fed feed.new)
        (sight D.Desk desk.old) (sight D.Desk desk.new) steps.old steps.new fuel.old fuel.new) }
    ensures forward { IfOk result (λ y. Forward place y (F.fed feed.old) (F.fed feed.new) steps.old steps.new) }
    ensures misses { IfErr result (λ f. Misses (searching sought.now) place f (F.fed feed.old) (F.fed feed.new)
        (sight D.Desk desk.old) (sight D.Desk desk.new) steps.old steps.new fuel.old) }
    ensures falls { fuel.new ≤ fuel.old }
{
    match arrive(feed, place, desk, steps) {
        Ok(()) => {}
        Err(fault) => return Err(SearchFault::Feed(fault)),
    }
    match search(sought, feed, desk, fuel, steps) {
        Ok(found) => Ok(found),
        Err(fault) => Err(fault),
    }
}

/// The next event behind a place that a pattern accepts. The pattern's size is paid first.
pub(crate) fn find_accepted<F: Feed, D: Desk, L: Ledger>(
    pattern: &Pattern,
    feed: &mut F,
    place: u64,
    desk: &mut D,
    fuel: &mut Fuel,
    steps: &mut Steps<L>,
) -> Result<Found, SearchFault>
    requires none { (F.fed feed.old).fault ≡ None }
    requires sound { IsSound (F.fed feed.old) }
    requires place { IsPlaceOf (F.fed feed.old) place }
    ensures does { IfOk result (λ y. Does any_run (moves.seek pattern.now) place y (F.fed feed.old) (F.fed feed.new)
        (sight D.Desk desk.old) (sight D.Desk desk.new) steps.old steps.new fuel.old fuel.new) }
    ensures forward { IfOk result (λ y. Forward place y (F.fed feed.old) (F.fed feed.new) steps.old steps.new) }
    ensures misses { IfErr result (λ f. Misses (moves.seek pattern.now) place f (F.fed feed.old) (F.fed feed.new)
        (sight D.Desk desk.old) (sight D.Desk desk.new) steps.old steps.new fuel.old) }
    ensures falls { fuel.new ≤ fuel.old }
{
    match pattern.size(fuel) {
        Ok(_) => {}
        Err(WalkFault::Spent) => return Ok(Found::Spent),
        Err(WalkFault::Memory) => return Err(SearchFault::Memory),
    }
    let sought = Sought::Accepted(pattern);
    match find_sought(&sought, feed, place, desk, fuel, steps) {
        Ok(found) => Ok(found),
        Err(fault) => Err(fault),
    }
}

// The number of the box whose event the feed shows.
fn call_here<F: Feed>(feed: &F) -> u64
    requires { shows_event (F.fed feed.now) ≡ true }
    ensures { result ≡ (event_now (F.fed feed.now).machine).call }
{
    match feed.event() {
        Some(view) => view.call(),
        None => 0,
    }
}

/// The next place behind a place at which the box of the event there is left. The feed goes to the place first, which takes no fuel; at
/// place 0 there is no event.
pub(crate) fn find_leaving<F: Feed, D: Desk, L: Ledger>(
    feed: &mut F,
    place: u64,
    desk: &mut D,
    fuel: &mut Fuel,
    steps: &mut Steps<L>,
) -> Result<Found, SearchFault>
    requires none { (F.fed feed.old).fault ≡ None }
    requires sound { IsSound (F.fed feed.old) }
    requires place { IsPlaceOf (F.fed feed.old) place }
    ensures does { IfOk result (λ y. Does any_run moves.finish place y (F.fed feed.old) (F.fed feed.new)
        (sight D.Desk desk.old) (sight D.Desk desk.new) steps.old steps.new fuel.old fuel.new) }
    ensures forward { IfOk result (λ y. Forward place y (F.fed feed.old) (F.fed feed.new) steps.old steps.new) }
    ensures misses { IfErr result (λ f. Misses moves.finish place f (F.fed feed.old) (F.fed feed.new)
        (sight D.Desk desk.old) (sight D.Desk desk.new) steps.old steps.new fuel.old) }
    ensures falls { fuel.new ≤ fuel.old }
{
    if place == 0 {
        return Ok(Found::NoEvent);
    }
    match arrive(feed, place, desk, steps) {
        Ok(()) => {}
        Err(fault) => return Err(SearchFault::Feed(fault)),
    }
    let sought = Sought::Left(call_here(feed));
    match search(&sought, feed, desk, fuel, steps) {
        Ok(found) => Ok(found),
        Err(fault) => Err(fault),
    }
}
