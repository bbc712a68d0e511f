ghost use Rattle.std.specs.Prelude.{◌≡◌, ◌↔◌, ◌<◌, ◌≤◌, IfOk, OnOk, OnErr, IfErr, IfSome, is_some, false, true, None};
ghost use Rattle.op_event.specs.View.{event_in};
ghost use Rattle.op_machine.specs.Machine.{event_now};
ghost use Rattle.op_moves.specs.Moves as moves;
ghost use Rattle.op_moves.specs.Moves.{place_after};
ghost use Rattle.op_retrace.specs.Fed.{IsSound, shows_event};
ghost use Rattle.op_retrace.specs.Sight.{sight};
ghost use Rattle.op_cursor.specs.Seen.{seen, moment, cause_in, of_feed, CanStand, Leaves};
ghost use Rattle.op_cursor.specs.Moving.{Moves, Breaks, GoesForward, Shows, ShowBreaks, any_run};
ghost use Rattle.op_cursor.specs.Moving.{to_place, back_one, to_start, move_of};
ghost use Rattle.op_cursor.specs.inner.Finds.{found_of};
ghost use Rattle.op_cursor.specs.inner.Does.{IsAwake, CannotWake};

use crate::fault::CursorFault;
use crate::find::{find_before, find_behind, find_last, find_place, find_start};
use crate::found::Found;
use crate::pattern::Pattern;
use crate::search::{SearchFault, find_accepted, find_leaving};
use crate::walk::{arrive, wake};
use op_base::Steps;
use op_desk::Desk;
use op_event::EventView;
use op_retrace::{Cause, Feed, FeedFault};
use op_term::Fuel;
use std::sync::ledger::Ledger;

/// What a move answers. Unless it moved, the place stays.
#[derive(Clone, Copy, Debug, PartialEq, Eq)]
pub enum Move {
    /// There is an event, or place 0, and the cursor stands there.
    Moved,
    /// There is none.
    NoEvent,
    /// There is none, and the move met the end of a run that has spent its steps.
    PastBudget,
    /// The move takes more steps than the fuel has, of which nothing is left.
    Spent,
}

/// A place in a run, with the moves to other places. No event is kept: where an earlier one is asked for, the feed makes the run again.
/// A call that answered a fault answers it as its cause from then on.
#[derive(Drop)]
pub struct Cursor<F: Feed + Drop> {
    feed: F,
    place: u64,
    // Whether memory was wanting that isn't the feed's.
    exhausted: bool,
}

impl<F: Feed + Drop> Cursor<F> {
    /// A cursor at place 0, wherever the feed stands.
    pub fn new(feed: F) -> Cursor<F>
        ensures fed { (seen F.fed result).fed ≡ F.fed feed }
        ensures place { (seen F.fed result).place ≡ 0 }
        ensures cause { cause_in (seen F.fed result) ≡ (F.fed feed).fault }
        ensures stands { (F.fed feed).fault ≡ None → CanStand (seen F.fed result) }
    {
        let _place = feed.place();
        Cursor {
            feed,
            place: 0,
            exhausted: false,
        }
    }

    /// The place: 0 before the first event, or that of an event.
    pub fn place(&self) -> u64
        ensures { result ≡ (seen F.fed self.now).place }
    {
        self.place
    }

    /// The furthest place that was looked at; the end counts as one more than all events.
    pub fn furthest(&self) -> u64
        ensures furthest { result ≡ (seen F.fed self.now).fed.furthest }
        ensures sound { IsSound (seen F.fed self.now).fed }
    {
        let _place = self.feed.place();
        self.feed.furthest()
    }

    // Answers the cause of a fault that was answered before.
    fn wake(&mut self) -> Result<(), FeedFault>
        ensures wakes { OnOk result (IsAwake (seen F.fed self.old) (seen F.fed self.new)) }
        ensures fails { IfErr result (λ f. CannotWake f (seen F.fed self.old) (seen F.fed self.new)) }
    {
        if self.exhausted {
            return Err(FeedFault::Ended(Cause::Memory));
        }
        wake(&mut self.feed)
    }

    // Goes to the place that was found.
    fn settle(&mut self, found: Found) -> Move
        ensures answer { result ≡ move_of (found_of found) }
        ensures feed { self.new.feed ≡ self.old.feed }
        ensures place { self.new.place ≡ place_after self.old.place (found_of found) }
        ensures exhausted { self.new.exhausted ≡ self.old.exhausted }
    {
        match found {
            Found::At(place) => {
                self.place = place;
                Move::Moved
            }
            Found::NoEvent => Move::NoEvent,
            Found::PastBudget => Move::PastBudget,
            Found::Spent => Move::Spent,
        }
    }

    /// To the next event.
    pub fn next<D: Desk, L: Ledger>(
        &mut self,
        desk: &mut D,
        fuel: &mut Fuel,
        steps: &mut Steps<L>,
    ) -> Result<Move, CursorFault>
        requires { CanStand (seen F.fed self.old) }
        ensures moves { IfOk result (λ m. Moves any_run moves.next m
            (moment (seen F.fed self.old) (sight D.Desk desk.old) fuel.old steps.old)
            (moment (seen F.fed self.new) (sight D.Desk desk.new) fuel.new steps.new)) }
        ensures breaks { OnErr result (cause_in (seen F.fed self.old) ≡ None → Breaks moves.next
            (moment (seen F.fed self.old) (sight D.Desk desk.old) fuel.old steps.old)
            (moment (seen F.fed self.new) (sight D.Desk desk.new) fuel.new steps.new)) }
        ensures forward { IfOk result (λ m. GoesForward m
            (moment (seen F.fed self.old) (sight D.Desk desk.old) fuel.old steps.old)
            (moment (seen F.fed self.new) (sight D.Desk desk.new) fuel.new steps.new)) }
        ensures leaves { Leaves (of_feed result)
            (moment (seen F.fed self.old) (sight D.Desk desk.old) fuel.old steps.old)
            (moment (seen F.fed self.new) (sight D.Desk desk.new) fuel.new steps.new) }
    {
        match self.wake() {
            Ok(()) => match find_behind(&mut self.feed, self.place, desk, fuel, steps) {
                Ok(found) => Ok(self.settle(found)),
                Err(fault) => Err(CursorFault::Feed(fault)),
            },
            Err(fault) => Err(CursorFault::Feed(fault)),
        }
    }

    /// To the event before, or to place 0 from the first.
    pub fn prev<D: Desk, L: Ledger>(
        &mut self,
        desk: &mut D,
        fuel: &mut Fuel,
        steps: &mut Steps<L>,
    ) -> Result<Move, CursorFault>
        requires { CanStand (seen F.fed self.old) }
        ensures moves { IfOk result (λ m. Moves any_run back_one m
            (moment (seen F.fed self.old) (sight D.Desk desk.old) fuel.old steps.old)
            (moment (seen F.fed self.new) (sight D.Desk desk.new) fuel.new steps.new)) }
        ensures breaks { OnErr result (cause_in (seen F.fed self.old) ≡ None → Breaks back_one
            (moment (seen F.fed self.old) (sight D.Desk desk.old) fuel.old steps.old)
            (moment (seen F.fed self.new) (sight D.Desk desk.new) fuel.new steps.new)) }
        ensures forward { IfOk result (λ m. GoesForward m
            (moment (seen F.fed self.old) (sight D.Desk desk.old) fuel.old steps.old)
            (moment (seen F.fed self.new) (sight D.Desk desk.new) fuel.new steps.new)) }
        ensures leaves { Leaves (of_feed result)
            (moment (seen F.fed self.old) (sight D.Desk desk.old) fuel.old steps.old)
            (moment (seen F.fed self.new) (sight D.Desk desk.new) fuel.new steps.new) }
    {
        let _ = desk;
        let _ = steps;
        match self.wake() {
            Ok(()) => {
                let found = find_before(self.place, fuel);
                Ok(self.settle(found))
            }
            Err(fault) => Err(CursorFault::Feed(fault)),
        }
    }

    /// To place 0.
    pub fn first<D: Desk, L: Ledger>(
        &mut self,
        desk: &mut D,
        fuel: &mut Fuel,
        steps: &mut Steps<L>,
    ) -> Result<Move, CursorFault>
        requires { CanStand (seen F.fed self.old) }
        ensures moves { IfOk result (λ m. Moves any_run to_start m
            (moment (seen F.fed self.old) (sight D.Desk desk.old) fuel.old steps.old)
            (moment (seen F.fed self.new) (sight D.Desk desk.new) fuel.new steps.new)) }
        ensures breaks { OnErr result (cause_in (seen F.fed self.old) ≡ None → Breaks to_start
            (moment (seen F.fed self.old) (sight D.Desk desk.old) fuel.old steps.old)
            (moment (seen F.fed self.new) (sight D.Desk desk.new) fuel.new steps.new)) }
        ensures forward { IfOk result (λ m. GoesForward m
            (moment (seen F.fed self.old) (sight D.Desk desk.old) fuel.old steps.old)
            (moment (seen F.fed self.new) (sight D.Desk desk.new) fuel.new steps.new)) }
        ensures leaves { Leaves (of_feed result)
            (moment (seen F.fed self.old) (sight D.Desk desk.old) fuel.old steps.old)
            (moment (seen F.fed self.new) (sight D.Desk desk.new) fuel.new steps.new) }
    {
        let _ = desk;
        let _ = steps;
        match self.wake() {
            Ok(()) => {
                let found = find_start(fuel);
                Ok(self.settle(found))
            }
            Err(fault) => Err(CursorFault::Feed(fault)),
        }
    }

    /// To the last event, where the run has one and was not cut off by its budget.
    pub fn last<D: Desk, L: Ledger>(
        &mut self,
        desk: &mut D,
        fuel: &mut Fuel,
        steps: &mut Steps<L>,
    ) -> Result<Move, CursorFault>
        requires { CanStand (seen F.fed self.old) }
        ensures moves { IfOk result (λ m. Moves any_run moves.last m
            (moment (seen F.fed self.old) (sight D.Desk desk.old) fuel.old steps.old)
            (moment (seen F.fed self.new) (sight D.Desk desk.new) fuel.new steps.new)) }
        ensures breaks { OnErr result (cause_in (seen F.fed self.old) ≡ None → Breaks moves.last
            (moment (seen F.fed self.old) (sight D.Desk desk.old) fuel.old steps.old)
            (moment (seen F.fed self.new) (sight D.Desk desk.new) fuel.new steps.new)) }
        ensures leaves { Leaves (of_feed result)
            (moment (seen F.fed self.old) (sight D.Desk desk.old) fuel.old steps.old)
            (moment (seen F.fed self.new) (sight D.Desk desk.new) fuel.new steps.new) }
    {
        match self.wake() {
            Ok(()) => match find_last(&mut self.feed, desk, fuel, steps) {
                Ok(found) => Ok(self.settle(found)),
                Err(fault) => Err(CursorFault::Feed(fault)),
            },
            Err(fault) => Err(CursorFault::Feed(fault)),
        }
    }

    /// To the event with this number, or to place 0.
    pub fn goto<D: Desk, L: Ledger>(
        &mut self,
        n: u64,
        desk: &mut D,
        fuel: &mut Fuel,
        steps: &mut Steps<L>,
    ) -> Result<Move, CursorFault>
        requires { CanStand (seen F.fed self.old) }
        ensures moves { IfOk result (λ m. Moves any_run (to_place n) m
            (moment (seen F.fed self.old) (sight D.Desk desk.old) fuel.old steps.old)
            (moment (seen F.fed self.new) (sight D.Desk desk.new) fuel.new steps.new)) }
        ensures breaks { OnErr result (cause_in (seen F.fed self.old) ≡ None → Breaks (to_place n)
            (moment (seen F.fed self.old) (sight D.Desk desk.old) fuel.old steps.old)
            (moment (seen F.fed self.new) (sight D.Desk desk.new) fuel.new steps.new)) }
        ensures forward { IfOk result (λ m. GoesForward m
            (moment (seen F.fed self.old) (sight D.Desk desk.old) fuel.old steps.old)
            (moment (seen F.fed self.new) (sight D.Desk desk.new) fuel.new steps.new)) }
        ensures leaves { Leaves (of_feed result)
            (moment (seen F.fed self.old) (sight D.Desk desk.old) fuel.old steps.old)
            (moment (seen F.fed self.new) (sight D.Desk desk.new) fuel.new steps.new) }
    {
        match self.wake() {
            Ok(()) => match find_place(&mut self.feed, n, desk, fuel, steps) {
                Ok(found) => Ok(self.settle(found)),
                Err(fault) => Err(CursorFault::Feed(fault)),
            },
            Err(fault) => Err(CursorFault::Feed(fault)),
        }
    }

    /// To the next event behind the place at which the box of the present event is left: its exit, fail or exception. At place 0 there
    /// is none.
    pub fn finish<D: Desk, L: Ledger>(
        &mut self,
        desk: &mut D,
        fuel: &mut Fuel,
        steps: &mut Steps<L>,
    ) -> Result<Move, CursorFault>
        requires { CanStand (seen F.fed self.old) }
        ensures moves { IfOk result (λ m. Moves any_run moves.finish m
            (moment (seen F.fed self.old) (sight D.Desk desk.old) fuel.old steps.old)
            (moment (seen F.fed self.new) (sight D.Desk desk.new) fuel.new steps.new)) }
        ensures breaks { OnErr result (cause_in (seen F.fed self.old) ≡ None → Breaks moves.finish
            (moment (seen F.fed self.old) (sight D.Desk desk.old) fuel.old steps.old)
            (moment (seen F.fed self.new) (sight D.Desk desk.new) fuel.new steps.new)) }
        ensures forward { IfOk result (λ m. GoesForward m
            (moment (seen F.fed self.old) (sight D.Desk desk.old) fuel.old steps.old)
            (moment (seen F.fed self.new) (sight D.Desk desk.new) fuel.new steps.new)) }
        ensures leaves { Leaves (of_feed result)
            (moment (seen F.fed self.old) (sight D.Desk desk.old) fuel.old steps.old)
            (moment (seen F.fed self.new) (sight D.Desk desk.new) fuel.new steps.new) }
    {
        match self.wake() {
            Ok(()) => match find_leaving(&mut self.feed, self.place, desk, fuel, steps) {
                Ok(found) => Ok(self.settle(found)),
                Err(SearchFault::Feed(fault)) => Err(CursorFault::Feed(fault)),
                Err(SearchFault::Memory) => {
                    self.exhausted = true;
                    Err(CursorFault::Feed(FeedFault::Memory))
                }
            },
            Err(fault) => Err(CursorFault::Feed(fault)),
        }
    }

    /// To the next event that a pattern accepts. The pattern's size is paid first, and then each look with its test.
    pub fn seek<D: Desk, L: Ledger>(
        &mut self,
        pattern: &Pattern,
        desk: &mut D,
        fuel: &mut Fuel,
        steps: &mut Steps<L>,
    ) -> Result<Move, CursorFault>
        requires { CanStand (seen F.fed self.old) }
        ensures moves { IfOk result (λ m. Moves any_run (moves.seek pattern.now) m
            (moment (seen F.fed self.old) (sight D.Desk desk.old) fuel.old steps.old)
            (moment (seen F.fed self.new) (sight D.Desk desk.new) fuel.new steps.new)) }
        ensures breaks { OnErr result (cause_in (seen F.fed self.old) ≡ None → Breaks (moves.seek pattern.now)
            (moment (seen F.fed self.old) (sight D.Desk desk.old) fuel.old steps.old)
            (moment (seen F.fed self.new) (sight D.Desk desk.new) fuel.new steps.new)) }
        ensures forward { IfOk result (λ m. GoesForward m
            (moment (seen F.fed self.old) (sight D.Desk desk.old) fuel.old steps.old)
            (moment (seen F.fed self.new) (sight D.Desk desk.new) fuel.new steps.new)) }
        ensures leaves { Leaves (of_feed result)
            (moment (seen F.fed self.old) (sight D.Desk desk.old) fuel.old steps.old)
            (moment (seen F.fed self.new) (sight D.Desk desk.new) fuel.new steps.new) }
    {
        match self.wake() {
            Ok(()) => match find_accepted(pattern, &mut self.feed, self.place, desk, fuel, steps) {
                Ok(found) => Ok(self.settle(found)),
                Err(SearchFault::Feed(fault)) => Err(CursorFault::Feed(fault)),
                Err(SearchFault::Memory) => {
                    self.exhausted = true;
                    Err(CursorFault::Feed(FeedFault::Memory))
                }
            },
            Err(fault) => Err(CursorFault::Feed(fault)),
        }
    }

    /// Makes the feed stand at the place, so that `event` shows the event there. It may make the run again.
    pub fn show<D: Desk, L: Ledger>(
        &mut self,
        desk: &mut D,
        steps: &mut Steps<L>,
    ) -> Result<(), CursorFault>
        requires { CanStand (seen F.fed self.old) }
        ensures shows { OnOk result (Shows
            (moment (seen F.fed self.old) (sight D.Desk desk.old) 0 steps.old)
            (moment (seen F.fed self.new) (sight D.Desk desk.new) 0 steps.new)) }
        ensures breaks { OnErr result (cause_in (seen F.fed self.old) ≡ None → ShowBreaks
            (moment (seen F.fed self.old) (sight D.Desk desk.old) 0 steps.old)
            (moment (seen F.fed self.new) (sight D.Desk desk.new) 0 steps.new)) }
        ensures leaves { Leaves (of_feed result)
            (moment (seen F.fed self.old) (sight D.Desk desk.old) 0 steps.old)
            (moment (seen F.fed self.new) (sight D.Desk desk.new) 0 steps.new) }
    {
        match self.wake() {
            Ok(()) => match arrive(&mut self.feed, self.place, desk, steps) {
                Ok(()) => Ok(()),
                Err(fault) => Err(CursorFault::Feed(fault)),
            },
            Err(fault) => Err(CursorFault::Feed(fault)),
        }
    }

    /// The event at the place, None exactly at place 0, once `show` has made the feed stand there. It is the feed's own event.
    pub fn event(&self) -> Option<EventView<'_>>
        requires there { (seen F.fed self.now).fed.place ≡ (seen F.fed self.now).place }
        requires shown { 0 < (seen F.fed self.now).place → shows_event (seen F.fed self.now).fed ≡ true }
        ensures some { is_some result ≡ true ↔ (0 < (seen F.fed self.now).place) }
        ensures event { IfSome result (λ v. event_in v ≡ event_now (seen F.fed self.now).fed.machine) }
        ensures bindings { IfSome result (λ v. v.state ≡ (seen F.fed self.now).fed.machine.bindings) }
        ensures symbols { IfSome result (λ v. v.names ≡ (seen F.fed self.now).fed.machine.tables.names) }
    {
        if self.place == 0 {
            return None;
        }
        self.feed.event()
    }

    /// Lends the feed. The place stays, and from then on the cursor stands for what the feed was given back as.
    pub fn feed_mut(&mut self) -> &mut F
        ensures { result.now ≡ self.old.feed }
    {
        &mut self.feed
    }
}
