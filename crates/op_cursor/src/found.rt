ghost use Rattle.std.specs.Prelude.{◌≡◌, ◌+◌, ◌<◌, true, false};
ghost use Rattle.op_cursor.specs.inner.Finds.{found_of, found_at_end};

use op_machine::Ending;
use op_retrace::Feed;
use op_term::Fuel;

/// What a move finds: a place; no event; none, at the end of a run that has spent its steps; or that it takes more steps than there are.
#[derive(Clone, Copy, Debug, PartialEq, Eq)]
pub(crate) enum Found {
    At(u64),
    NoEvent,
    PastBudget,
    Spent,
}

/// What is found at the end of the run, as far as it is known.
pub(crate) fn end_found<F: Feed>(feed: &F) -> Found
    ensures { found_of result ≡ found_at_end (F.fed feed.now).ending }
{
    match feed.ending() {
        Some(Ending::Spent) => Found::PastBudget,
        _ => Found::NoEvent,
    }
}

/// Takes so many steps. Whether they were not there: then all are taken.
pub(crate) fn is_short(fuel: &mut Fuel, n: u64) -> bool
    ensures paid { result ≡ false → fuel.old ≡ fuel.new + n }
    ensures short { result ≡ true → (fuel.old < n) × (fuel.new ≡ 0) }
{
    if fuel.spend(n).is_err() {
        *fuel = Fuel::new(0);
        return true;
    }
    false
}
