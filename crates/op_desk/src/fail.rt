ghost use Rattle.std.specs.Prelude.{◌≡◌, ◌↔◌, IsTrue, Contains};
ghost use Rattle.op_desk.specs.Memory.{one_more};

use crate::chan::Chan;

/// A call that is to fail: the n-th of its kind, counted from 1.
#[derive(Clone, Copy, Debug, PartialEq, Eq)]
pub enum Fail {
    /// The n-th attach, of any channel.
    Attach(u64),
    /// The n-th take of the channel.
    Take(Chan, u64),
    /// The n-th put on the channel.
    Put(Chan, u64),
    /// The n-th fetch.
    Fetch(u64),
}

/// The next count, which stands still at its type's end.
pub(crate) fn one_more(n: u64) -> u64
    ensures { result ≡ one_more n }
{
    n.saturating_add(1)
}

/// Whether a call is in the list.
pub(crate) fn is_listed(failing: &[Fail], call: Fail) -> bool
    ensures { IsTrue result ↔ Contains failing.now call }
{
    failing.contains(&call)
}
