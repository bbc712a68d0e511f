use op_base::Memory;
use op_term::Term;

/// How a run ended.
#[derive(Drop)]
pub enum Ending {
    /// The wanted solution was found.
    Stopped,
    /// No alternative was left.
    Failed,
    /// A ball has left all boxes.
    Thrown(Term),
    /// The run was halted with a number.
    Halted(i64),
    /// One more step would have passed the budget.
    Spent,
}

/// What a machine answers: the next turn of its run, or its ending.
#[derive(Drop)]
pub enum Turn {
    /// An event.
    Event,
    /// A solution.
    Solution,
    /// There is no further turn.
    Ended(Ending),
}

/// What kind of turn was the last one.
#[derive(Clone, Copy, Debug, PartialEq, Eq)]
pub enum Last {
    Nothing,
    Event,
    Solution,
}

/// By which fault a machine ended.
#[derive(Clone, Copy, Debug, PartialEq, Eq)]
pub enum Cause {
    /// Want of memory.
    Memory,
}

/// Why a machine doesn't answer a turn.
#[derive(Clone, Copy, Debug, PartialEq, Eq)]
pub enum MachineFault {
    /// Want of memory. The machine has ended.
    Memory,
    /// The machine has ended by an earlier fault.
    Ended(Cause),
}

impl From<Memory> for MachineFault {
    ghost use Rattle.std.specs.Prelude.{◌≡◌};
    ghost use Rattle.op_machine.specs.declared.turn.MachineFault.TheVariants as fault;

    ghost from_gives = { λ _ e. e ≡ fault.Memory };

    fn from(_e: Memory) -> MachineFault {
        MachineFault::Memory
    }
}
