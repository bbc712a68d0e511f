use op_base::Memory;

/// How a call of the program ends. The numbers are the exit statuses, from 0 in this order.
#[derive(Clone, Copy, Debug, PartialEq, Eq)]
pub enum Status {
    /// The commands were read to their end.
    Done,
    /// A kept answer isn't the session's.
    Different,
    /// The words aren't of the form.
    Usage,
    /// The program or the goal is refused.
    Load,
    /// Reading failed.
    Read,
    /// Writing failed.
    Write,
    /// Memory was not to be had.
    Memory,
    /// A limit of bytes was passed.
    TooLong,
}

impl From<Memory> for Status {
    ghost use Rattle.std.specs.Prelude.{◌≡◌};
    ghost use Rattle.op_session.specs.declared.status.Status.TheVariants as status;

    ghost from_gives = { λ _ e. e ≡ status.Memory };

    fn from(_e: Memory) -> Status {
        Status::Memory
    }
}
