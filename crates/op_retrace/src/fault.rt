/// By which fault a feed has ended.
#[derive(Clone, Copy, Debug, PartialEq, Eq)]
pub enum Cause {
    /// Want of memory.
    Memory,
    /// The input could not be read.
    Read,
    /// The output could not be written.
    Write,
    /// The input is too long.
    TooLong,
}

/// Why a feed doesn't answer.
#[derive(Clone, Copy, Debug, PartialEq, Eq)]
pub enum FeedFault {
    /// Want of memory.
    Memory,
    /// The input could not be read.
    Read,
    /// The output could not be written.
    Write,
    /// Another byte of the input was asked for after 64 MiB.
    InputTooLong,
    /// The feed has ended by an earlier fault.
    Ended(Cause),
}
