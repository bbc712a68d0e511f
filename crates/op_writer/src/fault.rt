ghost use Rattle.std.specs.Prelude.{◌≡◌};
ghost use Rattle.op_writer.specs.declared.fault.TextFault.TheVariants.{Memory as want_of_memory};

use op_base::Memory;
use std::error::Error;
use std::fmt;

/// Why a text was not written: want of memory, or more bytes than the limit.
#[derive(Clone, Copy, Debug, PartialEq, Eq)]
pub enum TextFault {
    Memory,
    TooLong,
}

impl fmt::Display for TextFault {
    fn fmt<W: fmt::Write>(&self, f: &mut fmt::Formatter<W>) -> fmt::Result {
        match self {
            TextFault::Memory => write!(f, "Memory"),
            TextFault::TooLong => write!(f, "TooLong"),
        }
    }
}

impl Error for TextFault {}

impl From<Memory> for TextFault {
    ghost from_gives = { λ _ e. e ≡ want_of_memory };

    fn from(_e: Memory) -> TextFault {
        TextFault::Memory
    }
}
