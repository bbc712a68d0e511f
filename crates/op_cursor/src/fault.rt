ghost use Rattle.std.specs.Prelude.{◌≡◌};
ghost use Rattle.op_cursor.specs.declared.fault.PatternFault.TheVariants.{Memory};
ghost use Rattle.op_cursor.specs.declared.fault.CursorFault.TheVariants as cursor_fault;

use op_base::Memory;
use op_retrace::FeedFault;
use std::alloc::{AllocError, AllocFailed};
use std::error::Error;
use std::fmt;

/// Why a term is no pattern: want of memory, it is a variable, or it is no term of an event.
#[derive(Clone, Copy, Debug, PartialEq, Eq)]
pub enum PatternFault {
    Memory,
    Unbound,
    NotEvent,
}

impl fmt::Display for PatternFault {
    fn fmt<W: fmt::Write>(&self, f: &mut fmt::Formatter<W>) -> fmt::Result {
        match self {
            PatternFault::Memory => write!(f, "Memory"),
            PatternFault::Unbound => write!(f, "Unbound"),
            PatternFault::NotEvent => write!(f, "NotEvent"),
        }
    }
}

impl Error for PatternFault {}

impl From<Memory> for PatternFault {
    ghost from_gives = { λ _ e. e ≡ Memory };

    fn from(_e: Memory) -> PatternFault {
        PatternFault::Memory
    }
}

/// Why a cursor doesn't answer: by its feed, or as its feed would for want of memory.
#[derive(Clone, Copy, Debug, PartialEq, Eq)]
pub enum CursorFault {
    Feed(FeedFault),
}

impl From<FeedFault> for CursorFault {
    ghost from_gives = { λ f e. e ≡ cursor_fault.Feed f };

    fn from(f: FeedFault) -> CursorFault {
        CursorFault::Feed(f)
    }
}
