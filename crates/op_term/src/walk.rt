ghost use Rattle.std.specs.Prelude.{◌≡◌};
ghost use Rattle.op_term.specs.declared.walk.WalkFault.TheVariants.{Memory, Spent};

use crate::fuel::Spent;
use op_base::Memory;
use std::alloc::{AllocError, AllocFailed};
use std::error::Error;
use std::fmt;

/// Why a walk over a term stopped: want of memory, or fewer steps left than it takes.
#[derive(Clone, Copy, Debug, PartialEq, Eq)]
pub enum WalkFault {
    Memory,
    Spent,
}

impl fmt::Display for WalkFault {
    fn fmt<W: fmt::Write>(&self, f: &mut fmt::Formatter<W>) -> fmt::Result {
        match self {
            WalkFault::Memory => write!(f, "Memory"),
            WalkFault::Spent => write!(f, "Spent"),
        }
    }
}

impl Error for WalkFault {}

impl From<Memory> for WalkFault {
    ghost from_gives = { λ _ e. e ≡ Memory };

    fn from(_e: Memory) -> WalkFault {
        WalkFault::Memory
    }
}

impl From<AllocError> for WalkFault {
    ghost from_gives = { λ _ e. e ≡ Memory };

    fn from(_e: AllocError) -> WalkFault {
        WalkFault::Memory
    }
}

impl<T: Drop> From<AllocFailed<T>> for WalkFault {
    ghost from_gives = { λ _ e. e ≡ Memory };

    fn from(_e: AllocFailed<T>) -> WalkFault {
        WalkFault::Memory
    }
}

impl From<Spent> for WalkFault {
    ghost from_gives = { λ _ e. e ≡ Spent };

    fn from(_e: Spent) -> WalkFault {
        WalkFault::Spent
    }
}
