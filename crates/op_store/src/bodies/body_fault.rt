ghost use Rattle.std.specs.Prelude.{◌≡◌};
ghost use Rattle.op_store.specs.declared.bodies.body_fault.BodyFault.TheVariants.{Memory, Spent};

use op_base::Memory;
use op_term::Spent;
use std::alloc::{AllocError, AllocFailed};

/// Why a term was not converted to a body.
#[derive(Clone, Copy, Debug, PartialEq, Eq)]
pub enum BodyFault {
    Memory,
    /// Fewer steps were left than the conversion takes.
    Spent,
    /// A part is neither a variable nor callable.
    NotCallable,
}

impl From<Memory> for BodyFault {
    ghost from_gives = { λ _ e. e ≡ Memory };

    fn from(_e: Memory) -> BodyFault {
        BodyFault::Memory
    }
}

impl From<AllocError> for BodyFault {
    ghost from_gives = { λ _ e. e ≡ Memory };

    fn from(_e: AllocError) -> BodyFault {
        BodyFault::Memory
    }
}

impl<T: Drop> From<AllocFailed<T>> for BodyFault {
    ghost from_gives = { λ _ e. e ≡ Memory };

    fn from(_e: AllocFailed<T>) -> BodyFault {
        BodyFault::Memory
    }
}

impl From<Spent> for BodyFault {
    ghost from_gives = { λ _ e. e ≡ Spent };

    fn from(_e: Spent) -> BodyFault {
        BodyFault::Spent
    }
}
