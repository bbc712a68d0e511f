ghost use Rattle.std.specs.Prelude.{◌≡◌};
ghost use Rattle.op_desk.specs.declared.fault.DeskFault.TheVariants as desk_fault;
ghost use Rattle.op_desk.specs.declared.fault.TakeFault.TheVariants as take_fault;

use op_base::Memory;
use thiserror::Error;

/// Why a call of a desk gave up.
#[derive(Clone, Copy, Debug, PartialEq, Eq, Error)]
pub enum DeskFault {
    /// Memory was refused.
    #[error("Memory")]
    Memory,
    /// Reading or writing failed.
    #[error("Failed")]
    Failed,
}

/// Why a whole file was not taken.
#[derive(Clone, Copy, Debug, PartialEq, Eq, Error)]
pub enum TakeFault {
    /// Memory was refused.
    #[error("Memory")]
    Memory,
    /// Reading failed.
    #[error("Failed")]
    Failed,
    /// The file has more bytes than the limit.
    #[error("TooLong")]
    TooLong,
}

impl From<Memory> for DeskFault {
    ghost from_gives = { λ _ e. e ≡ desk_fault.Memory };

    fn from(_e: Memory) -> DeskFault {
        DeskFault::Memory
    }
}

impl From<Memory> for TakeFault {
    ghost from_gives = { λ _ e. e ≡ take_fault.Memory };

    fn from(_e: Memory) -> TakeFault {
        TakeFault::Memory
    }
}
