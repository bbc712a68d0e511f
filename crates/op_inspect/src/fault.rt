ghost use Rattle.std.specs.Prelude.{◌≡◌};
ghost use Rattle.op_inspect.specs.declared.fault.EvalFault.TheVariants.{Memory, Spent};
ghost use Rattle.op_inspect.specs.Told.{of_error};

use op_base::Memory;
use op_term::{Spent, Sym};
use std::alloc::{AllocError, AllocFailed};
use std::error::Error;
use std::fmt;

/// Why a function has no value for integers (ISO/IEC 13211-1, 7.12.2, evaluation errors).
#[derive(Clone, Copy, Debug, PartialEq, Eq)]
pub enum EvaluationError {
    /// The value is past 64 bits.
    Overflow,
    ZeroDivisor,
    /// A shift by less than no bits, or by more than 63.
    Undefined,
}

impl EvaluationError {
    /// The fault of an expression whose evaluation meets this error.
    pub fn as_fault(self) -> EvalFault
        ensures { result ≡ of_error self }
    {
        match self {
            EvaluationError::Overflow => EvalFault::Overflow,
            EvaluationError::ZeroDivisor => EvalFault::ZeroDivisor,
            EvaluationError::Undefined => EvalFault::Undefined,
        }
    }
}

/// Why an expression was not evaluated.
#[derive(Clone, Copy, Debug, PartialEq, Eq)]
pub enum EvalFault {
    Memory,
    /// Fewer steps were left than the evaluation takes.
    Spent,
    /// A variable stands where a value is wanted.
    Unbound,
    /// An atom, or a compound whose name and number of arguments are no function's.
    Evaluable(Sym, u64),
    Overflow,
    ZeroDivisor,
    Undefined,
}

impl fmt::Display for EvalFault {
    fn fmt<W: fmt::Write>(&self, f: &mut fmt::Formatter<W>) -> fmt::Result {
        match self {
            EvalFault::Memory => write!(f, "Memory"),
            EvalFault::Spent => write!(f, "Spent"),
            EvalFault::Unbound => write!(f, "Unbound"),
            EvalFault::Evaluable(_, _) => write!(f, "Evaluable"),
            EvalFault::Overflow => write!(f, "Overflow"),
            EvalFault::ZeroDivisor => write!(f, "ZeroDivisor"),
            EvalFault::Undefined => write!(f, "Undefined"),
        }
    }
}

impl Error for EvalFault {}

impl From<Memory> for EvalFault {
    ghost from_gives = { λ _ e. e ≡ Memory };

    fn from(_e: Memory) -> EvalFault {
        EvalFault::Memory
    }
}

impl From<AllocError> for EvalFault {
    ghost from_gives = { λ _ e. e ≡ Memory };

    fn from(_e: AllocError) -> EvalFault {
        EvalFault::Memory
    }
}

impl<T: Drop> From<AllocFailed<T>> for EvalFault {
    ghost from_gives = { λ _ e. e ≡ Memory };

    fn from(_e: AllocFailed<T>) -> EvalFault {
        EvalFault::Memory
    }
}

impl From<Spent> for EvalFault {
    ghost from_gives = { λ _ e. e ≡ Spent };

    fn from(_e: Spent) -> EvalFault {
        EvalFault::Spent
    }
}
