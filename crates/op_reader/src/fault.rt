use op_base::Memory;
use op_token::TokenFaultKind;
use std::alloc::{AllocError, AllocFailed};

/// Why a clause's text was refused. Of several causes the first of this list is told, but for one: an integer that only a `-` could have
/// made one, and none did, comes last of all, behind Priority.
#[derive(Clone, Copy, Debug, PartialEq, Eq)]
pub enum ReadFaultKind {
    /// No token begins at the place; for NumberRange, also, in a term without another fault, the first integer of magnitude
    /// 9223372036854775808 that no `-` made negative.
    Token(TokenFaultKind),
    /// No end token; the place is the length of the bytes.
    NoEnd,
    /// A closing bracket that doesn't match the innermost open one, or a bracket that is open at the end.
    Unbalanced,
    /// A token that can't stand there.
    NoOperand,
    /// A row without a tree: no root, or an operand's priority is too high. The place is the clause's first token.
    Priority,
}

/// Why a text was not read.
#[derive(Clone, Copy, Debug, PartialEq, Eq)]
pub enum ReadFault {
    /// Want of memory.
    Memory,
    /// The text was refused, at a byte's place.
    Bad { place: u64, kind: ReadFaultKind },
}

impl From<Memory> for ReadFault {
    ghost use Rattle.std.specs.Prelude.{◌≡◌};
    ghost use Rattle.op_reader.specs.declared.fault.ReadFault.{ReadFault};

    ghost from_gives = { λ _ e. e ≡ ReadFault.Memory };

    fn from(_e: Memory) -> ReadFault {
        ReadFault::Memory
    }
}

impl From<AllocError> for ReadFault {
    ghost use Rattle.std.specs.Prelude.{◌≡◌};
    ghost use Rattle.op_reader.specs.declared.fault.ReadFault.{ReadFault};

    ghost from_gives = { λ _ e. e ≡ ReadFault.Memory };

    fn from(_e: AllocError) -> ReadFault {
        ReadFault::Memory
    }
}

impl<T: Drop> From<AllocFailed<T>> for ReadFault {
    ghost use Rattle.std.specs.Prelude.{◌≡◌};
    ghost use Rattle.op_reader.specs.declared.fault.ReadFault.{ReadFault};

    ghost from_gives = { λ _ e. e ≡ ReadFault.Memory };

    fn from(_e: AllocFailed<T>) -> ReadFault {
        ReadFault::Memory
    }
}
