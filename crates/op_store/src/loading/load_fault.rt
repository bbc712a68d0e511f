use crate::procedures::pi::Pi;
use op_base::Memory;
use op_reader::ReadFaultKind;

/// What a term of a text was refused for.
#[derive(Clone, Copy, Debug, PartialEq, Eq)]
pub enum LoadFaultKind {
    /// It can't be read.
    Syntax(ReadFaultKind),
    /// Something stands behind a goal's full stop.
    Trailing,
    /// A clause's head is a variable or a number.
    Head,
    /// A body has a part that is a number.
    Body,
    /// No clause may be for the name.
    Locked(Pi),
    /// No such directive, or one with unfit arguments.
    Directive,
}

/// Why a text was refused: want of memory, or the first fault with its line, counted from 1.
#[derive(Clone, Copy, Debug, PartialEq, Eq)]
pub enum LoadFault {
    Memory,
    At { line: u64, kind: LoadFaultKind },
}

impl From<Memory> for LoadFault {
    ghost use Rattle.std.specs.Prelude.{◌≡◌};
    ghost use Rattle.op_store.specs.declared.loading.load_fault.LoadFault.{LoadFault};

    ghost from_gives = { λ _ e. e ≡ LoadFault.Memory };

    fn from(_e: Memory) -> LoadFault {
        LoadFault::Memory
    }
}
