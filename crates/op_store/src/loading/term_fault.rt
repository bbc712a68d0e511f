use crate::loading::load_fault::LoadFaultKind;
use op_base::Memory;

/// Why a term of a text didn't join.
#[derive(Clone, Copy, Debug, PartialEq, Eq)]
pub(crate) enum TermFault {
    Memory,
    Refused(LoadFaultKind),
}

impl From<Memory> for TermFault {
    ghost use Rattle.std.specs.Prelude.{◌≡◌};
    ghost use Rattle.op_store.specs.declared.loading.term_fault.TermFault.{TermFault};

    ghost from_gives = { λ _ e. e ≡ TermFault.Memory };

    fn from(_e: Memory) -> TermFault {
        TermFault::Memory
    }
}
