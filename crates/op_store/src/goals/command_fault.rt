use op_base::Memory;
use op_reader::ReadFaultKind;
use op_term::Term;

/// Why a command is none.
#[derive(Drop)]
pub enum CommandFault {
    Memory,
    /// The text can't be read, at a byte's place; a text without a token counts as one without an end.
    Bad { place: u64, kind: ReadFaultKind },
    /// The term stands for no body.
    NotBody(Term),
}

impl From<Memory> for CommandFault {
    ghost use Rattle.std.specs.Prelude.{◌≡◌};
    ghost use Rattle.op_store.specs.declared.goals.command_fault.CommandFault.{CommandFault};

    ghost from_gives = { λ _ e. e ≡ CommandFault.Memory };

    fn from(_e: Memory) -> CommandFault {
        CommandFault::Memory
    }
}
