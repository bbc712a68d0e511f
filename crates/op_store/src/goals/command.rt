ghost use Rattle.std.specs.Prelude.{◌≡◌, length, take, IfOk, IfErr};
ghost use Rattle.op_logic.specs.Names.{HasNames, named};
ghost use Rattle.op_reader.specs.Variables.{HasVariables};
ghost use Rattle.op_store.specs.Load.{command_of, command_read};
ghost use Rattle.op_store.specs.Queries.{TellsCommand, IsSoundGoal, IsSoundFault};

use crate::goals::command_fault::CommandFault;
use crate::goals::goal::{Converted, Goal, convert_read};
use op_reader::{Read, ReadFault, ReadFaultKind, Reading, read_term};
use op_term::{Ops, Symbols};
use op_trace::Flags;
use std::alloc::Global;

fn convert_command(alloc: Global, symbols: &mut Symbols, read: Read) -> Result<Goal, CommandFault>
    requires names { HasNames (length symbols.old) read.term }
    requires variables { HasVariables read.vars read.term read.names }
    ensures tells { TellsCommand symbols.new result (command_read (named symbols.new read.term) read.names) }
    ensures sound { IfOk result (IsSoundGoal (length symbols.new)) }
    ensures refused { IfErr result (IsSoundFault (length symbols.new)) }
    ensures kept { take (length symbols.old) symbols.new ≡ symbols.old }
{
    match convert_read(alloc, symbols, read)? {
        Converted::Goal(goal) => Ok(goal),
        Converted::NotBody(term) => Err(CommandFault::NotBody(term)),
    }
}

/// Reads a command and converts it.
#[tactic(auto, unfolding(crate::specs::Load::command_of))]
pub(crate) fn read_command(
    alloc: Global,
    ops: &Ops,
    flags: Flags,
    symbols: &mut Symbols,
    text: &[u8],
) -> Result<Goal, CommandFault>
    ensures tells { TellsCommand symbols.new result (command_of ops.now flags.quotes text.now) }
    ensures sound { IfOk result (IsSoundGoal (length symbols.new)) }
    ensures refused { IfErr result (IsSoundFault (length symbols.new)) }
    ensures kept { take (length symbols.old) symbols.new ≡ symbols.old }
{
    match read_term(alloc, ops, flags.quotes, symbols, text) {
        Ok(Reading::Term(read)) => convert_command(alloc, symbols, read),
        Ok(Reading::End) => Err(CommandFault::Bad {
            place: text.len() as u64,
            kind: ReadFaultKind::NoEnd,
        }),
        Err(ReadFault::Bad { place, kind }) => Err(CommandFault::Bad { place, kind }),
        Err(_) => Err(CommandFault::Memory),
    }
}
