ghost use Rattle.std.specs.Prelude.{◌≡◌, ◌<◌, ◌+◌, ◌^◌, ◌++◌, ◌∷◌, [], length, take, IfOk};
ghost use Rattle.op_logic.specs.Names.{HasNames, named};
ghost use Rattle.op_reader.specs.Variables.{HasVariables};
ghost use Rattle.op_store.specs.Load.{goal_in, goal_read as the_goal_read, goal_of, goal_bytes as the_goal_bytes};
ghost use Rattle.op_store.specs.Queries.{TellsGoal, IsSoundGoal};

use crate::goals::goal::{Converted, Goal, convert_read};
use crate::loading::line::{fault_line, first_token, is_rest, line_at, rest};
use crate::loading::load_fault::{LoadFault, LoadFaultKind};
use op_base::Memory;
use op_reader::{Read, ReadFault, ReadFaultKind, Reading, read_term};
use op_term::{Ops, Symbols};
use op_trace::Flags;
use std::alloc::Global;

// A term that was read as a goal from these bytes.
fn goal_read(
    alloc: Global,
    symbols: &mut Symbols,
    bytes: &[u8],
    read: Read,
) -> Result<Goal, LoadFault>
    requires names { HasNames (length symbols.old) read.term }
    requires variables { HasVariables read.vars read.term read.names }
    requires small { 1 + length bytes.now < 2 ^ 64 }
    ensures tells { TellsGoal symbols.new result (the_goal_read bytes.now (named symbols.new read.term) read.names read.used) }
    ensures sound { IfOk result (IsSoundGoal (length symbols.new)) }
    ensures kept { take (length symbols.old) symbols.new ≡ symbols.old }
{
    let line = line_at(1, bytes, first_token(bytes));
    if !is_rest(alloc, rest(bytes, read.used))? {
        return Err(LoadFault::At {
            line,
            kind: LoadFaultKind::Trailing,
        });
    }
    match convert_read(alloc, symbols, read)? {
        Converted::Goal(goal) => Ok(goal),
        Converted::NotBody(_) => Err(LoadFault::At {
            line,
            kind: LoadFaultKind::Body,
        }),
    }
}

// Reads and converts the goal of these bytes.
#[tactic(auto, unfolding(crate::specs::Load::goal_in))]
fn goal_from(
    alloc: Global,
    ops: &Ops,
    flags: Flags,
    symbols: &mut Symbols,
    bytes: &[u8],
) -> Result<Goal, LoadFault>
    requires { 1 + length bytes.now < 2 ^ 64 }
    ensures tells { TellsGoal symbols.new result (goal_in ops.now flags.quotes bytes.now) }
    ensures sound { IfOk result (IsSoundGoal (length symbols.new)) }
    ensures kept { take (length symbols.old) symbols.new ≡ symbols.old }
{
    match read_term(alloc, ops, flags.quotes, symbols, bytes) {
        Ok(Reading::Term(read)) => goal_read(alloc, symbols, bytes, read),
        Ok(Reading::End) => Err(LoadFault::At {
            line: line_at(1, bytes, 0),
            kind: LoadFaultKind::Syntax(ReadFaultKind::NoEnd),
        }),
        Err(ReadFault::Bad { place, kind }) => Err(LoadFault::At {
            line: fault_line(1, bytes, place),
            kind: LoadFaultKind::Syntax(kind),
        }),
        Err(_) => Err(LoadFault::Memory),
    }
}

fn goal_bytes(alloc: Global, text: &[u8]) -> Result<Vec<u8>, Memory>
    ensures { IfOk result (λ v. v.items ≡ the_goal_bytes text.now) }
{
    let mut bytes = Vec::from_slice(alloc, text)?;
    bytes.extend_from_slice(b"\n.\n")?;
    Ok(bytes)
}

/// Reads a goal and converts it.
#[tactic(auto, unfolding(crate::specs::Load::goal_of))]
pub(crate) fn read_goal(
    alloc: Global,
    ops: &Ops,
    flags: Flags,
    symbols: &mut Symbols,
    text: &[u8],
) -> Result<Goal, LoadFault>
    ensures tells { TellsGoal symbols.new result (goal_of ops.now flags.quotes text.now) }
    ensures sound { IfOk result (IsSoundGoal (length symbols.new)) }
    ensures kept { take (length symbols.old) symbols.new ≡ symbols.old }
{
    let bytes = goal_bytes(alloc, text)?;
    goal_from(alloc, ops, flags, symbols, &bytes)
}
