ghost use Rattle.std.specs.Prelude.{length, IfOk};
ghost use Rattle.op_logic.specs.Names.{HasNames};
ghost use Rattle.op_machine.specs.Machine.{HasBallNames, TurnHasNames};

use crate::texts::add_text;
use op_base::{Memory, Steps};
use op_case_lines::Line;
use op_machine::{Ending, Machine, MachineFault, Nothing, Turn};
use op_store::Store;
use op_term::{Term, Whole};
use op_writer::Style;
use std::alloc::Global;
use std::sync::ledger::Ledger;

/// A machine's next turn; its host does nothing, so that only want of memory is a fault.
pub fn next<L: Ledger>(machine: &mut Machine, steps: &mut Steps<L>) -> Result<Turn, Memory>
    ensures { IfOk result (TurnHasNames (length machine.new.tables.names)) }
{
    match machine.next(&mut Nothing, steps) {
        Ok(turn) => Ok(turn),
        Err(MachineFault::Memory) | Err(MachineFault::Ended(_)) => Err(Memory),
    }
}

// A ball, quoted, with the operators of the program.
fn add_ball(alloc: Global, line: &mut Line, store: &Store, ball: &Term) -> Result<(), Memory>
    requires { HasNames (length store.now.names) ball.now }
{
    let whole = Whole::new(ball);
    let root = whole.root();
    let symbols = store.symbols();
    add_text(
        alloc,
        line,
        store.ops(),
        Style::Quoted,
        symbols,
        &whole,
        &root,
    )
}

/// Adds the ending, and the steps.
pub fn add_ending(
    alloc: Global,
    line: &mut Line,
    machine: &Machine,
    ending: &Ending,
) -> Result<(), Memory>
    requires { HasBallNames (length machine.now.tables.names) ending.now }
{
    match ending {
        Ending::Stopped => line.add("stopped"),
        Ending::Failed => line.add("failed"),
        Ending::Thrown(ball) => {
            line.add("thrown ");
            add_ball(alloc, line, machine.store(), ball)?;
        }
        Ending::Halted(status) => line.add_integer("halted ", *status),
        Ending::Spent => line.add("spent"),
    }
    line.add_number(" ", machine.used_steps());
    Ok(())
}
