ghost use Rattle.std.specs.Prelude.{◌<◌, length};

use crate::texts::add_text;
use crate::turns::{add_ending, next};
use op_base::{Memory, Steps};
use op_case_lines::Line;
use op_machine::{Machine, SolutionView, Turn};
use op_term::Ops;
use op_writer::Style;
use std::alloc::Global;
use std::sync::ledger::Ledger;

// A named variable and its value in canonical text.
fn add_value(
    alloc: Global,
    line: &mut Line,
    ops: &Ops,
    view: &SolutionView<'_>,
    i: u64,
) -> Result<(), Memory>
    requires { i < length view.now.variables }
{
    line.add(view.names().name(i));
    line.add("=");
    let value = view.value(i);
    add_text(
        alloc,
        line,
        ops,
        Style::Canonical,
        view.symbols(),
        view.bindings(),
        &value,
    )
}

// A solution: the named variables with their values.
fn add_solution(
    alloc: Global,
    line: &mut Line,
    ops: &Ops,
    view: &SolutionView<'_>,
) -> Result<(), Memory> {
    line.add("solution");
    let names = view.names();
    for i in 0..names.len() {
        line.add(if i == 0 { " " } else { "," });
        add_value(alloc, line, ops, view, i)?;
    }
    Ok(line.add("|"))
}

/// Adds each solution of a run with its values whole, and the ending.
pub fn add_solutions<L: Ledger>(
    alloc: Global,
    line: &mut Line,
    machine: &mut Machine,
    steps: &mut Steps<L>,
) -> Result<(), Memory> {
    for _ in 0..10_000_000 {
        match next(machine, steps)? {
            Turn::Event => {}
            Turn::Solution => {
                if let Some(view) = machine.solution() {
                    add_solution(alloc, line, machine.store().ops(), &view)?;
                }
            }
            Turn::Ended(ending) => {
                add_ending(alloc, line, machine, &ending)?;
                break;
            }
        }
    }
    Ok(())
}
