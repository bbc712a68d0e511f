use crate::feeds::feed;
use crate::runs::{Shown, run};
use op_base::Memory;
use op_case_lines::{Cases, Line, decoded, field, numbered};
use std::alloc::Global;

/// Cases none of which leaves anything for the next.
#[derive(Drop)]
pub struct RunCases;

impl Cases for RunCases {
    fn add_result(
        &mut self,
        rt: HostRuntime,
        line: &mut Line,
        word: &str,
        text: &str,
    ) -> Result<(), Memory> {
        match word {
            "run" => of_run(rt.alloc(), line, text, Shown::Turns),
            "count" => of_run(rt.alloc(), line, text, Shown::Count),
            "choice-points" => of_run(rt.alloc(), line, text, Shown::ChoicePoints),
            "solve" => of_run(rt.alloc(), line, text, Shown::Solutions),
            "feed" => of_feed(rt.alloc(), line, text),
            _ => Ok(line.add("no case")),
        }
    }
}

// A case's text is the budget, the wanted number of solutions, the program and the goal.
fn of_run(alloc: Global, line: &mut Line, text: &str, shown: Shown) -> Result<(), Memory> {
    let (budget, behind) = numbered(text).unwrap_or((0, text));
    let (wanted, fields) = numbered(behind).unwrap_or((1, behind));
    let program = decoded(alloc, field(fields, 0))?;
    let goal = decoded(alloc, field(fields, 1))?;
    run(alloc, line, &program, &goal, budget, wanted, shown)
}

// A case's text is the budget, the wanted number of solutions, the program, the goal and the moves.
fn of_feed(alloc: Global, line: &mut Line, text: &str) -> Result<(), Memory> {
    let (budget, behind) = numbered(text).unwrap_or((0, text));
    let (wanted, fields) = numbered(behind).unwrap_or((1, behind));
    let program = decoded(alloc, field(fields, 0))?;
    let goal = decoded(alloc, field(fields, 1))?;
    let moves = decoded(alloc, field(fields, 2))?;
    feed(alloc, line, &program, &goal, budget, wanted, &moves)
}
