//! The cases of runs: the turns of a goal over a program, how many there are, the choice points that are kept, solutions, and feeds.
#![tactic(auto)]

mod case;
mod feeds;
mod runs;
mod solutions;
mod texts;
mod turns;

use case::RunCases;
use op_case_lines::run_cases;
use std::io;

fn main(rt: HostRuntime) -> io::Result<()> {
    run_cases(rt, &mut RunCases)
}
