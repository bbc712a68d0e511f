//! The cases of sessions: the top call over a desk in memory.
#![tactic(auto)]

mod case;
mod sessions;

use case::SessionCases;
use op_case_lines::run_cases;
use std::io;

fn main(rt: HostRuntime) -> io::Result<()> {
    run_cases(rt, &mut SessionCases)
}
