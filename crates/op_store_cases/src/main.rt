//! The cases of programs: names in a store, bodies, loading, goals, commands and procedures.
#![tactic(auto)]

mod bodies;
mod case;
mod faults;
mod names;
mod stores;

use case::StoreCases;
use op_case_lines::run_cases;
use std::io;

fn main(rt: HostRuntime) -> io::Result<()> {
    run_cases(rt, &mut StoreCases)
}
