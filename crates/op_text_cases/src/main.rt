//! The cases of the layers that know no program: tokens, names, terms read and written, operators, bindings, arithmetic, boxes and desks.
#![tactic(auto)]

mod case;
mod desks;
mod frames;
mod loaded;
mod names;
mod read_terms;
mod show;
mod shown;
mod table;
mod terms;
mod tokens;
mod writing;

use op_case_lines::run_cases;
use std::io;
use table::Table;

fn main(rt: HostRuntime) -> io::Result<()> {
    let Ok(mut table) = Table::new(rt.alloc()) else {
        return Err(io::Error::from(io::ErrorKind::OutOfMemory));
    };
    run_cases(rt, &mut table)
}
