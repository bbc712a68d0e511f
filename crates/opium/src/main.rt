//! Opium answers questions about the run of a Prolog program: the words are the program's file and the goal, the commands
//! come on standard input, and each answer goes to standard output.
#![tactic(auto)]

ghost use Rattle.std.specs.Prelude.{◌≡◌, ◌<◌};

use op_base::Steps;
use op_desk::FileDesk;
use op_session::{Status, opium};
use std::marker::Brand;
use std::process::ExitCode;
use std::sync::ledger::{Blank, Ledger};
use std::{env, io};

fn main(rt: HostRuntime) -> ExitCode {
    ExitCode::from(run::<Brand>(rt, Blank::new(1)) as u8)
}

// One call over the system's files and streams.
fn run<L: Ledger>(rt: HostRuntime, blank: Blank) -> Status
    requires name { blank.name ≡ L.name }
    requires parts { blank.parts ≡ L.parts }
    requires some { 0 < L.parts }
{
    let mut steps: Steps<L> = Steps::new(blank);
    let mut desk = FileDesk::new(rt, rt.alloc());
    match arguments(rt) {
        Ok(words) => opium(rt.alloc(), &words, &mut desk, &mut steps),
        Err(Status::Memory) => Status::Memory,
        // Words that are no text are not of the form, as no words are.
        Err(_) => opium(rt.alloc(), &[], &mut desk, &mut steps),
    }
}

// The words behind the program's name.
fn arguments(rt: HostRuntime) -> Result<Vec<String>, Status> {
    match env::args(&rt) {
        Ok(all) => match all.skip(1).collect(rt.alloc()) {
            Ok(words) => Ok(words),
            Err(_) => Err(Status::Memory),
        },
        Err(error) => match error.kind() {
            io::ErrorKind::OutOfMemory => Err(Status::Memory),
            _ => Err(Status::Usage),
        },
    }
}
