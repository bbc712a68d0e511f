ghost use Rattle.std.specs.Prelude.{◌≡◌, ◌<◌, true, IfOk};
ghost use Rattle.op_desk.specs.Frame.{Each};
ghost use Rattle.op_desk.specs.Memory.{fresh_of};

use op_base::{Memory, Steps};
use op_case_lines::{Line, bytes_of, decoded, failing, field};
use op_desk::{Bytes, Chan, Fail, MemoryDesk, Shelf};
use op_session::{Status, opium};
use std::alloc::Global;
use std::marker::Brand;
use std::sync::ledger::{Blank, Ledger};

fn desk_of(
    alloc: Global,
    program: &[u8],
    commands: &[u8],
    failing: Vec<Fail>,
) -> Result<MemoryDesk, Memory>
    ensures { IfOk result (λ desk. Each (λ c. fresh_of desk c ≡ true)) }
{
    let mut shelf = Shelf::new(alloc);
    shelf.add("p.pl", program)?;
    let commands = bytes_of(alloc, commands)?;
    let input = Bytes::new(alloc);
    Ok(MemoryDesk::new(alloc, shelf, commands, input, failing))
}

fn call_by<L: Ledger>(
    alloc: Global,
    blank: Blank,
    words: &[String],
    desk: &mut MemoryDesk,
) -> Status
    requires name { blank.name ≡ L.name }
    requires parts { blank.parts ≡ L.parts }
    requires some { 0 < L.parts }
    requires fresh { Each (λ c. fresh_of desk.old c ≡ true) }
{
    let mut steps: Steps<L> = Steps::new(blank);
    opium(alloc, words, desk, &mut steps)
}

fn call(alloc: Global, words: &[String], desk: &mut MemoryDesk) -> Status
    requires { Each (λ c. fresh_of desk.old c ≡ true) }
{
    call_by::<Brand>(alloc, Blank::new(1), words, desk)
}

// The words of a call, as many as there are, each behind a `|`.
fn words_of(alloc: Global, text: &str) -> Result<Vec<String>, Memory> {
    let mut words = Vec::new(alloc);
    'words: for word in text.split('|').skip(1) {
        words.push(String::from_str(alloc, word)?)?;
    }
    Ok(words)
}

fn status_word(status: Status) -> &'static str {
    match status {
        Status::Done => "Done",
        Status::Different => "Different",
        Status::Usage => "Usage",
        Status::Load => "Load",
        Status::Read => "Read",
        Status::Write => "Write",
        Status::Memory => "Memory",
        Status::TooLong => "TooLong",
    }
}

// The desk of a case: which of its calls fails, the program and the commands.
fn desk_in(alloc: Global, text: &str) -> Result<MemoryDesk, Memory>
    ensures { IfOk result (λ desk. Each (λ c. fresh_of desk c ≡ true)) }
{
    let program = decoded(alloc, field(text, 2))?;
    let commands = decoded(alloc, field(text, 3))?;
    desk_of(alloc, &program, &commands, failing(alloc, field(text, 0))?)
}

/// A call over a desk in memory: the call of the desk that fails, the words, the program `p.pl` and the commands. The status, what was
/// written to Talk, and what is left of the commands.
pub fn session(alloc: Global, line: &mut Line, text: &str) -> Result<(), Memory> {
    let words = words_of(alloc, field(text, 1))?;
    let desk = desk_in(alloc, text)?;
    called(alloc, line, &words, desk);
    Ok(())
}

// A call over a desk of its own, and what it leaves.
fn called(alloc: Global, line: &mut Line, words: &[String], mut desk: MemoryDesk)
    requires { Each (λ c. fresh_of desk c ≡ true) }
{
    let status = call(alloc, words, &mut desk);
    line.add(status_word(status));
    line.add(" § ");
    line.add_bytes(desk.bytes_written(Chan::Talk));
    line.add(" § ");
    line.add_bytes(desk.bytes_left(Chan::Commands));
}
