ghost use Rattle.std.specs.Prelude.{◌≡◌, true, IfOk};
ghost use Rattle.op_desk.specs.Frame.{Each};
ghost use Rattle.op_desk.specs.Memory.{fresh_of};
ghost use Rattle.op_desk.specs.System.{unused_of};

use op_base::Memory;
use op_case_lines::{Line, bytes_of, failing};
use op_desk::{Bytes, Chan, Desk, DeskFault, Fail, FileDesk, MemoryDesk, Shelf, put_all, take_all};
use std::alloc::Global;
use std::fs;

fn desk_of(alloc: Global, failing: Vec<Fail>) -> Result<MemoryDesk, Memory>
    ensures { IfOk result (λ desk. Each (λ c. fresh_of desk c ≡ true)) }
{
    let mut shelf = Shelf::new(alloc);
    shelf.add("in", b"old")?;
    shelf.add("other", b"xyz")?;
    shelf.add("in", b"abc")?;
    let commands = bytes_of(alloc, b"next.")?;
    let input = Bytes::new(alloc);
    Ok(MemoryDesk::new(alloc, shelf, commands, input, failing))
}

fn add_done(line: &mut Line, done: Result<(), DeskFault>) {
    match done {
        Ok(()) => line.add("ok "),
        Err(DeskFault::Failed) => line.add("failed "),
        Err(DeskFault::Memory) => line.note(Err(Memory)),
    }
}

fn add_count(line: &mut Line, count: Result<usize, DeskFault>, piece: &[u8]) {
    match count {
        Ok(count) => {
            line.add_number("", count as u64);
            line.add(" ");
            line.add_bytes(piece);
            line.add(" ");
        }
        Err(fault) => add_done(line, Err(fault)),
    }
}

// What a desk has left and written.
fn add_state(line: &mut Line, desk: &MemoryDesk) {
    for chan in [Chan::Input, Chan::Commands] {
        line.add("|");
        line.add_bytes(desk.bytes_left(chan));
    }
    for chan in [Chan::Output, Chan::Talk] {
        line.add("|");
        line.add_bytes(desk.bytes_written(chan));
    }
}

// Puts bytes on Output.
fn add_put<D: Desk>(line: &mut Line, desk: &mut D, bytes: &[u8]) {
    add_done(line, put_all(desk, Chan::Output, bytes));
}

// Takes two bytes of Input.
fn add_taken<D: Desk>(line: &mut Line, desk: &mut D) {
    let mut piece = [0u8; 2];
    let taken = desk.take(Chan::Input, &mut piece);
    add_count(line, taken, &piece);
}

// Takes a whole file of three bytes.
fn add_file<D: Desk>(alloc: Global, line: &mut Line, desk: &mut D, name: &str) {
    match take_all(alloc, desk, name, 3) {
        Ok(file) => line.add_bytes(file.as_slice()),
        Err(_) => line.add("no file"),
    }
}

// Attaches three channels of a desk that was just made.
fn add_attached(line: &mut Line, desk: &mut MemoryDesk)
    requires { Each (λ c. fresh_of desk.old c ≡ true) }
{
    let input = desk.attach(Chan::Input, "in");
    let commands = desk.attach(Chan::Commands, "-");
    let talk = desk.attach(Chan::Talk, "out");
    add_done(line, input);
    add_done(line, commands);
    add_done(line, talk);
}

/// A desk in memory whose Input is the file `in`, `abc`, and which has the commands `next.`: three channels are attached, two bytes of
/// Input taken, Output put twice, two bytes and a whole file fetched.
pub fn memory_desk(alloc: Global, line: &mut Line, text: &str) -> Result<(), Memory> {
    let mut desk = desk_of(alloc, failing(alloc, text)?)?;
    add_attached(line, &mut desk);
    add_taken(line, &mut desk);
    add_put(line, &mut desk, b"hi");
    add_put(line, &mut desk, b" there");
    let mut piece = [0u8; 2];
    let fetched = desk.fetch("other", 1, &mut piece);
    add_count(line, fetched, &piece);
    add_file(alloc, line, &mut desk, "in");
    add_state(line, &desk);
    Ok(())
}

// Attaches two channels of a desk that was just made to files.
fn attach_files(line: &mut Line, desk: &mut FileDesk)
    requires { Each (λ c. unused_of desk.old c ≡ true) }
{
    let output = desk.attach(Chan::Output, "written");
    let input = desk.attach(Chan::Input, "given");
    add_done(line, output);
    add_done(line, input);
}

/// A desk over the system's files, whose Output is the file `written` and whose Input is the file `given`.
pub fn file_desk(rt: HostRuntime, line: &mut Line) {
    let mut desk = FileDesk::new(rt, rt.alloc());
    attach_files(line, &mut desk);
    add_put(line, &mut desk, b"abc");
    add_file(rt.alloc(), line, &mut desk, "written");
    line.add(" ");
    add_taken(line, &mut desk);
    let _removed = fs::remove_file(&rt, "written");
}
