ghost use Rattle.std.specs.Prelude.{◌≡◌, ◌++◌, Some, length, IfOk, if◌then◌else◌};
ghost use Rattle.op_store.specs.Queries.{fault_named, IsKnownFault, IsSoundLoadFault};
ghost use Rattle.op_session.specs.Call.{Outcome, unrunnable};
ghost use Rattle.op_session.specs.Words.{fault_words as the_words, load_line as the_line};
ghost use Rattle.op_session.specs.Sight.{sight};
ghost use Rattle.op_session.specs.inner.Steps.{Takes, Says, Reads, ended_as as ended_of};
ghost use Rattle.op_session.specs.inner.Refusing.{Refuses, GoesOn};

use crate::status::Status;
use crate::words::{fault_words, load_line};
use op_base::Memory;
use op_desk::{Bytes, Chan, Desk, DeskFault, TakeFault, put_all, take_all};
use op_store::{LoadFault, LoadFaultKind, Store};
use std::alloc::Global;

// How many bytes a file may have.
const FILE_LIMIT: u64 = 16_777_216;

/// Takes the next byte of the commands, and no more; none at their end.
pub fn take_byte<D: Desk>(desk: &mut D) -> Result<Option<u8>, Status>
    ensures { Takes (sight D.Desk desk.old) (sight D.Desk desk.new) result }
{
    let mut byte = [0; 1];
    match desk.take(Chan::Commands, &mut byte) {
        Ok(0) => Ok(None),
        Ok(_) => Ok(Some(byte[0])),
        Err(DeskFault::Memory) => Err(Status::Memory),
        Err(DeskFault::Failed) => Err(Status::Read),
    }
}

/// Writes all the bytes to Talk. After a fault a front of them was written.
pub fn say<D: Desk>(desk: &mut D, bytes: &[u8]) -> Result<(), Status>
    ensures { Says (sight D.Desk desk.old) (sight D.Desk desk.new) bytes.now result }
{
    match put_all(desk, Chan::Talk, bytes) {
        Ok(()) => Ok(()),
        Err(DeskFault::Memory) => Err(Status::Memory),
        Err(DeskFault::Failed) => Err(Status::Write),
    }
}

/// Writes a line with a name in it.
pub fn say_name<D: Desk>(
    alloc: Global,
    desk: &mut D,
    before: &[u8],
    name: &str,
    behind: &[u8],
) -> Result<(), Status>
    ensures { Says (sight D.Desk desk.old) (sight D.Desk desk.new) (before.now ++ name.now ++ behind.now) result }
{
    let line = named_line(alloc, before, name, behind)?;
    say(desk, line.as_slice())
}

fn named_line(alloc: Global, before: &[u8], name: &str, behind: &[u8]) -> Result<Bytes, Memory>
    ensures { IfOk result (λ line. line ≡ before.now ++ name.now ++ behind.now) }
{
    let mut line = Bytes::new(alloc);
    line.append(before)?;
    line.append(name.as_bytes())?;
    line.append(behind)?;
    Ok(line)
}

/// Writes the line of a refusal.
pub fn say_load<D: Desk>(
    alloc: Global,
    desk: &mut D,
    name: &str,
    line: u64,
    words: &[u8],
) -> Result<(), Status>
    ensures { Says (sight D.Desk desk.old) (sight D.Desk desk.new) (the_line name.now line words.now) result }
{
    let bytes = load_line(alloc, name, line, words)?;
    say(desk, bytes.as_slice())
}

/// Writes the line of a term of a program or a goal that is refused.
pub fn say_refused<D: Desk>(
    alloc: Global,
    desk: &mut D,
    store: &Store,
    name: &str,
    line: u64,
    kind: LoadFaultKind,
) -> Result<(), Status>
    requires { IsKnownFault (length store.now.names) kind }
    ensures { Says (sight D.Desk desk.old) (sight D.Desk desk.new)
        (the_line name.now line (the_words (fault_named store.now.names kind))) result }
{
    let words = fault_words(alloc, store, kind)?;
    say_load(alloc, desk, name, line, words.as_slice())
}

/// The end of a call whose program or goal is refused for a fault, with the line of the refusal.
pub fn refuse<D: Desk>(
    alloc: Global,
    desk: &mut D,
    store: &Store,
    name: &str,
    fault: LoadFault,
) -> Status
    requires { IsSoundLoadFault (length store.now.names) fault }
    ensures { Refuses store.now.names name.now fault result
        (sight D.Desk desk.old) (sight D.Desk desk.new) }
{
    match fault {
        LoadFault::Memory => Status::Memory,
        LoadFault::At { line, kind } => ended_as(
            Status::Load,
            say_refused(alloc, desk, store, name, line, kind),
        ),
    }
}

/// Goes on with a program or a goal that can be run; another is refused with its line.
pub fn demand_runnable<D: Desk>(
    alloc: Global,
    desk: &mut D,
    name: &str,
    runnable: bool,
) -> Result<(), Status>
    ensures { (o : Outcome) → GoesOn result (Some (if runnable then o else unrunnable name.now)) (λ _. o)
        (sight D.Desk desk.old) (sight D.Desk desk.new) }
{
    if runnable {
        return Ok(());
    }
    Err(ended_as(Status::Load, say_load(alloc, desk, name, 1, b"form")))
}

/// Takes a whole file, or None where it has more bytes than a file may have.
pub fn read_file<D: Desk>(alloc: Global, desk: &mut D, name: &str) -> Result<Option<Bytes>, Status>
    ensures { Reads name.now (sight D.Desk desk.old) (sight D.Desk desk.new) result }
{
    match take_all(alloc, desk, name, FILE_LIMIT) {
        Ok(bytes) => Ok(Some(bytes)),
        Err(TakeFault::TooLong) => Ok(None),
        Err(TakeFault::Memory) => Err(Status::Memory),
        Err(TakeFault::Failed) => Err(Status::Read),
    }
}

/// The status of a call that ends by this one, where all could be written.
pub fn ended_as(status: Status, written: Result<(), Status>) -> Status
    ensures { result ≡ ended_of status written }
{
    match written {
        Ok(()) => status,
        Err(fault) => fault,
    }
}
