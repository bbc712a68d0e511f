ghost use Rattle.std.specs.Prelude.{◌<◌, length, IfOk};

use crate::faults::{add_flags, add_load_kind};
use op_base::Memory;
use op_case_lines::{Line, add_read_kind, decoded, field, kind_of, set_word};
use op_store::{CommandFault, LoadFault, Locked, Pi, Snapshot, Store};
use std::alloc::Global;

fn add_fault(line: &mut Line, store: &Store, fault: LoadFault) -> Result<(), Memory> {
    match fault {
        LoadFault::Memory => return Err(Memory),
        LoadFault::At { line: number, kind } => {
            line.add_number("", number);
            line.add(" ");
            add_load_kind(line, store, kind);
        }
    }
    Ok(())
}

/// What loading a program comes to.
pub fn add_load(line: &mut Line, store: &mut Store, text: &[u8]) -> Result<(), Memory> {
    match store.load(text) {
        Ok(()) => Ok(line.add("ok")),
        Err(fault) => add_fault(line, store, fault),
    }
}

/// How many variables and named variables a goal that is read has, or its fault.
pub fn add_goal(line: &mut Line, store: &mut Store, text: &[u8]) -> Result<(), Memory> {
    match store.goal(text) {
        Ok(goal) => {
            line.add_number("", goal.vars);
            line.add_number(" ", goal.names.len());
            Ok(())
        }
        Err(fault) => add_fault(line, store, fault),
    }
}

/// What reading a command comes to.
pub fn add_command(line: &mut Line, store: &mut Store, text: &[u8]) -> Result<(), Memory> {
    match store.command(text) {
        Ok(_) => Ok(line.add("ok")),
        Err(CommandFault::Memory) => Err(Memory),
        Err(CommandFault::Bad { place, kind }) => {
            add_read_kind(line, kind);
            line.add_number(" ", place);
            Ok(())
        }
        Err(CommandFault::NotBody(_)) => Ok(line.add("no body")),
    }
}

/// What loading a program comes to, then what a goal does, and the flags.
pub fn add_after(
    alloc: Global,
    line: &mut Line,
    store: &mut Store,
    text: &str,
) -> Result<(), Memory> {
    add_load(line, store, &decoded(alloc, field(text, 0))?)?;
    line.add("|");
    add_goal(line, store, &decoded(alloc, field(text, 1))?)?;
    line.add("|");
    add_flags(line, store.flags());
    Ok(())
}

// Sets an operator of a store: its priority, its kind and its name.
fn add_set(line: &mut Line, store: &mut Store, text: &str) -> Result<(), Memory> {
    let mut words = text.splitn(3, ' ');
    let priority = words.next().unwrap_or("").parse::<i64>().unwrap_or(0);
    let kind = kind_of(words.next().unwrap_or(""));
    let name = words.next().unwrap_or("");
    if let Some(kind) = kind {
        line.add(set_word(store.set_op(priority, kind, name))?);
    }
    Ok(())
}

/// What a goal comes to before and after an operator is set.
pub fn add_around(
    alloc: Global,
    line: &mut Line,
    store: &mut Store,
    text: &str,
) -> Result<(), Memory> {
    let goal = decoded(alloc, field(text, 1))?;
    add_goal(line, store, &goal)?;
    line.add("|");
    add_set(line, store, field(text, 0))?;
    line.add("|");
    add_goal(line, store, &goal)
}

// The name and the number of arguments of a procedure.
fn indicator(store: &mut Store, text: &str) -> Result<Pi, Memory>
    ensures { IfOk result (λ pi. pi.name.0 < length store.new.names) }
{
    let (name, arity) = text.split_once(' ').unwrap_or((text, "0"));
    let name = store.intern(name)?;
    let arity = arity.parse::<u64>().unwrap_or(0);
    Ok(Pi { name, arity })
}

fn locks(alloc: Global, locked: Locked, text: &str) -> Result<bool, Memory> {
    let mut store = Store::new(alloc, locked)?;
    let pi = indicator(&mut store, text)?;
    Ok(store.is_locked(pi))
}

/// Whether a procedure is locked in a program, and whether it is in an analysis.
pub fn locked(alloc: Global, line: &mut Line, text: &str) -> Result<(), Memory> {
    let program = locks(alloc, Locked::Program, text)?;
    let analysis = locks(alloc, Locked::Analysis, text)?;
    line.add(if program { "true " } else { "false " });
    line.add(if analysis { "true" } else { "false" });
    Ok(())
}

// Adds how many clauses the copy of a snapshot has, and their numbers, those of their copies.
fn add_clauses(line: &mut Line, snapshot: &Snapshot) -> Result<(), Memory> {
    line.add_number(" ", snapshot.copy()?.len());
    for i in 0..snapshot.len() {
        let clause = snapshot.clause(i).copy()?;
        line.add_number(" #", clause.id);
    }
    Ok(())
}

fn add_procedure(line: &mut Line, store: &Store, pi: Pi) -> Result<(), Memory> {
    let kind = if !store.has_procedure(pi) {
        "none"
    } else if store.is_dynamic(pi) {
        "dynamic"
    } else {
        "static"
    };
    line.add(kind);
    if let Some(snapshot) = store.snapshot(pi)? {
        add_clauses(line, &snapshot)?;
    }
    line.add_number(" of ", store.all_clauses()?.len());
    Ok(())
}

/// What loading a program comes to, and the procedure that a field names then.
pub fn add_loaded(
    alloc: Global,
    line: &mut Line,
    store: &mut Store,
    text: &str,
    named: usize,
) -> Result<(), Memory> {
    add_load(line, store, &decoded(alloc, field(text, 0))?)?;
    line.add("|");
    let pi = indicator(store, field(text, named))?;
    add_procedure(line, store, pi)
}

// Loads a further text behind a snapshot, and adds the procedure again, and the snapshot's length.
fn add_behind(
    line: &mut Line,
    store: &mut Store,
    further: &[u8],
    procedure: &str,
) -> Result<(), Memory> {
    let pi = indicator(store, procedure)?;
    let before = store.snapshot(pi)?;
    add_load(line, store, further)?;
    line.add("|");
    add_procedure(line, store, pi)?;
    if let Some(before) = before {
        line.add_number("|", before.len());
    }
    Ok(())
}

/// A procedure before and after a further text is loaded, and how many clauses the snapshot from before has then.
pub fn add_further(
    alloc: Global,
    line: &mut Line,
    store: &mut Store,
    text: &str,
) -> Result<(), Memory> {
    add_loaded(alloc, line, store, text, 2)?;
    line.add("|");
    add_behind(
        line,
        store,
        &decoded(alloc, field(text, 1))?,
        field(text, 2),
    )
}
