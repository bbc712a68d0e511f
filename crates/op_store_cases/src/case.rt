use crate::{bodies, names, stores};
use op_base::Memory;
use op_case_lines::{Cases, Line, decoded};
use op_store::{Locked, Store};
use std::alloc::Global;

/// Cases none of which leaves anything for the next.
#[derive(Drop)]
pub struct StoreCases;

impl Cases for StoreCases {
    fn add_result(
        &mut self,
        rt: HostRuntime,
        line: &mut Line,
        word: &str,
        text: &str,
    ) -> Result<(), Memory> {
        of_words(rt.alloc(), line, word, text)
    }
}

// Cases of a body or of two stores, and those of one store: of a program, or of an analysis.
fn of_words(alloc: Global, line: &mut Line, word: &str, text: &str) -> Result<(), Memory> {
    match word {
        "body" => bodies::body(alloc, line, text),
        "locked" => stores::locked(alloc, line, text),
        "command" | "snapshots" => of_new_store(alloc, line, Locked::Analysis, word, text),
        _ => of_new_store(alloc, line, Locked::Program, word, text),
    }
}

fn of_new_store(
    alloc: Global,
    line: &mut Line,
    locked: Locked,
    word: &str,
    text: &str,
) -> Result<(), Memory> {
    let mut store = Store::new(alloc, locked)?;
    of_store(alloc, line, &mut store, word, text)
}

// The cases of a store that was just made.
fn of_store(
    alloc: Global,
    line: &mut Line,
    store: &mut Store,
    word: &str,
    text: &str,
) -> Result<(), Memory> {
    match word {
        "store-names" => names::add_store_numbers(line, store, text),
        "after" => stores::add_after(alloc, line, store, text),
        "set" => stores::add_around(alloc, line, store, text),
        "procedure" => stores::add_loaded(alloc, line, store, text, 1),
        "snapshots" => stores::add_further(alloc, line, store, text),
        _ => of_text(line, store, word, &decoded(alloc, text)?),
    }
}

// The cases whose text is one field.
fn of_text(line: &mut Line, store: &mut Store, word: &str, bytes: &[u8]) -> Result<(), Memory> {
    match word {
        "load" => stores::add_load(line, store, bytes),
        "goal" => stores::add_goal(line, store, bytes),
        "command" => stores::add_command(line, store, bytes),
        _ => Ok(line.add("no case")),
    }
}
