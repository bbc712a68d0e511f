use crate::read_terms::of_term;
use crate::shown::{Shown, numbered_case};
use crate::table::Table;
use crate::{desks, frames, names, table, tokens};
use op_base::Memory;
use op_case_lines::{Cases, Line, decoded, numbered};
use std::alloc::Global;

impl Cases for Table {
    fn add_result(
        &mut self,
        rt: HostRuntime,
        line: &mut Line,
        word: &str,
        text: &str,
    ) -> Result<(), Memory> {
        match word {
            "files" => Ok(desks::file_desk(rt, line)),
            "standard" => table::reset(rt.alloc(), line, self),
            "quotes" => Ok(table::quote(line, self, text)),
            "op" => table::set(line, self, text),
            _ => of_words(rt.alloc(), line, self, word, text),
        }
    }
}

// The cases whose text is in words.
fn of_words(
    alloc: Global,
    line: &mut Line,
    table: &Table,
    word: &str,
    text: &str,
) -> Result<(), Memory> {
    match word {
        "meanings" => table::meanings(line, table, text),
        "names" => names::numbers(alloc, line, text),
        "fuel" => Ok(names::fuel(line, text)),
        "desk" => desks::memory_desk(alloc, line, text),
        _ => of_text(alloc, line, table, word, &decoded(alloc, text)?, text),
    }
}

// The cases whose text is one field.
fn of_text(
    alloc: Global,
    line: &mut Line,
    table: &Table,
    word: &str,
    bytes: &[u8],
    text: &str,
) -> Result<(), Memory> {
    let shown = match word {
        "tokens" => return Ok(tokens::tokens(line, bytes)),
        "text" => return tokens::token_text(alloc, line, bytes),
        "cut" => return Ok(tokens::piece(line, bytes)),
        "pieces" => return tokens::pieces(alloc, line, bytes),
        "read" => Shown::Whole,
        "used" => Shown::Used,
        "write" => Shown::Texts,
        "line" => Shown::Cut { operand: false },
        "operand" => Shown::Cut { operand: true },
        _ => return of_number(alloc, line, table, word, text),
    };
    of_term(alloc, line, table, shown, bytes)
}

// The cases whose text begins with a number.
fn of_number(
    alloc: Global,
    line: &mut Line,
    table: &Table,
    word: &str,
    text: &str,
) -> Result<(), Memory> {
    let Some((number, behind)) = numbered(text) else {
        return Ok(line.add("no case"));
    };
    match word {
        "choices" => frames::choices(alloc, line, number),
        "open" => frames::open_boxes(alloc, line, number, behind.parse::<u64>().unwrap_or(0)),
        "compound" => {
            let (name, term) = behind.split_once(' ').unwrap_or((behind, ""));
            of_unended(alloc, line, table, Shown::Compound(name, number), term)
        }
        _ => match numbered_case(word, number) {
            Some(shown) => of_unended(alloc, line, table, shown, behind),
            None => Ok(line.add("no case")),
        },
    }
}

// A term whose full stop is left out.
fn of_unended(
    alloc: Global,
    line: &mut Line,
    table: &Table,
    shown: Shown<'_>,
    field: &str,
) -> Result<(), Memory> {
    let mut bytes = decoded(alloc, field)?;
    bytes.extend_from_slice(b" .")?;
    of_term(alloc, line, table, shown, &bytes)
}
