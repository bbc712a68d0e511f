ghost use Rattle.std.specs.Prelude.{length};
ghost use Rattle.op_logic.specs.Names.{HasNames};
ghost use Rattle.op_reader.specs.Variables.{HasVariables};

use crate::loaded::of_loaded;
use crate::show::add_term;
use crate::shown::Shown;
use crate::table::Table;
use crate::terms::add_order;
use crate::writing::{add_again, add_cut, add_text, add_texts};
use op_base::Memory;
use op_case_lines::{Line, add_read_kind};
use op_reader::{Read, ReadFault, Reading, read_term};
use op_term::Symbols;
use op_writer::Style;
use std::alloc::Global;

/// A term that is read, and what is shown of it; or why there is none.
pub fn of_term(
    alloc: Global,
    line: &mut Line,
    table: &Table,
    shown: Shown<'_>,
    text: &[u8],
) -> Result<(), Memory> {
    let mut symbols = Symbols::new(alloc);
    match read_term(alloc, &table.ops, table.quotes, &mut symbols, text) {
        Ok(Reading::Term(read)) => add_shown(alloc, line, table, &mut symbols, &read, shown),
        Ok(Reading::End) => Ok(add_none(line, shown, None)),
        Err(fault) => Ok(add_none(line, shown, Some(fault))),
    }
}

// Why there is no term: no text is left, or a refusal with its place.
fn add_none(line: &mut Line, shown: Shown<'_>, fault: Option<ReadFault>) {
    match (shown, fault) {
        (_, Some(ReadFault::Memory)) => line.note(Err(Memory)),
        (Shown::Whole | Shown::Used, None) => line.add("end"),
        (Shown::Whole | Shown::Used, Some(ReadFault::Bad { place, kind })) => {
            add_read_kind(line, kind);
            line.add_number(" ", place);
        }
        _ => line.add("no term"),
    }
}

fn add_shown(
    alloc: Global,
    line: &mut Line,
    table: &Table,
    symbols: &mut Symbols,
    read: &Read,
    shown: Shown<'_>,
) -> Result<(), Memory>
    requires names { HasNames (length symbols.old) read.now.term }
    requires variables { HasVariables read.now.vars read.now.term read.now.names }
{
    match shown {
        Shown::Whole => add_read(alloc, line, symbols, read),
        Shown::Used => Ok(line.add_number("", read.used)),
        Shown::Texts => add_texts(alloc, line, table, symbols, &read.term),
        Shown::Within(limit) => {
            let style = Style::Quoted;
            add_text(alloc, line, table, style, symbols, &read.term, limit)
        }
        Shown::Again(limit) => add_again(alloc, line, table, symbols, read, limit),
        Shown::Cut { operand } => add_cut(alloc, line, table, symbols, &read.term, operand),
        Shown::Order(steps) => add_order(alloc, line, symbols, &read.term, steps),
        _ => of_loaded(alloc, line, symbols, read, shown),
    }
}

// Adds the copies of a term and of its named variables, and the bytes used.
fn add_read(alloc: Global, line: &mut Line, symbols: &Symbols, read: &Read) -> Result<(), Memory> {
    add_term(alloc, line, symbols, &read.term.copy()?)?;
    line.add_number(" ", read.used);
    let names = read.names.copy()?;
    for i in 0..names.len() {
        line.add(" ");
        line.add(names.name(i));
        line.add_number("=", names.var(i));
    }
    Ok(())
}
