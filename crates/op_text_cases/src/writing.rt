ghost use Rattle.std.specs.Prelude.{length};
ghost use Rattle.op_logic.specs.Names.{HasNames};
ghost use Rattle.op_reader.specs.Variables.{HasVariables};

use crate::table::Table;
use op_base::Memory;
use op_case_lines::Line;
use op_desk::Bytes;
use op_readback::written_and_read;
use op_reader::Read;
use op_term::{Symbols, Term, Whole};
use op_writer::{Style, TextFault, write_cut, write_text};
use std::alloc::Global;

/// Adds a term's text in a style, of at most so many bytes.
pub fn add_text(
    alloc: Global,
    line: &mut Line,
    table: &Table,
    style: Style,
    symbols: &Symbols,
    term: &Term,
    limit: u64,
) -> Result<(), Memory>
    requires { HasNames (length symbols.now) term.now }
{
    let mut out = Bytes::new(alloc);
    let tree = Whole::new(term);
    match write_text(
        alloc,
        &table.ops,
        style,
        symbols,
        &tree,
        &tree.root(),
        1200,
        limit,
        &mut out,
    ) {
        Ok(()) => line.add_bytes(out.as_slice()),
        Err(TextFault::TooLong) => line.add("too_long"),
        Err(TextFault::Memory) => return Err(Memory),
    }
    Ok(())
}

/// Adds the plain, the quoted and the canonical text.
pub fn add_texts(
    alloc: Global,
    line: &mut Line,
    table: &Table,
    symbols: &Symbols,
    term: &Term,
) -> Result<(), Memory>
    requires { HasNames (length symbols.now) term.now }
{
    add_text(alloc, line, table, Style::Plain, symbols, term, 100)?;
    line.add(" § ");
    add_text(alloc, line, table, Style::Quoted, symbols, term, 100)?;
    line.add(" § ");
    add_text(alloc, line, table, Style::Canonical, symbols, term, 100)
}

/// Writes a term that was read in the canonical style and reads it again, and adds the canonical text of what was read.
pub fn add_again(
    alloc: Global,
    line: &mut Line,
    table: &Table,
    symbols: &mut Symbols,
    read: &Read,
    limit: u64,
) -> Result<(), Memory>
    requires names { HasNames (length symbols.old) read.now.term }
    requires variables { HasVariables read.now.vars read.now.term read.now.names }
{
    if read.vars > 0 {
        return Ok(line.add("variables"));
    }
    let style = Style::Canonical;
    match written_and_read(
        alloc,
        &table.ops,
        style,
        table.quotes,
        symbols,
        &read.term,
        1200,
        limit,
    ) {
        Ok(again) => add_text(alloc, line, table, style, symbols, &again.term, limit),
        Err(TextFault::TooLong) => Ok(line.add("too_long")),
        Err(TextFault::Memory) => Err(Memory),
    }
}

// Adds a text of at most 100 bytes; of a longer one how many bytes it has, and the last eight characters.
fn add_short(alloc: Global, line: &mut Line, text: &[u8]) {
    if text.len() <= 100 {
        line.add_bytes(text);
        return;
    }
    let mut shown = Line::new(alloc);
    shown.add_bytes(text);
    line.note(shown.done());
    line.add_number("", text.len() as u64);
    line.add(" bytes ");
    let characters = shown.text().chars().count();
    for c in shown.text().chars().skip(characters.saturating_sub(8)) {
        line.push(c);
    }
}

/// Adds the cut text of a term behind some bytes.
pub fn add_cut(
    alloc: Global,
    line: &mut Line,
    table: &Table,
    symbols: &Symbols,
    term: &Term,
    operand: bool,
) -> Result<(), Memory>
    requires { HasNames (length symbols.now) term.now }
{
    let mut out = Bytes::new(alloc);
    out.append(b"X = ")?;
    let tree = Whole::new(term);
    write_cut(
        alloc,
        &table.ops,
        symbols,
        &tree,
        &tree.root(),
        699,
        operand,
        &mut out,
    )?;
    add_short(alloc, line, out.as_slice());
    Ok(())
}
