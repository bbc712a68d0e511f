use op_base::Memory;
use op_case_lines::{Line, kind_of, kind_word, set_word};
use op_reader::DoubleQuotes;
use op_term::{Meaning, Ops};
use std::alloc::Global;

/// The operators and the meaning of double quotes by which the cases below are read and written.
#[derive(Drop)]
pub struct Table {
    pub ops: Ops,
    pub quotes: DoubleQuotes,
}

impl Table {
    /// The standard's operators; text in double quotes stands for a list of codes.
    pub fn new(alloc: Global) -> Result<Table, Memory> {
        Ok(Table {
            ops: Ops::iso(alloc)?,
            quotes: DoubleQuotes::Codes,
        })
    }
}

/// Goes back to the standard's operators.
pub fn reset(alloc: Global, line: &mut Line, table: &mut Table) -> Result<(), Memory> {
    table.ops = Ops::iso(alloc)?;
    table.quotes = DoubleQuotes::Codes;
    line.add("ok");
    Ok(())
}

/// Says what double quotes stand for.
pub fn quote(line: &mut Line, table: &mut Table, word: &str) {
    table.quotes = match word {
        "codes" => DoubleQuotes::Codes,
        "chars" => DoubleQuotes::Chars,
        "atom" => DoubleQuotes::Atom,
        _ => return line.add("no case"),
    };
    line.add("ok");
}

/// Sets an operator: its priority, its kind and its name, which may be empty.
pub fn set(line: &mut Line, table: &mut Table, text: &str) -> Result<(), Memory> {
    let mut words = text.splitn(3, ' ');
    let priority = words.next().unwrap_or("").parse::<i64>();
    let kind = kind_of(words.next().unwrap_or(""));
    let name = words.next().unwrap_or("");
    let word = match (priority, kind) {
        (Ok(priority), Some(kind)) => set_word(table.ops.set(priority, kind, name))?,
        _ => "no case",
    };
    line.add(word);
    Ok(())
}

fn add_meaning(line: &mut Line, meaning: Option<Meaning>) {
    match meaning {
        Some(Meaning { priority, kind }) => {
            line.add_number("", priority as u64);
            line.add(" ");
            line.add(kind_word(kind));
        }
        None => line.add("-"),
    }
}

/// What a name means before, between and behind operands, in a copy of the table.
pub fn meanings(line: &mut Line, table: &Table, name: &str) -> Result<(), Memory> {
    let ops = table.ops.copy()?;
    add_meaning(line, ops.prefix(name));
    line.add("|");
    add_meaning(line, ops.infix(name));
    line.add("|");
    add_meaning(line, ops.postfix(name));
    Ok(())
}
