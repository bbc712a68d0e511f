use op_base::Memory;
use op_case_lines::{Line, add_names};
use op_term::{Fuel, Sym, Symbols};
use std::alloc::Global;

// Adds the numbers of names, and the names of the table's copy.
fn add_numbers(line: &mut Line, symbols: &mut Symbols, text: &str) -> Result<(), Memory> {
    'words: for word in text.split(' ') {
        let Sym(number) = symbols.intern(word)?;
        line.add_number("", number);
        line.add(" ");
    }
    add_names(line, &symbols.copy()?, 0);
    Ok(())
}

/// The numbers of names, and the names that a copy of their table has.
pub fn numbers(alloc: Global, line: &mut Line, text: &str) -> Result<(), Memory> {
    let mut symbols = Symbols::new(alloc);
    add_numbers(line, &mut symbols, text)
}

/// Whether so many steps each are to be had, and what is left of the first number.
pub fn fuel(line: &mut Line, text: &str) {
    let mut fuel = Fuel::new(0);
    for (i, word) in text.split(' ').enumerate() {
        let number = word.parse::<u64>().unwrap_or(0);
        if i == 0 {
            fuel = Fuel::new(number);
        } else if fuel.spend(number).is_ok() {
            line.add("ok ");
        } else {
            line.add("spent ");
        }
    }
    line.add_number("", fuel.left());
}
