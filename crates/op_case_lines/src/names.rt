use crate::line::Line;
use op_term::{Sym, Symbols};

/// The text of a name; `?` where the table doesn't have its number.
pub fn name_of(symbols: &Symbols, sym: Sym) -> &str {
    if sym.0 < symbols.count() {
        symbols.name_of(sym)
    } else {
        "?"
    }
}

/// Adds the names of a table from a number on, each behind a `|`.
pub fn add_names(line: &mut Line, symbols: &Symbols, first: u64) {
    for number in first..symbols.count() {
        line.add("|");
        line.add(name_of(symbols, Sym(number)));
    }
}
