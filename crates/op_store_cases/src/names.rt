use op_base::Memory;
use op_case_lines::{Line, add_names};
use op_store::Store;
use op_term::Sym;

// Adds the number of a name in a store, less those of its own.
fn add_number(line: &mut Line, store: &mut Store, first: u64, word: &str) -> Result<(), Memory> {
    let Sym(number) = store.intern(word)?;
    line.add_number("", number.saturating_sub(first));
    line.add(" ");
    Ok(())
}

/// The numbers of names in a store, and those that it has behind its own.
pub fn add_store_numbers(line: &mut Line, store: &mut Store, text: &str) -> Result<(), Memory> {
    let first = store.symbols().count();
    'words: for word in text.split(' ') {
        add_number(line, store, first, word)?;
    }
    add_names(line, store.symbols(), first);
    Ok(())
}
