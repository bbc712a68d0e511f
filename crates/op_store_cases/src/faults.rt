use op_case_lines::{Line, add_read_kind, name_of};
use op_reader::DoubleQuotes;
use op_store::{Flags, LoadFaultKind, Store};

/// Adds the words for what a term of a program is refused for.
pub fn add_load_kind(line: &mut Line, store: &Store, kind: LoadFaultKind) {
    match kind {
        LoadFaultKind::Syntax(kind) => add_read_kind(line, kind),
        LoadFaultKind::Trailing => line.add("trailing"),
        LoadFaultKind::Head => line.add("head"),
        LoadFaultKind::Body => line.add("body"),
        LoadFaultKind::Locked(pi) => {
            line.add("locked ");
            line.add(name_of(store.symbols(), pi.name));
            line.add_number("/", pi.arity);
        }
        LoadFaultKind::Directive => line.add("directive"),
    }
}

/// Adds the flags: what double quotes stand for, and what a goal without a procedure does.
pub fn add_flags(line: &mut Line, flags: Flags) {
    line.add(match flags.quotes {
        DoubleQuotes::Codes => "codes ",
        DoubleQuotes::Chars => "chars ",
        DoubleQuotes::Atom => "atom ",
    });
    line.add(if flags.unknown_fails { "fail" } else { "error" });
}
