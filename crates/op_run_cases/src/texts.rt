ghost use Rattle.std.specs.Prelude.{length};
ghost use Rattle.op_logic.specs.Names.{HasNames};

use op_base::Memory;
use op_case_lines::Line;
use op_desk::Bytes;
use op_term::{Ops, Symbols, Tree};
use op_writer::{Style, write_text};
use std::alloc::Global;

/// Adds the whole text of a term, as a line shows it.
pub fn add_text<T: Tree>(
    alloc: Global,
    line: &mut Line,
    ops: &Ops,
    style: Style,
    symbols: &Symbols,
    tree: &T,
    at: &T::At,
) -> Result<(), Memory>
    requires place { T.IsPlace tree.now at.now }
    requires names { HasNames (length symbols.now) (T.term tree.now at.now) }
{
    let mut text = Bytes::new(alloc);
    let written = write_text(
        alloc,
        ops,
        style,
        symbols,
        tree,
        at,
        1200,
        u64::MAX,
        &mut text,
    );
    if written.is_err() {
        return Err(Memory);
    }
    line.add_bytes(text.as_slice());
    Ok(())
}
