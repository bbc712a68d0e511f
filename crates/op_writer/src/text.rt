ghost use Rattle.std.specs.Prelude.{◌≡◌, ◌≤◌, ◌<◌, ◌++◌, length, OnOk, OnErr, Err};
ghost use Rattle.op_logic.specs.Names.{named, HasNames};
ghost use Rattle.op_writer.specs.Text.{text_of};
ghost use Rattle.op_writer.specs.Cut.{short};
ghost use Rattle.op_writer.specs.declared.fault.TextFault.TheVariants.{TooLong as too_long};

use crate::bound::Bound;
use crate::cut::{LIMIT, add_cut};
use crate::fault::TextFault;
use crate::setting::Setting;
use crate::style::Style;
use crate::writer::front;
use op_base::Memory;
use op_desk::Bytes;
use op_term::{Ops, Symbols, Tree};
use std::alloc::Global;

/// Adds the text of a term within a priority. After a fault `out` is unchanged.
pub fn write_text<T: Tree>(
    alloc: Global,
    ops: &Ops,
    style: Style,
    symbols: &Symbols,
    tree: &T,
    at: &T::At,
    priority: u32,
    limit: u64,
    out: &mut Bytes,
) -> Result<(), TextFault>
    requires place { T.IsPlace tree.now at.now }
    requires names { HasNames (length symbols.now) (T.term tree.now at.now) }
    ensures ok { OnOk result (out.new ≡ out.old ++ text_of ops.now style (named symbols.now (T.term tree.now at.now)) priority) }
    ensures within { OnOk result (length (text_of ops.now style (named symbols.now (T.term tree.now at.now)) priority) ≤ limit) }
    ensures too_long { result ≡ Err too_long → limit
        < length (text_of ops.now style (named symbols.now (T.term tree.now at.now)) priority) }
    ensures err { OnErr result (out.new ≡ out.old) }
{
    let setting = Setting {
        ops,
        style,
        symbols,
    };
    let limit = limit as usize;
    let text = front(alloc, &setting, tree, at, Bound::Whole(priority), limit)?;
    if text.len() > limit {
        return Err(TextFault::TooLong);
    }
    out.append(text.as_slice())?;
    Ok(())
}

/// Adds the quoted text of a term within a priority, cut to what stands in a line: at most 4,096 bytes whole, and of more the whole
/// characters within 4,096 bytes with `...` behind them. As an operand, an operator's atom stands in brackets. After want of
/// memory `out` is unchanged. It stops after the bytes that it keeps.
pub fn write_cut<T: Tree>(
    alloc: Global,
    ops: &Ops,
    symbols: &Symbols,
    tree: &T,
    at: &T::At,
    priority: u32,
    operand: bool,
    out: &mut Bytes,
) -> Result<(), Memory>
    requires place { T.IsPlace tree.now at.now }
    requires names { HasNames (length symbols.now) (T.term tree.now at.now) }
    ensures ok { OnOk result (out.new ≡ out.old ++ short ops.now (named symbols.now (T.term tree.now at.now)) priority operand) }
    ensures err { OnErr result (out.new ≡ out.old) }
{
    let setting = Setting {
        ops,
        style: Style::Quoted,
        symbols,
    };
    let bound = Bound::of(priority, operand);
    let text = front(alloc, &setting, tree, at, bound, LIMIT)?;
    add_cut(alloc, text.as_slice(), out)?;
    Ok(())
}
