ghost use Rattle.std.specs.Prelude.{◌≡◌, ◌<◌, length};
ghost use Rattle.op_logic.specs.Names.{name_at};

use crate::style::Style;
use op_term::{Ops, Sym, Symbols};

/// What texts go by: the operators, the style, and the names.
#[derive(Drop)]
pub struct Setting<'a> {
    pub ops: &'a Ops,
    pub style: Style,
    pub symbols: &'a Symbols,
}
