//! Names and numbers of arguments, as terms.

ghost use Rattle.std.specs.Prelude.{IfOk, pos};
ghost use Rattle.op_logic.specs.Term.{int};
ghost use Rattle.op_inspect.specs.Construction.{name_of};
ghost use Rattle.op_inspect.specs.Outcomes.{text_at, IsKnown};
ghost use Rattle.op_inspect.specs.inner.Settings.{Makes, Stays};

use crate::making::{make_integer, make_known_atom};
use op_base::Memory;
use op_bind::{Bindings, Ref};
use op_term::{Node, Symbols};

/// The name of a term: its own where it is a compound, and else the term itself.
pub(crate) fn make_name(at: &Ref, symbols: &Symbols, bindings: &mut Bindings) -> Result<Ref, Memory>
    requires { IsKnown symbols.now bindings.old at.now }
    ensures made { IfOk result (λ r. Makes symbols.now bindings.old symbols.now bindings.new r
        (name_of (text_at symbols.now bindings.old at.now))) }
    ensures stays { Stays symbols.now symbols.now bindings.old bindings.new }
{
    let _count = symbols.count();
    match bindings.outline(at) {
        Node::Struct(name, _) => make_known_atom(name, symbols, bindings),
        _ => Ok(*at),
    }
}

/// A number of arguments.
pub(crate) fn make_count(
    count: u64,
    symbols: &Symbols,
    bindings: &mut Bindings,
) -> Result<Ref, Memory>
    ensures made { IfOk result (λ r. Makes symbols.now bindings.old symbols.now bindings.new r (int (pos count))) }
    ensures stays { Stays symbols.now symbols.now bindings.old bindings.new }
{
    let _count = symbols.count();
    let Ok(number) = i64::try_from(count) else {
        return Err(Memory);
    };
    make_integer(number, symbols, bindings)
}
