ghost use Rattle.std.specs.Prelude.{◌≡◌, ◌<◌, IfOk};
ghost use Rattle.op_logic.specs.Term.{node};
ghost use Rattle.op_inspect.specs.Construction.{variables_from};

use op_base::Memory;
use op_term::{Builder, Sym, Term};
use std::alloc::Global;

/// A compound of a name and so many variables, which are numbered from 0.
pub(crate) fn skeleton(alloc: Global, name: Sym, count: u64) -> Result<Term, Memory>
    requires { 0 < count }
    ensures { IfOk result (λ t. t ≡ node name.0 (variables_from 0 count)) }
{
    let mut nodes = Builder::new(alloc);
    let mut parts = Vec::new(alloc);
    'variables: for i in 0..count {
        parts.push(nodes.var(i)?)?;
    }
    let root = nodes.compound(name, &parts)?;
    Ok(nodes.finish(root))
}
