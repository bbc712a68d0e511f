ghost use Rattle.std.specs.Prelude.{◌≡◌, ◌<◌, All, length, take, map, IfOk};
ghost use Rattle.op_term.specs.Places.{term_at};
ghost use Rattle.op_reader.specs.Words.{list_of};

use op_base::Memory;
use op_term::{Builder, Sym};

/// The node of a list of these elements with this end.
pub(crate) fn list_node(
    nodes: &mut Builder,
    dot: Sym,
    end: u64,
    elements: &[u64],
) -> Result<u64, Memory>
    requires end { end < length nodes.old }
    requires elements { All (λ n. n < length nodes.old) elements.now }
    ensures there { IfOk result (λ n. n < length nodes.new) }
    ensures term { IfOk result (λ n. term_at nodes.new n ≡ list_of dot.0 (term_at nodes.old end) (map (term_at nodes.old) elements.now)) }
    ensures kept { take (length nodes.old) nodes.new ≡ nodes.old }
{
    let mut list = end;
    let mut i = elements.len();
    'elements: while i > 0 {
        i -= 1;
        list = nodes.compound(dot, &[elements[i], list])?;
    }
    Ok(list)
}
