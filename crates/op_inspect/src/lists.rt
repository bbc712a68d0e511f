//! Lists under bindings (ISO/IEC 13211-1, 6.3.5).

ghost use Rattle.std.specs.Prelude.{◌≡◌, ◌<◌, IfOk, length, All};
ghost use Rattle.op_logic.specs.Laws.{Acyclic};
ghost use Rattle.op_bind.specs.State.{bindings as the_bindings};
ghost use Rattle.op_inspect.specs.Lists.{list_of, listed as the_listed};
ghost use Rattle.op_inspect.specs.Outcomes.{text_at, texts_of, IsKnown, IsSetting};
ghost use Rattle.op_inspect.specs.inner.Nodes.{HasItsName};
ghost use Rattle.op_inspect.specs.inner.Seen.{texts, IsSeen, spine_of as the_spine};
ghost use Rattle.op_inspect.specs.inner.Settings.{Makes, Stays};

use crate::making::{make_atom, make_pair};
use op_base::Memory;
use op_bind::{Bindings, Ref};
use op_term::{Node, Symbols};

/// What a term is as a list.
#[derive(Drop)]
pub enum Seen {
    /// A list with these elements.
    List(Vec<Ref>),
    /// It ends in a variable.
    Partial,
    NoList,
}

/// What a node is as a part of a list.
#[derive(Clone, Copy, Debug, PartialEq, Eq)]
pub enum Spine {
    /// An element and the rest.
    Cell,
    End,
    /// A variable.
    Open,
    Other,
}

fn spine_of(node: Node, symbols: &Symbols) -> Spine
    requires { HasItsName (length symbols.now) node }
    ensures { result ≡ the_spine symbols.now node }
{
    match node {
        Node::Var(_) => Spine::Open,
        Node::Int(_) => Spine::Other,
        Node::Atom(name) => {
            if symbols.name_of(name) == "[]" {
                Spine::End
            } else {
                Spine::Other
            }
        }
        Node::Struct(name, n) => {
            if n == 2 && symbols.name_of(name) == "." {
                Spine::Cell
            } else {
                Spine::Other
            }
        }
    }
}

/// What a term is as a list, with bindings followed at each of its cells.
pub(crate) fn listed(list: &Ref, symbols: &Symbols, bindings: &Bindings) -> Result<Seen, Memory>
    requires list { IsKnown symbols.now bindings.now list.now }
    requires setting { IsSetting symbols.now bindings.now }
    ensures { IfOk result (λ seen. IsSeen symbols.now bindings.now
        (the_listed (texts_of symbols.now bindings.now) (text_at symbols.now bindings.now list.now)) seen) }
{
    let mut elements = Vec::new(bindings.alloc());
    let mut rest = *list;
    'spine: loop {
        let at = bindings.followed(&rest);
        match spine_of(bindings.outline(&at), symbols) {
            Spine::Cell => {
                elements.push(bindings.argument(&at, 0))?;
                rest = bindings.argument(&at, 1);
            }
            Spine::End => return Ok(Seen::List(elements)),
            Spine::Open => return Ok(Seen::Partial),
            Spine::Other => return Ok(Seen::NoList),
        }
    }
}

/// A list of these elements.
pub(crate) fn make_list(
    elements: &[Ref],
    symbols: &mut Symbols,
    bindings: &mut Bindings,
) -> Result<Ref, Memory>
    requires { All (IsKnown symbols.old bindings.old) elements.now }
    ensures made { IfOk result (λ r. Makes symbols.old bindings.old symbols.new bindings.new r
        (list_of (texts symbols.old bindings.old elements.now))) }
    ensures stays { Stays symbols.old symbols.new bindings.old bindings.new }
{
    let mut list = make_atom("[]", symbols, bindings)?;
    let mut i = elements.len();
    'back: while i > 0 {
        i -= 1;
        list = make_pair(".", &elements[i], &list, symbols, bindings)?;
    }
    Ok(list)
}
