ghost use Rattle.std.specs.Prelude.{◌≡◌, ◌≤◌, ◌<◌, ◌+◌, ◌++◌, ◌∷◌, [], length, reverse, OnOk};
ghost use Rattle.op_logic.specs.Term.{args_of, arity};
ghost use Rattle.op_logic.specs.Names.{name_at};
ghost use Rattle.op_term.specs.Head.{head};
ghost use Rattle.op_term.specs.declared.node.Node.TheVariants.{Atom as atom_node, Struct as struct};
ghost use Rattle.op_writer.specs.Text.{notation_of};
ghost use Rattle.op_writer.specs.inner.Stack.{Replaces, AreGood, IsGoodPlace, IsBarred, ways_of};
ghost use Rattle.op_writer.specs.declared.item.Item.TheVariants.{Rest as rest_item, Further as further_item};
ghost use Rattle.op_writer.specs.declared.notation.Notation.TheVariants.{List as list_notation};

use crate::argument::part;
use crate::expand::ARGUMENT;
use crate::item::Item;
use crate::notation::Notation;
use crate::setting::Setting;
use crate::stack::{push, push_sign};
use op_base::Memory;
use op_term::{Node, Sym, Tree};

// The rest of a list that is no list.
fn barred<T: Tree>(
    setting: &Setting<'_>,
    tree: &T,
    at: &T::At,
    stack: &mut Vec<Item<T::At>>,
) -> Result<(), Memory>
    requires place { IsGoodPlace (T.term tree.now) (T.IsPlace tree.now) (length setting.now.symbols.now) at.now }
    requires barred { IsBarred (ways_of setting.now) (T.term tree.now at.now) }
    requires good { AreGood (T.term tree.now) (T.IsPlace tree.now) (length setting.now.symbols.now) (reverse stack.old.items) }
    ensures { OnOk result (Replaces (T.term tree.now) (ways_of setting.now) (T.IsPlace tree.now) (rest_item at.now)
        (reverse stack.old.items) (reverse stack.new.items)) }
{
    push_sign(stack, b']')?;
    push(stack, Item::Term(*at, ARGUMENT))?;
    push_sign(stack, b'|')?;
    Ok(())
}

// A further element and the rest of a list.
fn element<T: Tree>(
    setting: &Setting<'_>,
    tree: &T,
    at: &T::At,
    name: Sym,
    stack: &mut Vec<Item<T::At>>,
) -> Result<(), Memory>
    requires place { IsGoodPlace (T.term tree.now) (T.IsPlace tree.now) (length setting.now.symbols.now) at.now }
    requires node { head (T.term tree.now at.now) ≡ struct name 2 }
    requires notation { notation_of setting.now.ops.now setting.now.style (name_at setting.now.symbols.now name.0) 2 ≡ list_notation }
    requires good { AreGood (T.term tree.now) (T.IsPlace tree.now) (length setting.now.symbols.now) (reverse stack.old.items) }
    ensures { OnOk result (Replaces (T.term tree.now) (ways_of setting.now) (T.IsPlace tree.now) (rest_item at.now)
        (reverse stack.old.items) (reverse stack.new.items)) }
{
    let first = part(setting, tree, at, 0);
    let rest = part(setting, tree, at, 1);
    push(stack, Item::Rest(rest))?;
    push(stack, Item::Term(first, ARGUMENT))?;
    push_sign(stack, b',')?;
    Ok(())
}

// A compound as the rest of a list.
fn compound_rest<T: Tree>(
    setting: &Setting<'_>,
    tree: &T,
    at: &T::At,
    name: Sym,
    n: u64,
    stack: &mut Vec<Item<T::At>>,
) -> Result<(), Memory>
    requires place { IsGoodPlace (T.term tree.now) (T.IsPlace tree.now) (length setting.now.symbols.now) at.now }
    requires node { head (T.term tree.now at.now) ≡ struct name n }
    requires good { AreGood (T.term tree.now) (T.IsPlace tree.now) (length setting.now.symbols.now) (reverse stack.old.items) }
    ensures { OnOk result (Replaces (T.term tree.now) (ways_of setting.now) (T.IsPlace tree.now) (rest_item at.now)
        (reverse stack.old.items) (reverse stack.new.items)) }
{
    match Notation::of(setting.ops, setting.style, setting.symbols.name_of(name), n) {
        Notation::List => element(setting, tree, at, name, stack),
        _ => barred(setting, tree, at, stack),
    }
}

// An atom as the rest of a list.
fn atom_rest<T: Tree>(
    setting: &Setting<'_>,
    tree: &T,
    at: &T::At,
    name: Sym,
    stack: &mut Vec<Item<T::At>>,
) -> Result<(), Memory>
    requires place { IsGoodPlace (T.term tree.now) (T.IsPlace tree.now) (length setting.now.symbols.now) at.now }
    requires node { head (T.term tree.now at.now) ≡ atom_node name }
    requires good { AreGood (T.term tree.now) (T.IsPlace tree.now) (length setting.now.symbols.now) (reverse stack.old.items) }
    ensures { OnOk result (Replaces (T.term tree.now) (ways_of setting.now) (T.IsPlace tree.now) (rest_item at.now)
        (reverse stack.old.items) (reverse stack.new.items)) }
{
    if setting.symbols.name_of(name) == "[]" {
        push_sign(stack, b']')?;
        return Ok(());
    }
    barred(setting, tree, at, stack)
}

/// A term as the rest of a list.
pub fn rest<T: Tree>(
    setting: &Setting<'_>,
    tree: &T,
    at: &T::At,
    stack: &mut Vec<Item<T::At>>,
) -> Result<(), Memory>
    requires place { IsGoodPlace (T.term tree.now) (T.IsPlace tree.now) (length setting.now.symbols.now) at.now }
    requires good { AreGood (T.term tree.now) (T.IsPlace tree.now) (length setting.now.symbols.now) (reverse stack.old.items) }
    ensures { OnOk result (Replaces (T.term tree.now) (ways_of setting.now) (T.IsPlace tree.now) (rest_item at.now)
        (reverse stack.old.items) (reverse stack.new.items)) }
{
    match tree.node(at) {
        Node::Var(_) => barred(setting, tree, at, stack),
        Node::Int(_) => barred(setting, tree, at, stack),
        Node::Atom(name) => atom_rest(setting, tree, at, name, stack),
        Node::Struct(name, n) => compound_rest(setting, tree, at, name, n, stack),
    }
}

fn arity_of<T: Tree>(tree: &T, at: &T::At) -> u64
    requires { T.IsPlace tree.now at.now }
    ensures { result ≡ arity (args_of (T.term tree.now at.now)) }
{
    match tree.node(at) {
        Node::Struct(_, n) => n,
        _ => 0,
    }
}

/// The arguments of a compound from an index on.
pub fn further<T: Tree>(
    setting: &Setting<'_>,
    tree: &T,
    at: &T::At,
    i: u64,
    stack: &mut Vec<Item<T::At>>,
) -> Result<(), Memory>
    requires place { IsGoodPlace (T.term tree.now) (T.IsPlace tree.now) (length setting.now.symbols.now) at.now }
    requires good { AreGood (T.term tree.now) (T.IsPlace tree.now) (length setting.now.symbols.now) (reverse stack.old.items) }
    ensures { OnOk result (Replaces (T.term tree.now) (ways_of setting.now) (T.IsPlace tree.now) (further_item at.now i)
        (reverse stack.old.items) (reverse stack.new.items)) }
{
    if i >= arity_of(tree, at) {
        push_sign(stack, b')')?;
        return Ok(());
    }
    let next = part(setting, tree, at, i);
    push(stack, Item::Further(*at, i + 1))?;
    push(stack, Item::Term(next, ARGUMENT))?;
    push_sign(stack, b',')?;
    Ok(())
}
