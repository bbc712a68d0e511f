ghost use Rattle.std.specs.Prelude.{◌≡◌, ◌≤◌, ◌<◌, ◌+◌, ◌++◌, ◌∷◌, [], length, reverse, OnOk, None};
ghost use Rattle.op_logic.specs.Term.{args_of, arity};
ghost use Rattle.op_logic.specs.Names.{name_at};
ghost use Rattle.op_term.specs.Head.{head};
ghost use Rattle.op_term.specs.declared.node.Node.TheVariants.{Atom as atom, Struct as struct};
ghost use Rattle.op_writer.specs.Text.{notation_of, infix_fragments, prefix_fragments};
ghost use Rattle.op_writer.specs.Spelling.{is_symbolic as symbolic, name_text};
ghost use Rattle.op_writer.specs.inner.Stack.{Replaces, AreGood, IsGoodPlace, ways_of, fragments, weights, letter};
ghost use Rattle.op_writer.specs.declared.item.Item.TheVariants.{Term as whole_item, Rest as rest_item, Further as further_item};
ghost use Rattle.op_writer.specs.declared.notation.Notation.TheVariants.{Infix as infix_notation, Prefix as prefix_notation};
ghost use Rattle.op_writer.specs.declared.notation.Notation.TheVariants.{Postfix as postfix_notation, List as list_notation};
ghost use Rattle.op_writer.specs.declared.notation.Notation.TheVariants.{Braces as braces_notation, Functional as functional_notation};

use crate::argument::{letter_number, part};
use crate::bound::Bound;
use crate::item::{Item, Lexeme};
use crate::notation::{Notation, is_operator};
use crate::setting::Setting;
use crate::spelling::{has_quotes, is_symbolic};
use crate::stack::{push, push_bracket, push_sign};
use op_base::Memory;
use op_term::{Meaning, Node, Sym, Tree};

/// The bound of an argument and of an element of a list.
pub const ARGUMENT: Bound = Bound::Whole(999);

// An atom within a bound.
fn atom<T: Tree>(
    setting: &Setting<'_>,
    tree: &T,
    at: &T::At,
    name: Sym,
    bound: Bound,
    stack: &mut Vec<Item<T::At>>,
) -> Result<(), Memory>
    requires place { IsGoodPlace (T.term tree.now) (T.IsPlace tree.now) (length setting.now.symbols.now) at.now }
    requires node { head (T.term tree.now at.now) ≡ atom name }
    requires good { AreGood (T.term tree.now) (T.IsPlace tree.now) (length setting.now.symbols.now) (reverse stack.old.items) }
    ensures { OnOk result (Replaces (T.term tree.now) (ways_of setting.now) (T.IsPlace tree.now) (whole_item at.now bound)
        (reverse stack.old.items) (reverse stack.new.items)) }
{
    let brackets = bound.is_operand() && is_operator(setting.ops, setting.symbols.name_of(name));
    push_bracket(stack, brackets, b')')?;
    push(stack, Item::Lexeme(Lexeme::Name(name)))?;
    push_bracket(stack, brackets, b'(')?;
    Ok(())
}

// Whether an infix or a prefix operator has no spaces of its own.
fn is_narrow(setting: &Setting<'_>, name: &str) -> bool
    ensures { result ≡ symbolic (name_text setting.now.style name.now) }
{
    is_symbolic(name.as_bytes()) && !has_quotes(setting.style, name)
}

// An infix operator.
fn infix_name<T: Tree>(
    setting: &Setting<'_>,
    tree: &T,
    name: Sym,
    stack: &mut Vec<Item<T::At>>,
) -> Result<(), Memory>
    requires named { name.0 < length setting.now.symbols.now }
    requires good { AreGood (T.term tree.now) (T.IsPlace tree.now) (length setting.now.symbols.now) (reverse stack.old.items) }
    ensures fragments { OnOk result (fragments (T.term tree.now) (ways_of setting.now) (reverse stack.new.items)
        ≡ infix_fragments setting.now.style (name_at setting.now.symbols.now name.0)
        ++ fragments (T.term tree.now) (ways_of setting.now) (reverse stack.old.items)) }
    ensures weights { OnOk result (weights (T.term tree.now) (reverse stack.new.items)
        ≤ 3 + weights (T.term tree.now) (reverse stack.old.items)) }
    ensures good { OnOk result (AreGood (T.term tree.now) (T.IsPlace tree.now) (length setting.now.symbols.now) (reverse stack.new.items)) }
{
    let text = setting.symbols.name_of(name);
    if text == "," {
        return push_sign(stack, b',');
    }
    let spaces = !(text == ";" || is_narrow(setting, text));
    push_bracket(stack, spaces, b' ')?;
    push(stack, Item::Lexeme(Lexeme::Name(name)))?;
    push_bracket(stack, spaces, b' ')
}

// A prefix operator.
fn prefix_name<T: Tree>(
    setting: &Setting<'_>,
    tree: &T,
    name: Sym,
    stack: &mut Vec<Item<T::At>>,
) -> Result<(), Memory>
    requires named { name.0 < length setting.now.symbols.now }
    requires good { AreGood (T.term tree.now) (T.IsPlace tree.now) (length setting.now.symbols.now) (reverse stack.old.items) }
    ensures fragments { OnOk result (fragments (T.term tree.now) (ways_of setting.now) (reverse stack.new.items)
        ≡ prefix_fragments setting.now.style (name_at setting.now.symbols.now name.0)
        ++ fragments (T.term tree.now) (ways_of setting.now) (reverse stack.old.items)) }
    ensures weights { OnOk result (weights (T.term tree.now) (reverse stack.new.items)
        ≤ 3 + weights (T.term tree.now) (reverse stack.old.items)) }
    ensures good { OnOk result (AreGood (T.term tree.now) (T.IsPlace tree.now) (length setting.now.symbols.now) (reverse stack.new.items)) }
{
    if is_narrow(setting, setting.symbols.name_of(name)) {
        return push(stack, Item::Lexeme(Lexeme::Prefix(name)));
    }
    push_sign(stack, b' ')?;
    push(stack, Item::Lexeme(Lexeme::Name(name)))
}

// A compound with an infix operator.
fn infix<T: Tree>(
    setting: &Setting<'_>,
    tree: &T,
    at: &T::At,
    name: Sym,
    m: Meaning,
    bound: Bound,
    stack: &mut Vec<Item<T::At>>,
) -> Result<(), Memory>
    requires place { IsGoodPlace (T.term tree.now) (T.IsPlace tree.now) (length setting.now.symbols.now) at.now }
    requires node { head (T.term tree.now at.now) ≡ struct name 2 }
    requires letter { letter (ways_of setting.now) (T.term tree.now at.now) name.0 ≡ None }
    requires notation { notation_of setting.now.ops.now setting.now.style (name_at setting.now.symbols.now name.0) 2 ≡ infix_notation m }
    requires meaning { 1 ≤ m.priority }
    requires good { AreGood (T.term tree.now) (T.IsPlace tree.now) (length setting.now.symbols.now) (reverse stack.old.items) }
    ensures { OnOk result (Replaces (T.term tree.now) (ways_of setting.now) (T.IsPlace tree.now) (whole_item at.now bound)
        (reverse stack.old.items) (reverse stack.new.items)) }
{
    let brackets = bound.is_passed(m);
    let left = part(setting, tree, at, 0);
    let right = part(setting, tree, at, 1);
    push_bracket(stack, brackets, b')')?;
    push(stack, Item::Term(right, Bound::right_of(m)))?;
    infix_name(setting, tree, name, stack)?;
    push(stack, Item::Term(left, Bound::left_of(m)))?;
    push_bracket(stack, brackets, b'(')?;
    Ok(())
}

// A compound with a prefix operator.
fn prefix<T: Tree>(
    setting: &Setting<'_>,
    tree: &T,
    at: &T::At,
    name: Sym,
    m: Meaning,
    bound: Bound,
    stack: &mut Vec<Item<T::At>>,
) -> Result<(), Memory>
    requires place { IsGoodPlace (T.term tree.now) (T.IsPlace tree.now) (length setting.now.symbols.now) at.now }
    requires node { head (T.term tree.now at.now) ≡ struct name 1 }
    requires letter { letter (ways_of setting.now) (T.term tree.now at.now) name.0 ≡ None }
    requires notation { notation_of setting.now.ops.now setting.now.style (name_at setting.now.symbols.now name.0) 1 ≡ prefix_notation m }
    requires meaning { 1 ≤ m.priority }
    requires good { AreGood (T.term tree.now) (T.IsPlace tree.now) (length setting.now.symbols.now) (reverse stack.old.items) }
    ensures { OnOk result (Replaces (T.term tree.now) (ways_of setting.now) (T.IsPlace tree.now) (whole_item at.now bound)
        (reverse stack.old.items) (reverse stack.new.items)) }
{
    let brackets = bound.is_passed(m);
    let right = part(setting, tree, at, 0);
    push_bracket(stack, brackets, b')')?;
    push(stack, Item::Term(right, Bound::right_of(m)))?;
    prefix_name(setting, tree, name, stack)?;
    push_bracket(stack, brackets, b'(')?;
    Ok(())
}

// A compound with a postfix operator.
fn postfix<T: Tree>(
    setting: &Setting<'_>,
    tree: &T,
    at: &T::At,
    name: Sym,
    m: Meaning,
    bound: Bound,
    stack: &mut Vec<Item<T::At>>,
) -> Result<(), Memory>
    requires place { IsGoodPlace (T.term tree.now) (T.IsPlace tree.now) (length setting.now.symbols.now) at.now }
    requires node { head (T.term tree.now at.now) ≡ struct name 1 }
    requires letter { letter (ways_of setting.now) (T.term tree.now at.now) name.0 ≡ None }
    requires notation { notation_of setting.now.ops.now setting.now.style (name_at setting.now.symbols.now name.0) 1 ≡ postfix_notation m }
    requires meaning { 1 ≤ m.priority }
    requires good { AreGood (T.term tree.now) (T.IsPlace tree.now) (length setting.now.symbols.now) (reverse stack.old.items) }
    ensures { OnOk result (Replaces (T.term tree.now) (ways_of setting.now) (T.IsPlace tree.now) (whole_item at.now bound)
        (reverse stack.old.items) (reverse stack.new.items)) }
{
    let brackets = bound.is_passed(m);
    let left = part(setting, tree, at, 0);
    push_bracket(stack, brackets, b')')?;
    push(stack, Item::Lexeme(Lexeme::Name(name)))?;
    push_sign(stack, b' ')?;
    push(stack, Item::Term(left, Bound::left_of(m)))?;
    push_bracket(stack, brackets, b'(')?;
    Ok(())
}

// A term in braces.
fn braces<T: Tree>(
    setting: &Setting<'_>,
    tree: &T,
    at: &T::At,
    name: Sym,
    bound: Bound,
    stack: &mut Vec<Item<T::At>>,
) -> Result<(), Memory>
    requires place { IsGoodPlace (T.term tree.now) (T.IsPlace tree.now) (length setting.now.symbols.now) at.now }
    requires node { head (T.term tree.now at.now) ≡ struct name 1 }
    requires letter { letter (ways_of setting.now) (T.term tree.now at.now) name.0 ≡ None }
    requires notation { notation_of setting.now.ops.now setting.now.style (name_at setting.now.symbols.now name.0) 1 ≡ braces_notation }
    requires good { AreGood (T.term tree.now) (T.IsPlace tree.now) (length setting.now.symbols.now) (reverse stack.old.items) }
    ensures { OnOk result (Replaces (T.term tree.now) (ways_of setting.now) (T.IsPlace tree.now) (whole_item at.now bound)
        (reverse stack.old.items) (reverse stack.new.items)) }
{
    let inside = part(setting, tree, at, 0);
    push_sign(stack, b'}')?;
    push(stack, Item::Term(inside, Bound::Whole(1200)))?;
    push_sign(stack, b'{')?;
    Ok(())
}

// A list.
fn list<T: Tree>(
    setting: &Setting<'_>,
    tree: &T,
    at: &T::At,
    name: Sym,
    bound: Bound,
    stack: &mut Vec<Item<T::At>>,
) -> Result<(), Memory>
    requires place { IsGoodPlace (T.term tree.now) (T.IsPlace tree.now) (length setting.now.symbols.now) at.now }
    requires node { head (T.term tree.now at.now) ≡ struct name 2 }
    requires letter { letter (ways_of setting.now) (T.term tree.now at.now) name.0 ≡ None }
    requires notation { notation_of setting.now.ops.now setting.now.style (name_at setting.now.symbols.now name.0) 2 ≡ list_notation }
    requires good { AreGood (T.term tree.now) (T.IsPlace tree.now) (length setting.now.symbols.now) (reverse stack.old.items) }
    ensures { OnOk result (Replaces (T.term tree.now) (ways_of setting.now) (T.IsPlace tree.now) (whole_item at.now bound)
        (reverse stack.old.items) (reverse stack.new.items)) }
{
    let first = part(setting, tree, at, 0);
    let rest = part(setting, tree, at, 1);
    push(stack, Item::Rest(rest))?;
    push(stack, Item::Term(first, ARGUMENT))?;
    push_sign(stack, b'[')?;
    Ok(())
}

// A name with its arguments in brackets.
fn functional<T: Tree>(
    setting: &Setting<'_>,
    tree: &T,
    at: &T::At,
    name: Sym,
    n: u64,
    bound: Bound,
    stack: &mut Vec<Item<T::At>>,
) -> Result<(), Memory>
    requires place { IsGoodPlace (T.term tree.now) (T.IsPlace tree.now) (length setting.now.symbols.now) at.now }
    requires node { head (T.term tree.now at.now) ≡ struct name n }
    requires letter { letter (ways_of setting.now) (T.term tree.now at.now) name.0 ≡ None }
    requires notation { notation_of setting.now.ops.now setting.now.style (name_at setting.now.symbols.now name.0) n ≡ functional_notation }
    requires good { AreGood (T.term tree.now) (T.IsPlace tree.now) (length setting.now.symbols.now) (reverse stack.old.items) }
    ensures { OnOk result (Replaces (T.term tree.now) (ways_of setting.now) (T.IsPlace tree.now) (whole_item at.now bound)
        (reverse stack.old.items) (reverse stack.new.items)) }
{
    let first = part(setting, tree, at, 0);
    push(stack, Item::Further(*at, 1))?;
    push(stack, Item::Term(first, ARGUMENT))?;
    push_sign(stack, b'(')?;
    push(stack, Item::Lexeme(Lexeme::Name(name)))?;
    Ok(())
}

// A compound within a bound.
fn compound<T: Tree>(
    setting: &Setting<'_>,
    tree: &T,
    at: &T::At,
    name: Sym,
    n: u64,
    bound: Bound,
    stack: &mut Vec<Item<T::At>>,
) -> Result<(), Memory>
    requires place { IsGoodPlace (T.term tree.now) (T.IsPlace tree.now) (length setting.now.symbols.now) at.now }
    requires node { head (T.term tree.now at.now) ≡ struct name n }
    requires good { AreGood (T.term tree.now) (T.IsPlace tree.now) (length setting.now.symbols.now) (reverse stack.old.items) }
    ensures { OnOk result (Replaces (T.term tree.now) (ways_of setting.now) (T.IsPlace tree.now) (whole_item at.now bound)
        (reverse stack.old.items) (reverse stack.new.items)) }
{
    if let Some(k) = letter_number(setting, tree, at, name, n) {
        return push(stack, Item::Lexeme(Lexeme::Letter(k)));
    }
    match Notation::of(setting.ops, setting.style, setting.symbols.name_of(name), n) {
        Notation::Infix(m) => infix(setting, tree, at, name, m, bound, stack),
        Notation::Prefix(m) => prefix(setting, tree, at, name, m, bound, stack),
        Notation::Postfix(m) => postfix(setting, tree, at, name, m, bound, stack),
        Notation::Braces => braces(setting, tree, at, name, bound, stack),
        Notation::List => list(setting, tree, at, name, bound, stack),
        Notation::Functional => functional(setting, tree, at, name, n, bound, stack),
    }
}

/// A term within a bound.
pub fn term<T: Tree>(
    setting: &Setting<'_>,
    tree: &T,
    at: &T::At,
    bound: Bound,
    stack: &mut Vec<Item<T::At>>,
) -> Result<(), Memory>
    requires place { IsGoodPlace (T.term tree.now) (T.IsPlace tree.now) (length setting.now.symbols.now) at.now }
    requires good { AreGood (T.term tree.now) (T.IsPlace tree.now) (length setting.now.symbols.now) (reverse stack.old.items) }
    ensures { OnOk result (Replaces (T.term tree.now) (ways_of setting.now) (T.IsPlace tree.now) (whole_item at.now bound)
        (reverse stack.old.items) (reverse stack.new.items)) }
{
    match tree.node(at) {
        Node::Var(n) => {
            push(stack, Item::Lexeme(Lexeme::Var(n)))?;
            Ok(())
        }
        Node::Int(i) => {
            push(stack, Item::Lexeme(Lexeme::Int(i)))?;
            Ok(())
        }
        Node::Atom(name) => atom(setting, tree, at, name, bound, stack),
        Node::Struct(name, n) => compound(setting, tree, at, name, n, bound, stack),
    }
}
