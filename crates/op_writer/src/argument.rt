ghost use Rattle.std.specs.Prelude.{◌≡◌, ◌<◌, ◌&&◌, not, bytes_eq, codes, length};
ghost use Rattle.op_logic.specs.Term.{args_of, arity, nth_arg};
ghost use Rattle.op_logic.specs.Names.{name_at};
ghost use Rattle.op_term.specs.Head.{head};
ghost use Rattle.op_term.specs.declared.node.Node.TheVariants.{Struct as struct};
ghost use Rattle.op_writer.specs.inner.Stack.{IsGoodPlace, ways_of, letter, natural_of};
ghost use Rattle.op_writer.specs.Text.{is_canonical as canonical};

use crate::notation::is_canonical;
use crate::setting::Setting;
use crate::style::Style;
use op_term::{Node, Sym, Tree};

/// An argument of a term, counted from 0.
pub fn part<T: Tree>(setting: &Setting<'_>, tree: &T, at: &T::At, i: u64) -> T::At
    requires place { IsGoodPlace (T.term tree.now) (T.IsPlace tree.now) (length setting.now.symbols.now) at.now }
    requires there { i < arity (args_of (T.term tree.now at.now)) }
    ensures place { IsGoodPlace (T.term tree.now) (T.IsPlace tree.now) (length setting.now.symbols.now) result }
    ensures value { T.term tree.now result ≡ nth_arg (args_of (T.term tree.now at.now)) i }
{
    tree.part(at, i)
}

fn has_letters(style: Style, name: &str) -> bool
    ensures { result ≡ (not (canonical style) && bytes_eq name.now (codes "$VAR")) }
{
    !is_canonical(style) && name == "$VAR"
}

fn natural(node: Node) -> Option<u64>
    ensures { result ≡ natural_of node }
{
    match node {
        Node::Int(i) => {
            if i < 0 {
                return None;
            }
            Some(i as u64)
        }
        _ => None,
    }
}

/// The number of a term `'$VAR'(N)`, where the style has letters for it.
pub fn letter_number<T: Tree>(
    setting: &Setting<'_>,
    tree: &T,
    at: &T::At,
    name: Sym,
    n: u64,
) -> Option<u64>
    requires place { IsGoodPlace (T.term tree.now) (T.IsPlace tree.now) (length setting.now.symbols.now) at.now }
    requires node { head (T.term tree.now at.now) ≡ struct name n }
    ensures { result ≡ letter (ways_of setting.now) (T.term tree.now at.now) name.0 }
{
    if n != 1 {
        return None;
    }
    if !has_letters(setting.style, setting.symbols.name_of(name)) {
        return None;
    }
    natural(tree.node(&tree.part(at, 0)))
}
