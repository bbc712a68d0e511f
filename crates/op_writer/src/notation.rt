ghost use Rattle.std.specs.Prelude.{◌≡◌, ◌≤◌, IfSome};
ghost use Rattle.op_writer.specs.Text.{notation_of, is_canonical as canonical, is_operator as the_operator, unary as the_unary};
ghost use Rattle.op_writer.specs.Text.{binary as the_binary, HasPriority};

use crate::style::Style;
use op_term::{Meaning, Ops};

/// What a compound is written in.
#[derive(Clone, Copy)]
pub enum Notation {
    List,
    Braces,
    Infix(Meaning),
    Prefix(Meaning),
    Postfix(Meaning),
    Functional,
}

pub fn is_canonical(style: Style) -> bool
    ensures { result ≡ canonical style }
{
    match style {
        Style::Canonical => true,
        _ => false,
    }
}

/// Whether a name is an operator of any class.
pub fn is_operator(ops: &Ops, name: &str) -> bool
    ensures { result ≡ the_operator ops.now name.now }
{
    ops.prefix(name).is_some() || ops.infix(name).is_some() || ops.postfix(name).is_some()
}

fn binary(meaning: Option<Meaning>) -> Notation
    requires { IfSome meaning (λ m. 1 ≤ m.priority) }
    ensures value { result ≡ the_binary meaning }
    ensures priority { HasPriority result }
{
    match meaning {
        Some(m) => Notation::Infix(m),
        None => Notation::Functional,
    }
}

fn unary(prefix: Option<Meaning>, postfix: Option<Meaning>) -> Notation
    requires prefix { IfSome prefix (λ m. 1 ≤ m.priority) }
    requires postfix { IfSome postfix (λ m. 1 ≤ m.priority) }
    ensures value { result ≡ the_unary prefix postfix }
    ensures priority { HasPriority result }
{
    match (prefix, postfix) {
        (Some(m), _) => Notation::Prefix(m),
        (None, Some(m)) => Notation::Postfix(m),
        (None, None) => Notation::Functional,
    }
}

impl Notation {
    /// What a term of this name and number of arguments is written in.
    pub fn of(ops: &Ops, style: Style, name: &str, arity: u64) -> Notation
        ensures value { result ≡ notation_of ops.now style name.now arity }
        ensures priority { HasPriority result }
    {
        if arity == 2 && name == "." {
            return Notation::List;
        }
        if arity == 1 && name == "{}" {
            return Notation::Braces;
        }
        if is_canonical(style) {
            return Notation::Functional;
        }
        match arity {
            2 => binary(ops.infix(name)),
            1 => unary(ops.prefix(name), ops.postfix(name)),
            _ => Notation::Functional,
        }
    }
}
