ghost use Rattle.std.specs.Prelude.{◌≡◌, ◌<◌, ℕ, [], length, take, max, Some, IfOk, IfSome, option_map};
ghost use Rattle.op_logic.specs.Term.{IsWithin};
ghost use Rattle.op_store.specs.Counted.{variable_count};
ghost use Rattle.op_logic.specs.Names.{HasNames, named};
ghost use Rattle.op_trace.specs.Body.{converted};
ghost use Rattle.op_store.specs.NumberedProcedures.{pi_of};
ghost use Rattle.op_store.specs.inner.Parts.{body_text, body_variables, truth};

use crate::bodies::converted::{converted_term, count_variables};
use crate::procedures::pi::Pi;
use op_base::Memory;
use op_bind::copy_term;
use op_term::{Builder, Node, Symbols, Term, Tree};
use std::alloc::Global;

/// The procedure of the term at a place; None for a variable or a number.
pub(crate) fn procedure_of<T: Tree>(tree: &T, at: &T::At) -> Option<Pi>
    requires { T.IsPlace tree.now at.now }
    ensures { result ≡ pi_of (T.term tree.now at.now) }
{
    match tree.node(at) {
        Node::Var(_) => None,
        Node::Int(_) => None,
        Node::Atom(name) => Some(Pi { name, arity: 0 }),
        Node::Struct(name, arity) => Some(Pi { name, arity }),
    }
}

fn true_term(alloc: Global, symbols: &mut Symbols) -> Result<Term, Memory>
    ensures term { IfOk result (λ t. named symbols.new t ≡ truth) }
    ensures has { IfOk result (HasNames (length symbols.new)) }
    ensures within { IfOk result (λ t. (n : ℕ) → IsWithin n t) }
    ensures kept { take (length symbols.old) symbols.new ≡ symbols.old }
{
    let name = symbols.intern("true")?;
    let mut made = Builder::new(alloc);
    let root = made.atom(name)?;
    Ok(made.finish(root))
}

/// The body of a clause, or None where the term stands for no body. A fact's body is `true`.
pub(crate) fn clause_body<T: Tree>(
    alloc: Global,
    symbols: &mut Symbols,
    tree: &T,
    body: Option<T::At>,
) -> Result<Option<Term>, Memory>
    requires place { IfSome body (λ b. T.IsPlace tree.now b) }
    requires names { IfSome body (λ b. HasNames (length symbols.old) (T.term tree.now b)) }
    ensures body { IfOk result (λ o. option_map (named symbols.new) o
        ≡ (converted [] (body_text (λ p. named symbols.new (T.term tree.now p)) body)).body) }
    ensures has { IfOk result (λ o. IfSome o (HasNames (length symbols.new))) }
    ensures within { IfOk result (λ o. (n : ℕ) → IfSome body (λ b. IsWithin n (T.term tree.now b)) → IfSome o (IsWithin n)) }
    ensures kept { take (length symbols.old) symbols.new ≡ symbols.old }
{
    match body {
        None => Ok(Some(true_term(alloc, symbols)?)),
        Some(at) => converted_term(alloc, symbols, tree, &at),
    }
}

/// The term at a place, as a term of its own.
pub(crate) fn own_term<T: Tree>(alloc: Global, tree: &T, at: &T::At) -> Result<Term, Memory>
    requires { T.IsPlace tree.now at.now }
    ensures { IfOk result (λ t. t ≡ T.term tree.now at.now) }
{
    let mut made = Builder::new(alloc);
    let root = copy_term(alloc, tree, at, &mut made)?;
    Ok(made.finish(root))
}

/// How many variables a clause has.
pub(crate) fn clause_variables<T: Tree>(
    alloc: Global,
    tree: &T,
    head: &T::At,
    body: Option<T::At>,
) -> Result<u64, Memory>
    requires head { T.IsPlace tree.now head.now }
    requires body { IfSome body (λ b. T.IsPlace tree.now b) }
    ensures { IfOk result (λ n. n ≡ body_variables (λ p. variable_count (T.term tree.now p)) head.now body) }
{
    let vars = count_variables(alloc, tree, head)?;
    match body {
        None => Ok(vars),
        Some(at) => Ok(vars.max(count_variables(alloc, tree, &at)?)),
    }
}
