//! The argument of a command.

ghost use Rattle.std.specs.Prelude.{◌≡◌, ◌<◌, length, true, false, Err, IfOk, OnOk};
ghost use Rattle.op_logic.specs.Names.{named, HasNames};
ghost use Rattle.op_logic.specs.Term.{args_of, arity, nth_arg};
ghost use Rattle.op_moves.specs.Pattern.{is_event, is_unbound};
ghost use Rattle.op_session.specs.inner.Placing.{IsJudged};

use crate::place::Place;
use op_base::Memory;
use op_bind::copy_term;
use op_cursor::{Pattern, PatternFault};
use op_term::{Builder, Symbols, Term, Tree, Whole};
use std::alloc::Global;

/// The first argument of a term, as a place.
pub fn place_in(term: &Term) -> Place
    requires { 0 < arity (args_of term.now) }
    ensures { IsJudged (nth_arg (args_of term.now) 0) result }
{
    let whole = Whole::new(term);
    Place::of(&whole, whole.part(&whole.root(), 0))
}

// The first argument of a term, as a term of its own.
fn argument_of(alloc: Global, term: &Term) -> Result<Term, Memory>
    requires { 0 < arity (args_of term.now) }
    ensures { IfOk result (λ t. t ≡ nth_arg (args_of term.now) 0) }
{
    let whole = Whole::new(term);
    let mut made = Builder::new(alloc);
    let root = copy_term(alloc, &whole, &whole.part(&whole.root(), 0), &mut made)?;
    Ok(made.finish(root))
}

/// The first argument of a term, as a pattern.
pub fn pattern_in(alloc: Global, term: &Term, symbols: &Symbols) -> Result<Pattern, PatternFault>
    requires some { 0 < arity (args_of term.now) }
    requires names { HasNames (length symbols.now) (nth_arg (args_of term.now) 0) }
    ensures pattern { IfOk result (λ p. p ≡ named symbols.now (nth_arg (args_of term.now) 0)) }
    ensures event { OnOk result (is_event (named symbols.now (nth_arg (args_of term.now) 0)) ≡ true) }
    ensures unbound { (result ≡ Err PatternFault.Unbound) → is_unbound (nth_arg (args_of term.now) 0) ≡ true }
    ensures not_event { (result ≡ Err PatternFault.NotEvent)
        → (is_unbound (nth_arg (args_of term.now) 0) ≡ false) × (is_event (named symbols.now (nth_arg (args_of term.now) 0)) ≡ false) }
{
    let argument = argument_of(alloc, term)?;
    Pattern::of(alloc, &argument, symbols)
}
