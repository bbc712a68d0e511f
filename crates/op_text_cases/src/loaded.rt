ghost use Rattle.std.specs.Prelude.{◌≡◌, ◌<◌, [], ℕ, length, IfOk, OnOk};
ghost use Rattle.op_bind.specs.Grown.{Grows};
ghost use Rattle.op_bind.specs.State.{IsGoodMark, value_of};
ghost use Rattle.op_logic.specs.Names.{HasNames};
ghost use Rattle.op_reader.specs.Variables.{HasVariables};

use crate::show::add_term;
use crate::shown::Shown;
use crate::terms::{add_copy, add_sizes, add_value};
use op_base::Memory;
use op_bind::{Bindings, Mark, Ref, Unified};
use op_case_lines::Line;
use op_reader::Read;
use op_term::{Fuel, Node, Sym, Symbols, Term, WalkFault};
use std::alloc::Global;

/// Loads a term that was read, and adds what is shown of it.
pub fn of_loaded(
    alloc: Global,
    line: &mut Line,
    symbols: &mut Symbols,
    read: &Read,
    shown: Shown<'_>,
) -> Result<(), Memory>
    requires names { HasNames (length symbols.old) read.now.term }
    requires variables { HasVariables read.now.vars read.now.term read.now.names }
{
    let mut bindings = Bindings::new(alloc);
    let at = load(&mut bindings, read)?;
    add_loaded(alloc, line, symbols, &mut bindings, &at, shown)
}

// Loads a term into bindings that are empty.
fn load(bindings: &mut Bindings, read: &Read) -> Result<Ref, Memory>
    requires none { bindings.old.count ≡ 0 }
    requires free { bindings.old.bound ≡ [] }
    requires variables { HasVariables read.now.vars read.now.term read.now.names }
    ensures there { IfOk result (λ r. r < length bindings.new.terms) }
    ensures names { (n : ℕ) → HasNames n read.now.term → IfOk result (λ r. HasNames n (value_of bindings.new r)) }
{
    let first = bindings.fresh(read.vars)?;
    let at = bindings.load(&read.term, first)?;
    Ok(at)
}

fn add_loaded(
    alloc: Global,
    line: &mut Line,
    symbols: &mut Symbols,
    bindings: &mut Bindings,
    at: &Ref,
    shown: Shown<'_>,
) -> Result<(), Memory>
    requires there { at.now < length bindings.old.terms }
    requires names { HasNames (length symbols.old) (value_of bindings.old at.now) }
{
    match shown {
        Shown::Value(steps) => add_value(alloc, line, symbols, bindings, at, steps),
        Shown::Unified(steps) => add_unified(alloc, line, symbols, bindings, at, steps),
        Shown::Size(steps) => add_sizes(alloc, line, bindings, at, steps),
        Shown::Copied(steps) => add_copy(alloc, line, symbols, bindings, at, steps),
        Shown::Compound(name, steps) => {
            let name = symbols.intern(name)?;
            add_compounds(alloc, line, symbols, bindings, name, at, steps)
        }
        _ => Ok(line.add("no case")),
    }
}

/// Adds a value by the steps that are left, and how many are left then.
pub fn add_resolved(
    alloc: Global,
    line: &mut Line,
    symbols: &Symbols,
    bindings: &Bindings,
    value: &Ref,
    fuel: &mut Fuel,
) -> Result<(), Memory>
    requires { value.now < length bindings.now.terms }
{
    match bindings.resolve(value, fuel) {
        Ok(term) => add_small(alloc, line, symbols, &term)?,
        Err(WalkFault::Spent) => line.add(" spent"),
        Err(WalkFault::Memory) => return Err(Memory),
    }
    line.add_number(" ", fuel.left());
    Ok(())
}

// Adds a term, if its text has at most 200 bytes.
fn add_small(alloc: Global, line: &mut Line, symbols: &Symbols, term: &Term) -> Result<(), Memory> {
    let mut shown = Line::new(alloc);
    add_term(alloc, &mut shown, symbols, term)?;
    line.note(shown.done());
    line.add(" ");
    if shown.text().len() <= 200 {
        line.add(shown.text());
    } else {
        line.add("...");
    }
    Ok(())
}

/// Unifies the two arguments of an equation, and tells the answer.
pub fn answer_of(
    bindings: &mut Bindings,
    equation: &Ref,
    fuel: &mut Fuel,
) -> Result<&'static str, Memory>
    requires { equation.now < length bindings.old.terms }
    ensures { OnOk result (Grows bindings.old bindings.new) }
{
    let Node::Struct(_, 2) = bindings.outline(equation) else {
        return Ok("no equation");
    };
    let left = bindings.argument(equation, 0);
    let right = bindings.argument(equation, 1);
    match bindings.unify(&left, &right, fuel) {
        Ok(Unified::Yes) => Ok("yes"),
        Ok(Unified::No) => Ok("no"),
        Err(WalkFault::Spent) => Ok("spent"),
        Err(WalkFault::Memory) => Err(Memory),
    }
}

// The answer, the steps left, the equation's value, and the steps left behind it.
fn add_answer(
    alloc: Global,
    line: &mut Line,
    symbols: &Symbols,
    bindings: &mut Bindings,
    equation: &Ref,
    fuel: &mut Fuel,
) -> Result<(), Memory>
    requires { equation.now < length bindings.old.terms }
    ensures { OnOk result (Grows bindings.old bindings.new) }
{
    let word = answer_of(bindings, equation, fuel)?;
    line.add(word);
    line.add_number(" ", fuel.left());
    add_resolved(alloc, line, symbols, bindings, equation, fuel)
}

// The equation's value once the bindings are undone to a mark.
fn add_undone(
    alloc: Global,
    line: &mut Line,
    symbols: &Symbols,
    bindings: &mut Bindings,
    mark: Mark,
    equation: &Ref,
) -> Result<(), Memory>
    requires good { IsGoodMark bindings.old mark }
    requires there { equation.now < mark.terms }
{
    bindings.undo_to(mark);
    let mut fuel = Fuel::new(100);
    add_resolved(alloc, line, symbols, bindings, equation, &mut fuel)
}

// The answer with what belongs to it, and the equation's value once the bindings are undone.
fn add_unified(
    alloc: Global,
    line: &mut Line,
    symbols: &Symbols,
    bindings: &mut Bindings,
    equation: &Ref,
    steps: u64,
) -> Result<(), Memory>
    requires { equation.now < length bindings.old.terms }
{
    let mark = bindings.mark();
    let mut fuel = Fuel::new(steps);
    add_answer(alloc, line, symbols, bindings, equation, &mut fuel)?;
    add_undone(alloc, line, symbols, bindings, mark, equation)
}

// Makes a compound of two terms. Its value, and the second term's.
fn add_outer(
    alloc: Global,
    line: &mut Line,
    symbols: &Symbols,
    bindings: &mut Bindings,
    name: Sym,
    inner: &Ref,
    term: &Ref,
    fuel: &mut Fuel,
) -> Result<(), Memory>
    requires inner { inner.now < length bindings.old.terms }
    requires term { term.now < length bindings.old.terms }
{
    let outer = bindings.compound(name, &[*inner, *term])?;
    add_resolved(alloc, line, symbols, bindings, &outer, fuel)?;
    add_resolved(alloc, line, symbols, bindings, term, fuel)
}

// The answer with what belongs to it, a compound of the equation alone, and one of that compound and the equation.
fn add_compounds(
    alloc: Global,
    line: &mut Line,
    symbols: &Symbols,
    bindings: &mut Bindings,
    name: Sym,
    equation: &Ref,
    steps: u64,
) -> Result<(), Memory>
    requires { equation.now < length bindings.old.terms }
{
    let mut fuel = Fuel::new(steps);
    add_answer(alloc, line, symbols, bindings, equation, &mut fuel)?;
    let inner = bindings.compound(name, &[*equation])?;
    add_outer(
        alloc, line, symbols, bindings, name, &inner, equation, &mut fuel,
    )
}
