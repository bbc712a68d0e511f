ghost use Rattle.std.specs.Prelude.{◌≡◌, ◌<◌, length};
ghost use Rattle.op_bind.specs.State.{value_of};
ghost use Rattle.op_logic.specs.Names.{HasNames};

use crate::loaded::{add_resolved, answer_of};
use op_base::Memory;
use op_bind::{Bindings, Ref};
use op_case_lines::{Line, name_of};
use op_inspect::{EvalFault, evaluate};
use op_term::{Fuel, Node, Symbols, Term, Tree, WalkFault, Whole, compare, is_ground, size};
use std::alloc::Global;
use std::cmp::Ordering;

// The word for the answer of a comparison.
fn order_word(answer: Result<Ordering, WalkFault>) -> Result<&'static str, Memory> {
    match answer {
        Ok(Ordering::Less) => Ok("<"),
        Ok(Ordering::Equal) => Ok("="),
        Ok(Ordering::Greater) => Ok(">"),
        Err(WalkFault::Spent) => Ok("spent"),
        Err(WalkFault::Memory) => Err(Memory),
    }
}

/// The order of an equation's two sides by so many steps, and how many are left.
pub fn add_order(
    alloc: Global,
    line: &mut Line,
    symbols: &Symbols,
    term: &Term,
    steps: u64,
) -> Result<(), Memory>
    requires { HasNames (length symbols.now) term.now }
{
    let tree = Whole::new(term);
    let root = tree.root();
    let Node::Struct(_, 2) = tree.node(&root) else {
        return Ok(line.add("no equation"));
    };
    let left = tree.part(&root, 0);
    let right = tree.part(&root, 1);
    let mut fuel = Fuel::new(steps);
    let word = order_word(compare(alloc, &tree, &left, &right, symbols, &mut fuel))?;
    line.add(word);
    line.add_number(" ", fuel.left());
    Ok(())
}

fn add_fault(line: &mut Line, symbols: &Symbols, fault: EvalFault) {
    match fault {
        EvalFault::Memory => line.note(Err(Memory)),
        EvalFault::Spent => line.add("spent"),
        EvalFault::Unbound => line.add("unbound"),
        EvalFault::Overflow => line.add("overflow"),
        EvalFault::ZeroDivisor => line.add("zero"),
        EvalFault::Undefined => line.add("undefined"),
        EvalFault::Evaluable(name, arity) => {
            line.add("evaluable ");
            line.add(name_of(symbols, name));
            line.add_number("/", arity);
        }
    }
}

/// The value of an expression by so many steps or why there is none, and how many steps are left.
pub fn add_value(
    alloc: Global,
    line: &mut Line,
    symbols: &Symbols,
    bindings: &Bindings,
    at: &Ref,
    steps: u64,
) -> Result<(), Memory>
    requires there { at.now < length bindings.now.terms }
    requires names { HasNames (length symbols.now) (value_of bindings.now at.now) }
{
    let mut fuel = Fuel::new(steps);
    match evaluate(alloc, at, bindings, symbols, &mut fuel) {
        Ok(value) => line.add_integer("", value),
        Err(fault) => add_fault(line, symbols, fault),
    }
    line.add_number(" ", fuel.left());
    Ok(())
}

// The word for whether a value has no variable.
fn ground_word(answer: Result<bool, WalkFault>) -> Result<&'static str, Memory> {
    match answer {
        Ok(true) => Ok(" yes"),
        Ok(false) => Ok(" no"),
        Err(WalkFault::Spent) => Ok(" spent"),
        Err(WalkFault::Memory) => Err(Memory),
    }
}

/// How many nodes an equation has once its sides are unified, and whether it has no variable, each by so many steps, with those that are left.
pub fn add_sizes(
    alloc: Global,
    line: &mut Line,
    bindings: &mut Bindings,
    equation: &Ref,
    steps: u64,
) -> Result<(), Memory>
    requires { equation.now < length bindings.old.terms }
{
    answer_of(bindings, equation, &mut Fuel::new(1000))?;
    let mut fuel = Fuel::new(steps);
    match size(alloc, bindings, equation, &mut fuel) {
        Ok(n) => line.add_number("", n),
        Err(WalkFault::Spent) => line.add("spent"),
        Err(WalkFault::Memory) => return Err(Memory),
    }
    line.add_number(" ", fuel.left());
    let mut fuel = Fuel::new(steps);
    line.add(ground_word(is_ground(alloc, bindings, equation, &mut fuel))?);
    line.add_number(" ", fuel.left());
    Ok(())
}

/// A copy of an equation once its sides are unified, by so many steps, how many are left, and how many variables were given out then.
pub fn add_copy(
    alloc: Global,
    line: &mut Line,
    symbols: &Symbols,
    bindings: &mut Bindings,
    equation: &Ref,
    steps: u64,
) -> Result<(), Memory>
    requires { equation.now < length bindings.old.terms }
{
    answer_of(bindings, equation, &mut Fuel::new(1000))?;
    let mut fuel = Fuel::new(steps);
    let copied = bindings.copy(equation, &mut fuel);
    line.add_number("", fuel.left());
    match copied {
        Ok(copy) => add_resolved(alloc, line, symbols, bindings, &copy, &mut Fuel::new(100))?,
        Err(WalkFault::Spent) => line.add(" spent"),
        Err(WalkFault::Memory) => return Err(Memory),
    }
    line.add_number(" ", bindings.fresh(0)?);
    Ok(())
}
