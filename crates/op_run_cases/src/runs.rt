ghost use Rattle.std.specs.Prelude.{◌≡◌, ◌<◌, ◌≤◌, length, IfOk};
ghost use Rattle.op_logic.specs.Names.{HasNames};
ghost use Rattle.op_bind.specs.State.{value_of};
ghost use Rattle.op_store.specs.Queries.{IsSoundGoal};
ghost use Rattle.op_machine.specs.Machine.{TurnHasNames};

use crate::solutions::add_solutions;
use crate::turns::{add_ending, next};
use op_base::{Memory, Steps};
use op_bind::{Bindings, Ref};
use op_case_lines::Line;
use op_event::{EventView, Port};
use op_machine::{Machine, SolutionView, Turn};
use op_store::{Goal, Locked, Store};
use op_term::{Node, Symbols};
use std::alloc::Global;
use std::marker::Brand;
use std::sync::ledger::{Blank, Ledger};

fn word(port: Port) -> &'static str {
    match port {
        Port::Call => "call",
        Port::Exit => "exit",
        Port::Redo => "redo",
        Port::Fail => "fail",
        Port::Exception => "exception",
    }
}

// A value's outermost part.
fn add_value(line: &mut Line, bindings: &Bindings, symbols: &Symbols, value: &Ref)
    requires there { value.now < length bindings.now.terms }
    requires names { HasNames (length symbols.now) (value_of bindings.now value.now) }
{
    match bindings.head_of(value) {
        Node::Var(n) => line.add_number("_", n),
        Node::Int(i) => line.add_integer("", i),
        Node::Atom(name) => line.add(symbols.name_of(name)),
        Node::Struct(name, _) => {
            line.add(symbols.name_of(name));
            line.add("(..)");
        }
    }
}

// A goal's first argument, where it is a variable or a number.
fn add_first(line: &mut Line, bindings: &Bindings, goal: &Ref)
    requires { goal.now < length bindings.now.terms }
{
    if let Node::Struct(_, _) = bindings.outline(goal) {
        match bindings.head_of(&bindings.argument(goal, 0)) {
            Node::Var(n) => line.add_number(" _", n),
            Node::Int(i) => line.add_integer(" ", i),
            _ => line.add(" -"),
        }
    }
}

/// Adds an event.
pub fn add_event(line: &mut Line, view: &EventView<'_>) {
    line.add_number("", view.chrono());
    line.add_number(" ", view.call());
    line.add_number(" ", view.parent());
    line.add_number(" ", view.depth());
    line.add(" ");
    line.add(word(view.port()));
    add_first(line, view.bindings(), view.goal());
    line.add("|");
}

// The named variables and their values.
fn add_solution(line: &mut Line, view: &SolutionView<'_>) {
    let names = view.names();
    line.add("solution");
    for i in 0..names.len() {
        line.add(" ");
        line.add(names.name(i));
        line.add("=");
        add_value(line, view.bindings(), view.symbols(), &view.value(i));
    }
    line.add("|");
}

// Adds the turn that a machine came to.
fn add_turn(alloc: Global, line: &mut Line, machine: &Machine, turn: &Turn) -> Result<(), Memory>
    requires { TurnHasNames (length machine.now.tables.names) turn.now }
{
    match turn {
        Turn::Event => {
            if let Some(view) = machine.event() {
                add_event(line, &view);
            }
        }
        Turn::Solution => {
            if let Some(view) = machine.solution() {
                add_solution(line, &view);
            }
        }
        Turn::Ended(ending) => add_ending(alloc, line, machine, ending)?,
    }
    Ok(())
}

// Adds all turns, up to a thousand.
fn add_turns<L: Ledger>(
    alloc: Global,
    line: &mut Line,
    machine: &mut Machine,
    steps: &mut Steps<L>,
) -> Result<(), Memory> {
    for _ in 0..1000 {
        let turn = next(machine, steps)?;
        add_turn(alloc, line, machine, &turn)?;
        if let Turn::Ended(_) = turn {
            break;
        }
    }
    Ok(())
}

// Adds how many events there are, and the ending.
fn add_count<L: Ledger>(
    alloc: Global,
    line: &mut Line,
    machine: &mut Machine,
    steps: &mut Steps<L>,
) -> Result<(), Memory> {
    let mut events: u64 = 0;
    for _ in 0..10_000_000 {
        match next(machine, steps)? {
            Turn::Event => events = events.saturating_add(1),
            Turn::Solution => {}
            Turn::Ended(ending) => {
                line.add_number("", events);
                line.add(" ");
                add_ending(alloc, line, machine, &ending)?;
                break;
            }
        }
    }
    Ok(())
}

// Adds how many choice points are kept at the first solution or the end.
fn add_choice_points<L: Ledger>(
    line: &mut Line,
    machine: &mut Machine,
    steps: &mut Steps<L>,
) -> Result<(), Memory> {
    for _ in 0..10_000_000 {
        match next(machine, steps)? {
            Turn::Event => {}
            _ => break,
        }
    }
    line.add_number("", machine.choice_points());
    Ok(())
}

/// What is shown of a run.
#[derive(Clone, Copy)]
pub enum Shown {
    /// All turns.
    Turns,
    /// How many events there are, and the ending.
    Count,
    /// How many choice points are kept at the first solution.
    ChoicePoints,
    /// All solutions with their values whole, and the ending.
    Solutions,
}

fn add_shown<L: Ledger>(
    alloc: Global,
    line: &mut Line,
    machine: &mut Machine,
    steps: &mut Steps<L>,
    shown: Shown,
) -> Result<(), Memory> {
    match shown {
        Shown::Turns => add_turns(alloc, line, machine, steps),
        Shown::Count => add_count(alloc, line, machine, steps),
        Shown::ChoicePoints => add_choice_points(line, machine, steps),
        Shown::Solutions => add_solutions(alloc, line, machine, steps),
    }
}

fn run_by<L: Ledger>(
    alloc: Global,
    line: &mut Line,
    machine: &mut Machine,
    blank: Blank,
    shown: Shown,
) -> Result<(), Memory>
    requires name { blank.name ≡ L.name }
    requires parts { blank.parts ≡ L.parts }
    requires some { 0 < L.parts }
{
    let mut steps = Steps::<L>::new(blank);
    add_shown(alloc, line, machine, &mut steps, shown)
}

fn add_run(
    alloc: Global,
    line: &mut Line,
    machine: &mut Machine,
    shown: Shown,
) -> Result<(), Memory> {
    run_by::<Brand>(alloc, line, machine, Blank::new(1), shown)
}

fn machine_run(
    alloc: Global,
    line: &mut Line,
    mut machine: Machine,
    shown: Shown,
) -> Result<(), Memory> {
    add_run(alloc, line, &mut machine, shown)
}

// A run of a goal that was read.
fn goal_run(
    alloc: Global,
    line: &mut Line,
    store: Store,
    goal: &Goal,
    budget: u64,
    wanted: u64,
    shown: Shown,
) -> Result<(), Memory>
    requires goal { IsSoundGoal (length store.names) goal.now }
    requires some { 1 ≤ budget }
    requires bounded { budget ≤ 1000000000 }
{
    let machine = Machine::start(alloc, store, goal, budget, wanted)?;
    machine_run(alloc, line, machine, shown)
}

/// The goal that a text is behind a program, or which of them is none.
pub fn goal_behind(store: &mut Store, program: &[u8], goal: &[u8]) -> Result<Goal, &'static str>
    ensures { IfOk result (λ g. IsSoundGoal (length store.new.names) g) }
{
    if store.load(program).is_err() {
        return Err("no program");
    }
    match store.goal(goal) {
        Ok(goal) => Ok(goal),
        Err(_) => Err("no goal"),
    }
}

fn store_run(
    alloc: Global,
    line: &mut Line,
    program: &[u8],
    goal: &[u8],
    budget: u64,
    wanted: u64,
    shown: Shown,
) -> Result<(), Memory>
    requires some { 1 ≤ budget }
    requires bounded { budget ≤ 1000000000 }
{
    let mut store = Store::new(alloc, Locked::Program)?;
    match goal_behind(&mut store, program, goal) {
        Ok(goal) => goal_run(alloc, line, store, &goal, budget, wanted, shown),
        Err(word) => Ok(line.add(word)),
    }
}

/// What a run of so many steps, for the solution of a number or for all by 0, comes to.
pub fn run(
    alloc: Global,
    line: &mut Line,
    program: &[u8],
    goal: &[u8],
    budget: u64,
    wanted: u64,
    shown: Shown,
) -> Result<(), Memory> {
    if budget < 1 || budget > 1_000_000_000 {
        return Ok(line.add("no budget"));
    }
    store_run(alloc, line, program, goal, budget, wanted, shown)
}
