ghost use Rattle.std.specs.Prelude.{length};
ghost use Rattle.op_logic.specs.Names.{HasNames};

use op_base::Memory;
use op_case_lines::{Line, decoded, name_of, numbered};
use op_reader::{DoubleQuotes, Reading, read_term};
use op_store::{BodyFault, BodyNode, body_of};
use op_term::{Builder, Fuel, Node, Ops, Symbols, Term, Whole};
use std::alloc::Global;

// Adds the outermost node of a term.
fn add_head(line: &mut Line, symbols: &Symbols, head: Node) {
    match head {
        Node::Var(v) => line.add_number("_", v),
        Node::Int(i) => line.add_integer("", i),
        Node::Atom(name) => line.add(name_of(symbols, name)),
        Node::Struct(name, arity) => {
            line.add(name_of(symbols, name));
            line.add_number("/", arity);
        }
    }
}

// Adds a word and two numbers.
fn add_two(line: &mut Line, word: &str, a: u64, b: u64) {
    line.add_number(word, a);
    line.add_number(" ", b);
}

// Adds a word and the outermost node of a goal.
fn add_goal(line: &mut Line, word: &str, symbols: &Symbols, nodes: &Builder, at: u64) {
    line.add(word);
    if at < nodes.len() {
        add_head(line, symbols, nodes.node(at));
    }
}

fn add_node(line: &mut Line, symbols: &Symbols, nodes: &Builder, node: BodyNode<u64>) {
    match node {
        BodyNode::Goal(at) => add_goal(line, "goal ", symbols, nodes, at),
        BodyNode::CallOf(at) => add_goal(line, "call ", symbols, nodes, at),
        BodyNode::And(a, b) => add_two(line, "and ", a, b),
        BodyNode::Or(a, b) => add_two(line, "or ", a, b),
        BodyNode::Then(a, b) => add_two(line, "then ", a, b),
    }
    line.add("|");
}

// The nodes of a term's body, or why there are none, and the steps that are left.
fn add_body(
    alloc: Global,
    line: &mut Line,
    symbols: &Symbols,
    term: &Term,
    steps: u64,
) -> Result<(), Memory>
    requires { HasNames (length symbols.now) term.now }
{
    let mut fuel = Fuel::new(steps);
    let whole = Whole::new(term);
    match body_of(alloc, &whole, &whole.root(), symbols, &mut fuel) {
        Ok(body) => {
            for i in 0..body.len() {
                add_node(line, symbols, whole.nodes(), body.node(i));
            }
        }
        Err(BodyFault::Memory) => return Err(Memory),
        Err(BodyFault::Spent) => line.add("spent|"),
        Err(BodyFault::NotCallable) => line.add("not callable|"),
    }
    line.add_number("", fuel.left());
    Ok(())
}

fn read_body(
    alloc: Global,
    line: &mut Line,
    ops: &Ops,
    steps: u64,
    text: &[u8],
) -> Result<(), Memory> {
    let mut symbols = Symbols::new(alloc);
    match read_term(alloc, ops, DoubleQuotes::Codes, &mut symbols, text) {
        Ok(Reading::Term(read)) => add_body(alloc, line, &symbols, &read.term, steps),
        _ => Ok(line.add("no term")),
    }
}

/// The body of a term that is read with the standard's operators, by so many steps.
pub fn body(alloc: Global, line: &mut Line, text: &str) -> Result<(), Memory> {
    let (steps, term) = numbered(text).unwrap_or((0, text));
    let term = decoded(alloc, term)?;
    let ops = Ops::iso(alloc)?;
    read_body(alloc, line, &ops, steps, &term)
}
