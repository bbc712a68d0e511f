use op_base::Memory;
use op_base::characters::{is_small, is_symbol, is_word};
use op_case_lines::{Line, name_of};
use op_term::{Builder, Node, Symbols, Term, Whole};
use std::alloc::Global;

// What is still to be shown of a term.
#[derive(Clone, Copy)]
enum ToShow {
    Node(u64),
    Text(&'static str),
}

// A name that no other name, number or variable is shown as.
fn is_bare(name: &str) -> bool {
    match name {
        "" => false,
        "[]" | "{}" | "!" | ";" | "," => true,
        _ => {
            let bytes = name.as_bytes();
            bytes.iter().all(|b| is_symbol(*b))
                || bytes.iter().take(1).all(|b| is_small(*b)) && bytes.iter().all(|b| is_word(*b))
        }
    }
}

// A name, in quotes unless it is bare; a quote in it is doubled.
fn add_name(line: &mut Line, name: &str) {
    if is_bare(name) {
        line.add(name);
        return;
    }
    line.add("'");
    for c in name.chars() {
        line.add(if c == '\'' { "'" } else { "" });
        line.push(c);
    }
    line.add("'");
}

fn push_parts(nodes: &Builder, at: u64, stack: &mut Vec<ToShow>) -> Result<(), Memory> {
    if at >= nodes.len() {
        return Ok(());
    }
    for (i, part) in nodes.parts(at).iter().rev().enumerate() {
        stack.push(ToShow::Text(if i == 0 { ")" } else { "," }))?;
        stack.push(ToShow::Node(*part))?;
    }
    Ok(())
}

fn add_node(line: &mut Line, symbols: &Symbols, node: Node) {
    match node {
        Node::Var(n) => line.add_number("_", n),
        Node::Int(i) => line.add_integer("", i),
        Node::Atom(name) => add_name(line, name_of(symbols, name)),
        Node::Struct(name, _) => {
            add_name(line, name_of(symbols, name));
            line.add("(");
        }
    }
}

/// Adds a term in functional notation; of a large one the beginning.
pub fn add_term(
    alloc: Global,
    line: &mut Line,
    symbols: &Symbols,
    term: &Term,
) -> Result<(), Memory> {
    let whole = Whole::new(term);
    let nodes = whole.nodes();
    let mut stack = Vec::new(alloc);
    stack.push(ToShow::Node(whole.root()))?;
    for _ in 0..1000 {
        match stack.pop() {
            Some(ToShow::Text(text)) => line.add(text),
            Some(ToShow::Node(at)) if at < nodes.len() => {
                add_node(line, symbols, nodes.node(at));
                push_parts(nodes, at, &mut stack)?;
            }
            Some(ToShow::Node(_)) => {}
            None => return Ok(()),
        }
    }
    line.add("...");
    Ok(())
}
