//! Why construction refuses its arguments, by their outermost nodes.

ghost use Rattle.std.specs.Prelude.{◌≡◌};
ghost use Rattle.op_inspect.specs.inner.Refused.{name_problem as the_name_problem, count_problem as the_count_problem};
ghost use Rattle.op_inspect.specs.inner.Refused.{functor_problem as the_functor_problem, arg_problem as the_arg_problem};
ghost use Rattle.op_inspect.specs.inner.Refused.{natural_of as the_natural};
ghost use Rattle.op_inspect.specs.inner.Refused.{whole_problem as the_whole_problem, head_problem as the_head_problem};

use crate::problem::{Domain, Expected, Problem};
use op_bind::Ref;
use op_term::Node;

// A name that is to have so many arguments.
fn name_problem(name: Node, count: u64, name_at: &Ref) -> Option<Problem>
    ensures { result ≡ the_name_problem name count name_at.now }
{
    match name {
        Node::Struct(_, _) => Some(Problem::NotOfType(Expected::Atomic, *name_at)),
        Node::Int(_) => {
            if count == 0 {
                None
            } else {
                Some(Problem::NotOfType(Expected::Atom, *name_at))
            }
        }
        _ => None,
    }
}

fn count_problem(name: Node, count: Node, name_at: &Ref, count_at: &Ref) -> Option<Problem>
    ensures { result ≡ the_count_problem name count name_at.now count_at.now }
{
    match count {
        Node::Var(_) => Some(Problem::Instantiation),
        Node::Int(n) => {
            if n < 0 {
                Some(Problem::NotInDomain(Domain::NotLessThanZero, *count_at))
            } else {
                name_problem(name, n as u64, name_at)
            }
        }
        _ => Some(Problem::NotOfType(Expected::Integer, *count_at)),
    }
}

/// The error of functor/3, where the term is a variable.
pub(crate) fn functor_problem(
    name: Node,
    count: Node,
    name_at: &Ref,
    count_at: &Ref,
) -> Option<Problem>
    ensures { result ≡ the_functor_problem name count name_at.now count_at.now }
{
    match name {
        Node::Var(_) => Some(Problem::Instantiation),
        _ => count_problem(name, count, name_at, count_at),
    }
}

// A term whose argument is wanted, with a number that is no variable.
fn whole_problem(index: Node, whole: Node, index_at: &Ref, whole_at: &Ref) -> Option<Problem>
    ensures { result ≡ the_whole_problem index whole index_at.now whole_at.now }
{
    match (index, whole) {
        (_, Node::Var(_)) => Some(Problem::Instantiation),
        (Node::Int(i), Node::Struct(_, _)) => {
            if i < 0 {
                Some(Problem::NotInDomain(Domain::NotLessThanZero, *index_at))
            } else {
                None
            }
        }
        (Node::Int(_), _) => Some(Problem::NotOfType(Expected::Compound, *whole_at)),
        _ => Some(Problem::NotOfType(Expected::Integer, *index_at)),
    }
}

/// The error of arg/3.
pub(crate) fn arg_problem(
    index: Node,
    whole: Node,
    index_at: &Ref,
    whole_at: &Ref,
) -> Option<Problem>
    ensures { result ≡ the_arg_problem index whole index_at.now whole_at.now }
{
    match index {
        Node::Var(_) => Some(Problem::Instantiation),
        _ => whole_problem(index, whole, index_at, whole_at),
    }
}

/// The error of `=..` for a list that begins with this, where so many arguments are behind it.
pub(crate) fn head_problem(head: Node, count: u64, head_at: &Ref) -> Option<Problem>
    ensures { result ≡ the_head_problem head count head_at.now }
{
    match head {
        Node::Var(_) => Some(Problem::Instantiation),
        Node::Atom(_) => None,
        Node::Int(_) => {
            if count == 0 {
                None
            } else {
                Some(Problem::NotOfType(Expected::Atom, *head_at))
            }
        }
        Node::Struct(_, _) => {
            if count == 0 {
                Some(Problem::NotOfType(Expected::Atomic, *head_at))
            } else {
                Some(Problem::NotOfType(Expected::Atom, *head_at))
            }
        }
    }
}

/// The natural number that a node says; 0 where it says none.
pub(crate) fn natural_of(node: Node) -> u64
    ensures { result ≡ the_natural node }
{
    match node {
        Node::Int(n) => { if n < 0 { 0 } else { n as u64 } }
        _ => 0,
    }
}
