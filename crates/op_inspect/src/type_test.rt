//! The tests of a term's type (ISO/IEC 13211-1, 8.3).

ghost use Rattle.std.specs.Prelude.{◌≡◌, ◌<◌, ℕ, List, length, Ok};
ghost use Rattle.op_inspect.specs.TypeTests.{test_act};
ghost use Rattle.op_inspect.specs.Outcomes.{text_at, texts_of, Answers, IsSetting};
ghost use Rattle.op_inspect.specs.inner.Nodes.{node_passes};
ghost use Rattle.op_inspect.specs.declared.type_test.TypeTest.TheVariants as tests;

use crate::outcome::{Outcome, decided};
use op_bind::{Bindings, Ref};
use op_term::Node;

/// The tests that look at the outermost node alone. Each number is an integer here.
#[derive(Clone, Copy, Debug, PartialEq, Eq)]
pub enum TypeTest {
    Variable,
    Nonvariable,
    Atom,
    Integer,
    Atomic,
    Compound,
    Callable,
}

// Whether a term with this outermost node passes a test.
fn passes(test: TypeTest, node: Node) -> bool
    ensures { result ≡ node_passes test node }
{
    match (test, node) {
        (TypeTest::Variable, Node::Var(_)) => true,
        (TypeTest::Variable, _) => false,
        (_, Node::Var(_)) => false,
        (TypeTest::Nonvariable, _) => true,
        (TypeTest::Atom, Node::Atom(_)) => true,
        (TypeTest::Integer, Node::Int(_)) => true,
        (TypeTest::Atomic, Node::Atom(_) | Node::Int(_)) => true,
        (TypeTest::Compound, Node::Struct(_, _)) => true,
        (TypeTest::Callable, Node::Atom(_) | Node::Struct(_, _)) => true,
        _ => false,
    }
}

/// Whether a node is a variable.
pub(crate) fn is_variable(node: Node) -> bool
    ensures { result ≡ node_passes tests.Variable node }
{
    matches!(node, Node::Var(_))
}

/// `var`, `nonvar`, `atom`, `integer`, `number`, `atomic`, `compound` and `callable`.
pub(crate) fn test(test: TypeTest, term: &Ref, bindings: &Bindings) -> Outcome
    requires there { term.now < length bindings.now.terms }
    ensures { (names : List (List ℕ)) (left : ℕ) → IsSetting names bindings.now
        → Answers (test_act test (text_at names bindings.now term.now) (texts_of names bindings.now))
        names bindings.now left (Ok result) names bindings.now left }
{
    decided(passes(test, bindings.outline(&bindings.followed(term))))
}
