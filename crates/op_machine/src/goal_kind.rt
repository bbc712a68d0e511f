ghost use Rattle.std.specs.Prelude.{◌≡◌, ◌≢◌, ◌<◌, length, take};
ghost use Rattle.op_logic.specs.Names.{IsTable};
ghost use Rattle.op_store.specs.Stored.{first_names};
ghost use Rattle.std.specs.Bool.{OnTrue, OnFalse};
ghost use Rattle.op_logic.specs.Term.{Term, args_of, arity, nth_arg};
ghost use Rattle.op_term.specs.Head.{head};
ghost use Rattle.op_trace.specs.Visit.{control, is_true, control_of_disjunction, IfThenElse, Disjunction};
ghost use Rattle.op_trace.specs.Database.{Text};
ghost use Rattle.op_machine.specs.Program.{goal_named};
ghost use Rattle.op_machine.specs.inner.GoalKinds.{control_of_kind, IsPair};
ghost use Rattle.op_machine.specs.declared.goal_kind.GoalKind.TheVariants as kinds;

use op_store::Store;
use op_store::names::control::{ARROW, COMMA, CUT, FAIL, FALSE, SEMICOLON, TRUE};
use op_term::{Node, Sym};

/// What kind of goal a term is.
#[derive(Clone, Copy, Debug, PartialEq, Eq)]
pub enum GoalKind {
    /// `true`.
    True,
    /// `fail` or `false`.
    Fail,
    /// A cut.
    Cut,
    /// A conjunction.
    Conjunction,
    /// A disjunction, or an if-then-else.
    Disjunction,
    /// An if-then.
    IfThen,
    /// A goal that has a box.
    Boxed,
}

/// A law for proofs: the names of a store are a table, which begins with those that come first.
pub(crate) fn names_law(store: &Store)
    ensures table { IsTable store.now.names }
    ensures begins { take (length first_names) store.now.names ≡ first_names }
{
    let _ = store.symbols().count();
}

/// What kind of goal a term with this outermost node is, over the names of a store.
pub(crate) fn kind_of(store: &Store, node: Node) -> GoalKind
    ensures control { (g : Term _) → head g ≡ node → control (goal_named store.now g) ≡ control_of_kind store.now g result }
    ensures two { (g : Term _) → head g ≡ node → IsPair result → arity (args_of g) ≡ 2 }
{
    names_law(store);
    match node {
        Node::Atom(name) => atom_kind(name),
        Node::Struct(name, arity) => struct_kind(name, arity),
        Node::Var(_) => GoalKind::Boxed,
        Node::Int(_) => GoalKind::Boxed,
    }
}

/// Whether a term with this outermost node is the atom `true`, over the names of a store.
pub(crate) fn is_true_atom(store: &Store, node: Node) -> bool
    ensures { (g : Term _) → head g ≡ node → result ≡ is_true (goal_named store.now g) }
{
    names_law(store);
    match node {
        Node::Atom(name) => name == TRUE,
        Node::Var(_) => false,
        Node::Int(_) => false,
        Node::Struct(_, _) => false,
    }
}

// the kinds of atoms
fn atom_kind(name: Sym) -> GoalKind
    ensures true_name { name.0 ≡ TRUE.0 → result ≡ kinds.True }
    ensures fail_name { name.0 ≡ FAIL.0 → result ≡ kinds.Fail }
    ensures false_name { name.0 ≡ FALSE.0 → result ≡ kinds.Fail }
    ensures cut_name { name.0 ≡ CUT.0 → result ≡ kinds.Cut }
    ensures other { name.0 ≢ TRUE.0 → name.0 ≢ FAIL.0 → name.0 ≢ FALSE.0 → name.0 ≢ CUT.0 → result ≡ kinds.Boxed }
{
    if name == TRUE {
        GoalKind::True
    } else if name == FAIL || name == FALSE {
        GoalKind::Fail
    } else if name == CUT {
        GoalKind::Cut
    } else {
        GoalKind::Boxed
    }
}

// the kinds of compounds, likewise
fn struct_kind(name: Sym, arity: u64) -> GoalKind
    ensures conjunction { name.0 ≡ COMMA.0 → arity ≡ 2 → result ≡ kinds.Conjunction }
    ensures disjunction { name.0 ≡ SEMICOLON.0 → arity ≡ 2 → result ≡ kinds.Disjunction }
    ensures if_then { name.0 ≡ ARROW.0 → arity ≡ 2 → result ≡ kinds.IfThen }
    ensures other { name.0 ≢ COMMA.0 → name.0 ≢ SEMICOLON.0 → name.0 ≢ ARROW.0 → result ≡ kinds.Boxed }
    ensures long { arity ≢ 2 → result ≡ kinds.Boxed }
    ensures two { IsPair result → arity ≡ 2 }
{
    if arity != 2 {
        GoalKind::Boxed
    } else if name == COMMA {
        GoalKind::Conjunction
    } else if name == SEMICOLON {
        GoalKind::Disjunction
    } else if name == ARROW {
        GoalKind::IfThen
    } else {
        GoalKind::Boxed
    }
}

/// Whether a term with this outermost node is an if-then, over the names of a store.
pub(crate) fn is_if_then(store: &Store, node: Node) -> bool
    ensures yes { OnTrue result ((g : Term _) → head g ≡ node → arity (args_of g) ≡ 2) }
    ensures condition { OnTrue result ((g : Term _) → head g ≡ node → (e : Term Text)
        → control_of_disjunction (goal_named store.now g) e
        ≡ IfThenElse (goal_named store.now (nth_arg (args_of g) 0)) (goal_named store.now (nth_arg (args_of g) 1)) e) }
    ensures no { OnFalse result ((g : Term _) → head g ≡ node → (e : Term Text) → control_of_disjunction (goal_named store.now g) e
        ≡ Disjunction (goal_named store.now g) e) }
{
    names_law(store);
    match node {
        Node::Struct(name, arity) => is_arrow(name, arity),
        Node::Var(_) => false,
        Node::Int(_) => false,
        Node::Atom(_) => false,
    }
}

fn is_arrow(name: Sym, arity: u64) -> bool
    ensures yes { OnTrue result ((name.0 ≡ ARROW.0) × (arity ≡ 2)) }
    ensures no { OnFalse result (name.0 ≡ ARROW.0 → arity ≡ 2 → ⊥) }
{
    name == ARROW && arity == 2
}
