ghost use Rattle.std.specs.Prelude.{◌≡◌, ◌≢◌, ◌<◌, ◌≤◌, ℕ, true, false, length};
ghost use Rattle.op_logic.specs.Term.{Term, args_of, arity};
ghost use Rattle.op_logic.specs.Bind.{Bindings};
ghost use Rattle.op_logic.specs.Names.{HasNames, name_at};
ghost use Rattle.op_term.specs.Head.{head};
ghost use Rattle.std.specs.Bool.{OnTrue, OnFalse};
ghost use Rattle.op_trace.specs.Builtins as control;
ghost use Rattle.op_inspect.specs.Inspected.{is_builtin};
ghost use Rattle.op_machine.specs.Acts.{act_of_goal};
ghost use Rattle.op_trace.specs.Visit.{is_catch};
ghost use Rattle.op_trace.specs.Database.{Text};
ghost use Rattle.op_trace.specs.World.{World};
ghost use Rattle.op_machine.specs.Program.{goal_named};
ghost use Rattle.op_machine.specs.inner.BuiltinKinds.{act_of_kind, HasArgument, IsOfControl, IsOnTerms};
ghost use Rattle.op_machine.specs.declared.builtin_kind.Builtin.TheVariants as builtin;
ghost use Rattle.op_machine.specs.declared.builtin_kind.Around.TheVariants.{Alone, FirstSolution, NoSolution};

use crate::goal_kind::names_law;
use op_inspect::is_inspected;
use op_store::Store;
use op_store::names::control::{CALL, CATCH, HALT, NOT, ONCE, THROW};
use op_term::{Node, Sym};

/// What stands around a goal that runs in the box of another.
#[derive(Clone, Copy, Debug, PartialEq, Eq)]
pub enum Around {
    /// Nothing, for call/1 to call/8.
    Alone,
    /// What cuts behind its first solution, for once/1.
    FirstSolution,
    /// What fails where it has a solution, for `\+`.
    NoSolution,
}

/// Which builtin a goal without a procedure is of.
#[derive(Clone, Copy, Debug, PartialEq, Eq)]
pub enum Builtin {
    /// The first argument runs in the box.
    Run(Around),
    /// catch/3, of which the first argument runs in the box.
    Catch,
    /// throw/1.
    Throw,
    /// halt/0.
    Halt,
    /// halt/1.
    HaltWith,
    /// One of the builtins on terms: a name with so many arguments.
    OnTerms(Sym, u64),
    /// Of none: a name with so many arguments.
    Unknown(Sym, u64),
    /// The term is no goal.
    NoGoal,
}

/// Which builtin a term with this outermost node is a goal of, over the names of a store.
pub(crate) fn builtin_of(store: &Store, node: Node) -> Builtin
    requires { (g : Term ℕ) × (head g ≡ node) × HasNames (length store.now.names) g }
    ensures act { (g : Term _) → head g ≡ node → (left : ℕ) (σ : Bindings Text) (w : World)
        → act_of_goal left (goal_named store.now g) σ w ≡ act_of_kind store.now result (goal_named store.now g) left σ w }
    ensures argument { (g : Term _) → head g ≡ node → HasArgument result → 0 < arity (args_of g) }
    ensures known { (g : Term _) (f : Sym) (n : ℕ) → head g ≡ node → HasNames (length store.now.names) g
        → result ≡ builtin.Unknown f n → f.0 < length store.now.names }
    ensures terms { (g : Term _) (f : Sym) (n : ℕ) → head g ≡ node → result ≡ builtin.OnTerms f n → IsOnTerms store.now f n g }
{
    match control_of(store, node) {
        Builtin::Unknown(name, arity) => other_builtin(store, name, arity),
        own => own,
    }
}

// One of the builtins on terms, or none.
fn other_builtin(store: &Store, name: Sym, arity: u64) -> Builtin
    requires { name.0 < length store.now.names }
    ensures yes { is_builtin (name_at store.now.names name.0) arity ≡ true → result ≡ builtin.OnTerms name arity }
    ensures no { is_builtin (name_at store.now.names name.0) arity ≡ false → result ≡ builtin.Unknown name arity }
{
    if is_inspected(store.symbols().name_of(name), arity) {
        Builtin::OnTerms(name, arity)
    } else {
        Builtin::Unknown(name, arity)
    }
}

// Which builtin of control a term with this outermost node is a goal of.
fn control_of(store: &Store, node: Node) -> Builtin
    ensures act { (g : Term _) → head g ≡ node → (left : ℕ) (σ : Bindings Text) (w : World)
        → control.act_of_goal left (goal_named store.now g) σ w
        ≡ act_of_kind store.now result (goal_named store.now g) left σ w }
    ensures own { (g : Term _) → head g ≡ node → IsOfControl store.now result g }
    ensures argument { (g : Term _) → head g ≡ node → HasArgument result → 0 < arity (args_of g) }
    ensures known { (g : Term _) (f : Sym) (n : ℕ) → head g ≡ node → HasNames (length store.now.names) g
        → result ≡ builtin.Unknown f n → f.0 < length store.now.names }
{
    names_law(store);
    match node {
        Node::Atom(name) => atom_builtin(name),
        Node::Struct(name, 1) => single_builtin(name),
        Node::Struct(name, arity) => longer_builtin(name, arity),
        Node::Var(_) => Builtin::NoGoal,
        Node::Int(_) => Builtin::NoGoal,
    }
}

// the builtins without an argument
fn atom_builtin(name: Sym) -> Builtin
    ensures halt { name.0 ≡ HALT.0 → result ≡ builtin.Halt }
    ensures other { name.0 ≢ HALT.0 → result ≡ builtin.Unknown name 0 }
{
    if name == HALT {
        Builtin::Halt
    } else {
        Builtin::Unknown(name, 0)
    }
}

// the builtins with one argument
fn single_builtin(name: Sym) -> Builtin
    ensures call { name.0 ≡ CALL.0 → result ≡ builtin.Run Alone }
    ensures once { name.0 ≡ ONCE.0 → result ≡ builtin.Run FirstSolution }
    ensures not { name.0 ≡ NOT.0 → result ≡ builtin.Run NoSolution }
    ensures throw { name.0 ≡ THROW.0 → result ≡ builtin.Throw }
    ensures halt { name.0 ≡ HALT.0 → result ≡ builtin.HaltWith }
    ensures other { name.0 ≢ CALL.0 → name.0 ≢ ONCE.0 → name.0 ≢ NOT.0 → name.0 ≢ THROW.0 → name.0 ≢ HALT.0
        → result ≡ builtin.Unknown name 1 }
{
    if name == CALL {
        Builtin::Run(Around::Alone)
    } else if name == ONCE {
        Builtin::Run(Around::FirstSolution)
    } else if name == NOT {
        Builtin::Run(Around::NoSolution)
    } else if name == THROW {
        Builtin::Throw
    } else if name == HALT {
        Builtin::HaltWith
    } else {
        Builtin::Unknown(name, 1)
    }
}

// the builtins with more arguments
fn longer_builtin(name: Sym, arity: u64) -> Builtin
    ensures call { name.0 ≡ CALL.0 → arity ≤ 8 → result ≡ builtin.Run Alone }
    ensures long { 8 < arity → result ≡ builtin.Unknown name arity }
    ensures catch { name.0 ≡ CATCH.0 → arity ≡ 3 → result ≡ builtin.Catch }
    ensures other_catch { name.0 ≡ CATCH.0 → arity ≢ 3 → result ≡ builtin.Unknown name arity }
    ensures other { name.0 ≢ CALL.0 → name.0 ≢ CATCH.0 → result ≡ builtin.Unknown name arity }
{
    if name == CALL && arity <= 8 {
        Builtin::Run(Around::Alone)
    } else if name == CATCH && arity == 3 {
        Builtin::Catch
    } else {
        Builtin::Unknown(name, arity)
    }
}

/// Whether a term with this outermost node is a goal of catch/3, over the names of a store.
pub(crate) fn is_catch_goal(store: &Store, node: Node) -> bool
    ensures catch { (g : Term _) → head g ≡ node → result ≡ is_catch (goal_named store.now g) }
    ensures three { OnTrue result ((g : Term _) → head g ≡ node → arity (args_of g) ≡ 3) }
{
    names_law(store);
    match node {
        Node::Struct(name, arity) => is_catch_name(name, arity),
        Node::Var(_) => false,
        Node::Int(_) => false,
        Node::Atom(_) => false,
    }
}

fn is_catch_name(name: Sym, arity: u64) -> bool
    ensures yes { OnTrue result ((name.0 ≡ CATCH.0) × (arity ≡ 3)) }
    ensures no { OnFalse result (name.0 ≡ CATCH.0 → arity ≡ 3 → ⊥) }
{
    name == CATCH && arity == 3
}
