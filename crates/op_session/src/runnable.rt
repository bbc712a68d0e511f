ghost use Rattle.std.specs.Prelude.{◌≡◌, ◌<◌, ◌++◌, ◌∷◌, [], ◌&&◌, Some, length, map, All, sum_by, bytes_eq, IfOk, OnOk};
ghost use Rattle.std.specs.List.{list_all, list_any};
ghost use Rattle.op_bind.specs.declared.places.Clause.{Clause as NumberedClause};
ghost use Rattle.op_logic.specs.Term.{size};
ghost use Rattle.op_logic.specs.Names.{HasNames, named};
ghost use Rattle.op_trace.specs.Database.{indicator_of_term};
ghost use Rattle.op_store.specs.Locked.{is_among as the_among};
ghost use Rattle.op_store.specs.Stored.{database_of};
ghost use Rattle.op_store.specs.Queries.{IsSoundGoal};
ghost use Rattle.op_store.specs.NumberedProcedures.{indicator_named};
ghost use Rattle.op_store.specs.declared.names.locked.Locked.{Locked};
ghost use Rattle.op_session.specs.Runnable.{built, is_built as the_built, is_runnable, are_runnable as the_runnable};
ghost use Rattle.op_session.specs.inner.Parts.{is_control_pair_name as the_control_pair_name, is_control_pair as the_control_pair};
ghost use Rattle.op_session.specs.inner.Parts.{all_runnable};

use op_base::Memory;
use op_inspect::is_inspected;
use op_store::{Goal, Pi, Snapshot, Store};
use op_term::{Node, Term, Tree, Whole};
use std::alloc::Global;

fn is_among(name: &str, names: &[&str]) -> bool
    ensures { result ≡ list_any (λ n. bytes_eq name.now n.now) names.now }
{
    names.iter().any(|n| name == *n)
}

// Whether a control construct or a builtin of control of this name, with so many arguments, is built.
fn is_built_name(name: &str, arity: u64) -> bool
    ensures { result ≡ the_among (built arity) name.now }
{
    if arity == 0 {
        is_among(name, &["true", "fail", "false", "!", "halt"])
    } else if arity == 1 {
        is_among(name, &["call", "throw", "\\+", "once", "halt"])
    } else if arity == 2 {
        is_among(name, &[",", ";", "->", "-->", "call"])
    } else if arity == 3 {
        is_among(name, &["call", "catch"])
    } else {
        is_among(name, &["call"])
    }
}

// Whether a goal of this name is none of a builtin that isn't built yet.
fn is_built(store: &Store, pi: Pi) -> bool
    requires locked { store.now.locked ≡ Locked.Program }
    requires name { pi.name.0 < length store.now.names }
    ensures { result ≡ the_built (Some (indicator_named store.now.names pi)) }
{
    let name = store.symbols().name_of(pi.name);
    let built = is_built_name(name, pi.arity) || is_inspected(name, pi.arity);
    let locked = store.is_locked(pi);
    !(locked && !built)
}

fn is_control_pair_name(name: &str) -> bool
    ensures { result ≡ the_control_pair_name name.now }
{
    name == "," || name == ";" || name == "->"
}

// Whether a part that has no parts of its own can be run.
fn is_goal<T: Tree>(store: &Store, tree: &T, at: &T::At) -> bool
    requires locked { store.now.locked ≡ Locked.Program }
    requires place { T.IsPlace tree.now at.now }
    requires names { HasNames (length store.now.names) (T.term tree.now at.now) }
    ensures { result ≡ the_built (indicator_of_term (named store.now.names (T.term tree.now at.now))) }
{
    match tree.node(at) {
        Node::Var(_) => true,
        Node::Int(_) => true,
        Node::Atom(name) => is_built(store, Pi { name, arity: 0 }),
        Node::Struct(name, arity) => is_built(store, Pi { name, arity }),
    }
}

fn is_control_pair<T: Tree>(store: &Store, tree: &T, at: &T::At) -> bool
    requires place { T.IsPlace tree.now at.now }
    requires names { HasNames (length store.now.names) (T.term tree.now at.now) }
    ensures { result ≡ the_control_pair (named store.now.names (T.term tree.now at.now)) }
{
    match tree.node(at) {
        Node::Struct(name, arity) => arity == 2
            && is_control_pair_name(store.symbols().name_of(name)),
        _ => false,
    }
}

// A control construct leaves its parts to be met; another part is looked at.
fn meet<T: Tree>(store: &Store, tree: &T, at: T::At, todo: &mut Vec<T::At>) -> Result<bool, Memory>
    requires locked { store.now.locked ≡ Locked.Program }
    requires place { T.IsPlace tree.now at }
    requires names { HasNames (length store.now.names) (T.term tree.now at) }
    requires todo { All (λ p. T.IsPlace tree.now p × HasNames (length store.now.names) (T.term tree.now p)) todo.old.items }
    ensures met { IfOk result (λ b.
        all_runnable (map (λ p. named store.now.names (T.term tree.now p)) (todo.old.items ++ at ∷ []))
        ≡ (b && all_runnable (map (λ p. named store.now.names (T.term tree.now p)) todo.new.items))) }
    ensures todo { OnOk result (All (λ p. T.IsPlace tree.now p × HasNames (length store.now.names) (T.term tree.now p)) todo.new.items) }
    ensures less { OnOk result (sum_by (λ p. size (T.term tree.now p)) todo.new.items
        < sum_by (λ p. size (T.term tree.now p)) (todo.old.items ++ at ∷ [])) }
{
    let pair = is_control_pair(store, tree, &at);
    if pair {
        todo.push(tree.part(&at, 1))?;
        todo.push(tree.part(&at, 0))?;
        return Ok(true);
    }
    Ok(is_goal(store, tree, &at))
}

// Whether a body can be run.
fn is_runnable_term(alloc: Global, store: &Store, term: &Term) -> Result<bool, Memory>
    requires locked { store.now.locked ≡ Locked.Program }
    requires names { HasNames (length store.now.names) term.now }
    ensures { IfOk result (λ b. b ≡ is_runnable (named store.now.names term.now)) }
{
    let whole = Whole::new(term);
    let mut todo = Vec::new(alloc);
    todo.push(whole.root())?;
    'walk: while let Some(at) = todo.pop() {
        if !meet(store, &whole, at, &mut todo)? {
            return Ok(false);
        }
    }
    Ok(true)
}

// Whether the bodies of these clauses can be run.
fn are_runnable_clauses(alloc: Global, store: &Store, clauses: &Snapshot) -> Result<bool, Memory>
    requires locked { store.now.locked ≡ Locked.Program }
    requires names { All (λ (r : NumberedClause). HasNames (length store.now.names) r.body) clauses.now }
    ensures { IfOk result (λ b. b ≡ list_all (λ (r : NumberedClause). is_runnable (named store.now.names r.body)) clauses.now) }
{
    'clauses: for i in 0..clauses.len() {
        if !is_runnable_term(alloc, store, &clauses.clause(i).body)? {
            return Ok(false);
        }
    }
    Ok(true)
}

/// Whether each clause of a program can be run. It takes time linear in the size of the clauses' bodies.
pub fn are_runnable(alloc: Global, store: &Store) -> Result<bool, Memory>
    requires { store.now.locked ≡ Locked.Program }
    ensures { IfOk result (λ b. b ≡ the_runnable (database_of store.now)) }
{
    let clauses = store.all_clauses()?;
    are_runnable_clauses(alloc, store, &clauses)
}

/// Whether a goal can be run over a program.
pub fn is_runnable_goal(alloc: Global, store: &Store, goal: &Goal) -> Result<bool, Memory>
    requires locked { store.now.locked ≡ Locked.Program }
    requires goal { IsSoundGoal (length store.now.names) goal.now }
    ensures { IfOk result (λ b. b ≡ is_runnable (named store.now.names goal.now.body)) }
{
    is_runnable_term(alloc, store, &goal.body)
}
