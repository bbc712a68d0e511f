ghost use Rattle.std.specs.Prelude.{◌≡◌, ◌<◌, ◌≤◌, length, IfOk, OnOk};
ghost use Rattle.op_logic.specs.Term.{var as variable, IsWithin};
ghost use Rattle.op_term.specs.Places.{term_at};
ghost use Rattle.op_store.specs.Queries.{IsSoundGoal};
ghost use Rattle.op_machine.specs.inner.Invariant.{IsSound, AreValues};
ghost use Rattle.op_machine.specs.inner.Turns.{IsBegun};
ghost use Rattle.op_reader.specs.Reading.{AreCounted};
ghost use Rattle.op_bind.specs.Grown.{Grows};
ghost use Rattle.op_machine.specs.inner.Start.{IsMade};

use crate::continuations::{Continuations, Item};
use crate::core_state::{Core, Mode, Seen};
use crate::made_terms::load_atom;
use op_base::Memory;
use op_bind::{Bindings, Mark, Ref};
use op_frames::Frames;
use op_reader::Names;
use op_store::names::control::FAIL;
use op_store::{Goal, Store};
use op_term::Builder;
use op_trace::{Barrier, Port};
use std::alloc::Global;

/// What is made of a goal before a machine's first move.
#[derive(Drop)]
pub struct Parts {
    pub names: Names,
    pub bindings: Bindings,
    // the variables that have names
    pub values: Vec<Ref>,
    // the atom `fail`
    pub failure: Ref,
    // what was made before the body
    pub floor: Mark,
    pub body: Ref,
    pub continuations: Continuations,
    // the continuation of the goal alone
    pub items: u64,
}

// A Ref to a variable that was given out.
fn load_variable(alloc: Global, bindings: &mut Bindings, var: u64) -> Result<Ref, Memory>
    requires { var < bindings.old.count }
    ensures there { IfOk result (λ r. r < length bindings.new.terms) }
    ensures value { IfOk result (λ r. term_at bindings.new.terms r ≡ variable var) }
    ensures bound { OnOk result (bindings.new.bound ≡ bindings.old.bound) }
    ensures count { OnOk result (bindings.new.count ≡ bindings.old.count) }
    ensures grows { OnOk result (Grows bindings.old bindings.new) }
{
    let mut builder = Builder::new(alloc);
    let root = builder.var(var)?;
    bindings.load(&builder.finish(root), 0)
}

// A Ref to each variable that has a name.
fn load_values(alloc: Global, bindings: &mut Bindings, names: &Names) -> Result<Vec<Ref>, Memory>
    requires { AreCounted bindings.old.count names.now }
    ensures values { IfOk result (λ v. AreValues bindings.new.terms v.items names.now) }
    ensures bound { OnOk result (bindings.new.bound ≡ bindings.old.bound) }
    ensures count { OnOk result (bindings.new.count ≡ bindings.old.count) }
{
    let mut values = Vec::new(alloc);
    for i in 0..names.len() {
        values.push(load_variable(alloc, bindings, names.var(i))?)?;
    }
    Ok(values)
}

// The parts of a machine that is to run a goal.
pub(crate) fn parts_of(alloc: Global, goal: &Goal) -> Result<Parts, Memory>
    requires within { IsWithin goal.now.vars goal.now.body }
    requires counted { AreCounted goal.now.vars goal.now.names }
    ensures { IfOk result (IsMade goal.now) }
{
    let names = goal.names.copy()?;
    let mut bindings = Bindings::new(alloc);
    let first = bindings.fresh(goal.vars)?;
    let values = load_values(alloc, &mut bindings, &names)?;
    let failure = load_atom(alloc, &mut bindings, FAIL)?;
    let floor = bindings.mark();
    let body = bindings.load(&goal.body, first)?;
    let mut continuations = Continuations::new(alloc);
    let items = continuations.add(
        Item::Goal {
            goal: body,
            barrier: Barrier::Call(0),
        },
        0,
    )?;
    Ok(Parts {
        names,
        bindings,
        values,
        failure,
        floor,
        body,
        continuations,
        items,
    })
}

impl Core {
    // Before the first move of a goal's run.
    pub(crate) fn begin(
        alloc: Global,
        store: Store,
        goal: &Goal,
        budget: u64,
        wanted: u64,
    ) -> Result<Core, Memory>
        requires goal { IsSoundGoal (length store.names) goal.now }
        requires limit { budget ≤ 1000000000 }
        ensures begun { IfOk result (IsBegun store goal.now.body goal.now.vars goal.now.names budget wanted) }
        ensures sound { IfOk result IsSound }
        ensures store { IfOk result (λ c. c.store ≡ store) }
    {
        let parts = parts_of(alloc, goal)?;
        let Parts {
            names,
            bindings,
            values,
            failure,
            floor,
            body,
            continuations,
            items,
        } = parts;
        Ok(Core {
            store,
            bindings,
            continuations,
            frames: Frames::new(alloc),
            mode: Mode::Forward { items },
            ball: None,
            seen: Seen {
                chrono: 0,
                call: 0,
                parent: 0,
                depth: 0,
                port: Port::Call,
                goal: body,
            },
            names,
            values,
            failure,
            floor,
            calls: 0,
            conditions: 0,
            steps: 0,
            events: 0,
            solutions: 0,
            budget,
            wanted,
        })
    }
}
