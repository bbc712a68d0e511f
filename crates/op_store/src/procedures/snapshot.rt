ghost use Rattle.std.specs.Prelude.{◌≡◌, ◌<◌, ◌++◌, ◌∷◌, [], map, IfOk, OnOk, OnErr, length, slice_index_or};

use op_base::Memory;
use op_bind::Clause;
use std::alloc::Global;
use std::marker::Model;
use std::rc::Rc;

/// The clauses of a procedure at a moment, in their order. It is shared, and no later change of the procedure changes it.
#[derive(Drop)]
pub struct Snapshot {
    list: Rc<Vec<Rc<Clause>>>,
}

impl Model for Snapshot {
    ghost use Rattle.std.specs.Prelude.{List, map};
    ghost use Rattle.std.specs.Coded.{codes};
    ghost use Rattle.op_logic.specs.inner.Code.{term_code};
    ghost use Rattle.op_bind.specs.declared.places.Clause.{Clause as NumberedClause};

    ghost Value = { List NumberedClause };

    ghost coded = { Prim.hlevel (codes, term_code) };

    ghost view = { λ s. map (λ r. r.value) s.list.value.items };
}

// Adds a clause at the end. A list that others share stays as it is.
fn push_shared(list: &mut Rc<Vec<Rc<Clause>>>, clause: Rc<Clause>) -> Result<(), Memory>
    ensures ok { OnOk result (map (λ r. r.value) list.new.value.items ≡ map (λ r. r.value) list.old.value.items ++ clause.value ∷ []) }
    ensures err { OnErr result (map (λ r. r.value) list.new.value.items ≡ map (λ r. r.value) list.old.value.items) }
{
    let own = Rc::make_mut(list)?;
    own.push(clause)?;
    Ok(())
}

// The same clauses, which are shared, behind others.
fn share(list: &[Rc<Clause>], all: &mut Vec<Rc<Clause>>) -> Result<(), Memory>
    ensures { OnOk result (map (λ r. r.value) all.new.items ≡ map (λ r. r.value) all.old.items ++ map (λ r. r.value) list.now) }
{
    'share: for clause in list {
        all.push(clause.clone()?)?;
    }
    Ok(())
}

impl Snapshot {
    /// No clauses.
    pub(crate) fn new(alloc: Global) -> Result<Snapshot, Memory>
        ensures { IfOk result (λ s. s ≡ []) }
    {
        Ok(Snapshot {
            list: Rc::new(alloc, Vec::new(alloc))?,
        })
    }

    /// Adds a clause at the end. Snapshots that were taken before stay as they are.
    pub(crate) fn push(&mut self, alloc: Global, clause: Clause) -> Result<(), Memory>
        ensures ok { OnOk result (self.new ≡ self.old ++ clause ∷ []) }
        ensures err { OnErr result (self.new ≡ self.old) }
    {
        let clause = Rc::new(alloc, clause)?;
        push_shared(&mut self.list, clause)
    }

    /// How many clauses there are.
    pub fn len(&self) -> u64
        ensures { result ≡ length self.now }
    {
        self.list.len() as u64
    }

    /// The clause at a place, counted from 0.
    pub fn clause(&self, i: u64) -> &Clause
        requires { i < length self.now }
        ensures { result.now ≡ slice_index_or self.now i result.now }
    {
        &self.list[i as usize]
    }

    /// The same clauses, which are shared.
    pub fn copy(&self) -> Result<Snapshot, Memory>
        ensures { IfOk result (λ s. s ≡ self.now) }
    {
        Ok(Snapshot {
            list: self.list.clone()?,
        })
    }

    /// Puts the same clauses behind others.
    pub(crate) fn add_to(&self, all: &mut Vec<Rc<Clause>>) -> Result<(), Memory>
        ensures { OnOk result (map (λ r. r.value) all.new.items ≡ map (λ r. r.value) all.old.items ++ self.now) }
    {
        share(&self.list, all)
    }

    /// These clauses.
    pub(crate) fn of(alloc: Global, list: Vec<Rc<Clause>>) -> Result<Snapshot, Memory>
        ensures { IfOk result (λ s. s ≡ map (λ r. r.value) list.items) }
    {
        Ok(Snapshot {
            list: Rc::new(alloc, list)?,
        })
    }
}
