ghost use Rattle.std.specs.Prelude.{◌≡◌, [], ◌∷◌, length, take, Some, None, option_copied, option_map, IfOk, OnOk, OnErr, MatchOption};
ghost use Rattle.op_store.specs.NumberedProcedures.{pi_eq, numbered_procedure_in, with_numbered_procedure, extended_numbered};
ghost use Rattle.op_store.specs.NumberedProcedures.{all_numbered_clauses, no_numbered_clauses};
ghost use Rattle.std.specs.List.{IsDistinct};
ghost use Rattle.std.specs.Map.{keys_of};

use crate::procedures::pi::Pi;
use crate::procedures::procedure::Procedure;
use crate::procedures::snapshot::Snapshot;
use indexmap::IndexMap;
use op_base::Memory;
use op_bind::Clause;
use std::alloc::Global;
use std::marker::Model;

/// Procedures, found by their names and numbers of arguments. A clause sees the list of them in order of first sight.
#[derive(Drop)]
pub(crate) struct Procedures {
    alloc: Global,
    by_indicator: IndexMap<Pi, Procedure>,
}

impl Model for Procedures {
    ghost use Rattle.std.specs.Coded.{codes};
    ghost use Rattle.op_logic.specs.inner.Code.{term_code};
    ghost use Rattle.op_store.specs.NumberedProcedures.{NumberedProcedures};

    ghost Value = { NumberedProcedures };

    ghost coded = { Prim.hlevel (codes, term_code) };

    ghost view = { λ p. p.by_indicator.entries };
}

impl Procedures {
    /// No procedures.
    pub fn new(alloc: Global) -> Procedures
        ensures { result ≡ [] }
    {
        Procedures {
            alloc,
            by_indicator: IndexMap::new(alloc),
        }
    }

    /// A procedure, in constant time.
    pub fn find(&self, pi: Pi) -> Option<&Procedure>
        ensures { option_copied result ≡ numbered_procedure_in self.now pi }
    {
        self.by_indicator.get(&pi)
    }

    /// Whether a procedure is dynamic; None where there is no such procedure.
    pub fn dynamic(&self, pi: Pi) -> Option<bool>
        ensures { result ≡ option_map (λ p. p.dynamic) (numbered_procedure_in self.now pi) }
    {
        match self.find(pi) {
            Some(procedure) => Some(procedure.dynamic),
            None => None,
        }
    }

    /// Adds a clause at the end of its procedure. A new procedure is static.
    pub fn add(&mut self, pi: Pi, clause: Clause) -> Result<(), Memory>
        ensures ok { OnOk result (self.new
            ≡ with_numbered_procedure self.old pi (extended_numbered (numbered_procedure_in self.old pi) clause)) }
        ensures err { OnErr result (self.new ≡ self.old) }
    {
        if let Some(procedure) = self.by_indicator.get_mut(&pi) {
            return procedure.clauses.push(self.alloc, clause);
        }
        let mut clauses = Snapshot::new(self.alloc)?;
        clauses.push(self.alloc, clause)?;
        self.by_indicator.insert(
            pi,
            Procedure {
                dynamic: false,
                clauses,
            },
        )?;
        Ok(())
    }

    /// Makes a procedure that isn't there, dynamic and without clauses.
    pub fn make_dynamic(&mut self, pi: Pi) -> Result<(), Memory>
        requires { numbered_procedure_in self.old pi ≡ None }
        ensures ok { OnOk result (self.new ≡ with_numbered_procedure self.old pi no_numbered_clauses) }
        ensures err { OnErr result (self.new ≡ self.old) }
    {
        let clauses = Snapshot::new(self.alloc)?;
        self.by_indicator.insert(
            pi,
            Procedure {
                dynamic: true,
                clauses,
            },
        )?;
        Ok(())
    }

    /// Equal procedures, whose clauses are shared. It takes time linear in the number of procedures.
    pub fn copy(&self) -> Result<Procedures, Memory>
        ensures { IfOk result (λ p. p ≡ self.now) }
    {
        let mut by_indicator = IndexMap::new(self.alloc);
        'procedures: for i in 0..self.by_indicator.len() {
            let (pi, procedure) = self.by_indicator.get_index(i).unwrap();
            by_indicator.insert(*pi, procedure.copy()?)?;
        }
        Ok(Procedures {
            alloc: self.alloc,
            by_indicator,
        })
    }

    /// How many procedures there are. None of them stands there twice.
    pub fn len(&self) -> u64
        ensures count { result ≡ length self.now }
        ensures distinct { IsDistinct pi_eq (keys_of self.now) }
    {
        self.by_indicator.len() as u64
    }

    /// Drops the procedures that were seen last, but for so many.
    pub fn truncate(&mut self, count: u64)
        ensures { self.new ≡ take count self.old }
    {
        let count = count.min(self.by_indicator.len() as u64);
        self.by_indicator.truncate(count as usize);
    }

    /// The clauses of all procedures, in time linear in their number.
    pub fn all_clauses(&self) -> Result<Snapshot, Memory>
        ensures { IfOk result (λ s. s ≡ all_numbered_clauses self.now) }
    {
        let mut all = Vec::new(self.alloc);
        'procedures: for i in 0..self.by_indicator.len() {
            let (_, procedure) = self.by_indicator.get_index(i).unwrap();
            procedure.clauses.add_to(&mut all)?;
        }
        Snapshot::of(self.alloc, all)
    }
}
