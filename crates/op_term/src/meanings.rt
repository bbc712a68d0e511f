ghost use Rattle.std.specs.Prelude.{◌≡◌, [], OnOk, OnErr, IfOk};
ghost use Rattle.op_term.specs.Ops.{meanings_in, with_meanings, with_op, meaning_of as the_meaning};

use crate::ops::{Meaning, Meanings, OpKind};
use indexmap::IndexMap;
use op_base::Memory;
use std::alloc::Global;
use std::marker::Model;

/// Names, each with what it means as an operator. A clause sees the list of both.
#[derive(Drop)]
pub(crate) struct MeaningMap {
    alloc: Global,
    names: IndexMap<String, Meanings>,
}

impl Model for MeaningMap {
    ghost use Rattle.std.specs.Prelude.{List, ℕ, map, string_bytes};
    ghost use Rattle.op_term.specs.Ops.{Table};

    ghost Value = { Table };

    ghost view = { λ s. map (λ e. (string_bytes e.0, e.1)) s.names.entries };
}

impl MeaningMap {
    /// No names.
    pub fn new(alloc: Global) -> MeaningMap
        ensures { result ≡ [] }
    {
        MeaningMap {
            alloc,
            names: IndexMap::new(alloc),
        }
    }

    /// What a name means.
    pub fn at(&self, name: &str) -> Meanings
        ensures { result ≡ meanings_in self.now name.now }
    {
        match self.names.get(name) {
            Some(meanings) => *meanings,
            None => Meanings {
                as_prefix: None,
                as_infix: None,
                as_postfix: None,
            },
        }
    }

    /// Gives a name these meanings.
    pub fn put(&mut self, name: &str, meanings: Meanings) -> Result<(), Memory>
        ensures ok { OnOk result (self.new ≡ with_meanings self.old name.now meanings) }
        ensures err { OnErr result (self.new ≡ self.old) }
    {
        let owned = String::from_str(self.alloc, name)?;
        self.names.insert(owned, meanings)?;
        Ok(())
    }

    /// Makes a name an operator, without a test. Priority 0 removes the operator of that class.
    pub fn set(&mut self, priority: u32, kind: OpKind, name: &str) -> Result<(), Memory>
        ensures ok { OnOk result (self.new ≡ with_op self.old priority kind name.now) }
        ensures err { OnErr result (self.new ≡ self.old) }
    {
        let meanings = self.at(name);
        self.put(name, meanings.changed(kind, meaning_of(priority, kind)))
    }

    /// An equal table.
    pub fn copy(&self) -> Result<MeaningMap, Memory>
        ensures { IfOk result (λ t. t ≡ self.now) }
    {
        Ok(MeaningMap {
            alloc: self.alloc,
            names: self.names.clone()?,
        })
    }
}

fn meaning_of(priority: u32, kind: OpKind) -> Option<Meaning>
    ensures { result ≡ the_meaning priority kind }
{
    if priority == 0 {
        None
    } else {
        Some(Meaning { priority, kind })
    }
}
