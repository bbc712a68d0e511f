ghost use Rattle.std.specs.Prelude.{◌≡◌, ℕ, ◌<◌, List, [], ◌∷◌, ◌++◌, length, None, IfOk, OnOk, OnErr, slice_index_or};
ghost use Rattle.op_reader.specs.Names.{number_of};

use op_base::Memory;
use op_term::{Sym, Symbols};
use std::alloc::Global;
use std::marker::Model;

/// The named variables of a term, each with its number, in order of first occurrence. A clause sees the list of
/// their names with their numbers.
#[derive(Drop)]
pub struct Names {
    names: Symbols,
    numbers: Vec<u64>,
}

impl Model for Names {
    ghost use Rattle.std.specs.Prelude.{List, ℕ};

    ghost Value = { List (List ℕ × ℕ) };

    ghost use Rattle.op_reader.specs.Names.{numbered};

    ghost view = { λ n. numbered n.names n.numbers.items };

    ghost use Rattle.std.specs.Prelude.{◌≡◌, length};

    ghost invariant = { λ n. length n.names ≡ length n.numbers.items };
}

impl Names {
    /// No names.
    pub fn new(alloc: Global) -> Names
        ensures { result ≡ [] }
    {
        Names {
            names: Symbols::new(alloc),
            numbers: Vec::new(alloc),
        }
    }

    /// How many names there are.
    pub fn len(&self) -> u64
        ensures { result ≡ length self.now }
    {
        self.numbers.len() as u64
    }

    /// The name at a place.
    pub fn name(&self, i: u64) -> &str
        requires { i < length self.now }
        ensures { result.now ≡ (slice_index_or self.now i ([], 0)).0 }
    {
        self.names.name_of(Sym(i))
    }

    /// The number of the variable at a place.
    pub fn var(&self, i: u64) -> u64
        requires { i < length self.now }
        ensures { result ≡ (slice_index_or self.now i ([], 0)).1 }
    {
        self.numbers[i as usize]
    }

    /// The number of the variable with this name.
    pub fn find(&self, name: &str) -> Option<u64>
        ensures { result ≡ number_of name.now self.now }
    {
        match self.names.find(name) {
            Some(at) => Some(self.numbers[at.0 as usize]),
            None => None,
        }
    }

    /// Puts a name that isn't there behind the others.
    pub fn push(&mut self, name: &str, var: u64) -> Result<(), Memory>
        requires { number_of name.now self.old ≡ None }
        ensures ok { OnOk result (self.new ≡ self.old ++ (name.now, var) ∷ []) }
        ensures err { OnErr result (self.new ≡ self.old) }
    {
        self.numbers.push(var)?;
        match self.names.intern(name) {
            Ok(_) => Ok(()),
            Err(e) => {
                self.numbers.pop();
                Err(e)
            }
        }
    }

    /// The same names with the same numbers.
    pub fn copy(&self) -> Result<Names, Memory>
        ensures { IfOk result (λ n. n ≡ self.now) }
    {
        Ok(Names {
            names: self.names.copy()?,
            numbers: self.numbers.clone()?,
        })
    }
}
