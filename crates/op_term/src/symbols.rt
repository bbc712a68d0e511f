ghost use Rattle.std.specs.Prelude.{◌≡◌, ℕ, ◌<◌, List, [], length, take, OnOk, OnErr, IfOk, All, IsUtf8, bytes_eq, option_map};
ghost use Rattle.std.specs.List.{position, list_any};
ghost use Rattle.std.specs.Option.{is_some};
ghost use Rattle.op_logic.specs.Names.{name_at, with_name, IsTable};

use indexmap::IndexSet;
use op_base::Memory;
use std::alloc::Global;
use std::marker::Model;

/// A name, by its number in a table of names.
#[derive(Clone, Copy, Debug, PartialEq, Eq, Hash)]
pub struct Sym(pub u64);

/// The names of a program, each once, numbered from 0 in order of first sight. A clause sees the list of their texts.
#[derive(Drop)]
pub struct Symbols {
    alloc: Global,
    names: IndexSet<String>,
}

impl Model for Symbols {
    ghost use Rattle.std.specs.Prelude.{List, ℕ, map, string_bytes};
    ghost use Rattle.op_logic.specs.Names.{IsTable};

    ghost Value = { List (List ℕ) };

    ghost view = { λ s. map (λ k. string_bytes k) s.names.keys };

    ghost invariant = { λ s. IsTable (map (λ k. string_bytes k) s.names.keys) };
}

impl Symbols {
    /// No names.
    pub fn new(alloc: Global) -> Symbols
        ensures { result ≡ [] }
    {
        Symbols {
            alloc,
            names: IndexSet::new(alloc),
        }
    }

    /// How many names there are.
    pub fn count(&self) -> u64
        ensures count { result ≡ length self.now }
        ensures table { IsTable self.now }
        ensures texts { All IsUtf8 self.now }
    {
        self.names.len() as u64
    }

    /// The name's number: its own, or a new one where the name is new.
    pub fn intern(&mut self, name: &str) -> Result<Sym, Memory>
        ensures within { IfOk result (λ s. s.0 < length self.new) }
        ensures named { IfOk result (λ s. name_at self.new s.0 ≡ name.now) }
        ensures kept { take (length self.old) self.new ≡ self.old }
        ensures exact { OnOk result (self.new ≡ with_name self.old name.now) }
        ensures table { IsTable self.new }
        ensures err { OnErr result (self.new ≡ self.old) }
    {
        if let Some(at) = self.names.get_index_of(name) {
            return Ok(Sym(at as u64));
        }
        let owned = String::from_str(self.alloc, name)?;
        let (at, _) = self.names.insert_full(owned)?;
        Ok(Sym(at as u64))
    }

    /// The number of a name; None where the name isn't there.
    pub fn find(&self, name: &str) -> Option<Sym>
        ensures index { option_map (λ s. s.0) result ≡ position (bytes_eq name.now) self.now }
        ensures found { is_some result ≡ list_any (bytes_eq name.now) self.now }
    {
        match self.names.get_index_of(name) {
            Some(at) => Some(Sym(at as u64)),
            None => None,
        }
    }

    /// The text of a name.
    pub fn name_of(&self, sym: Sym) -> &str
        requires { sym.0 < length self.now }
        ensures { result.now ≡ name_at self.now sym.0 }
    {
        self.names.get_index(sym.0 as usize).unwrap().as_str()
    }

    /// The same names under the same numbers.
    pub fn copy(&self) -> Result<Symbols, Memory>
        ensures { IfOk result (λ t. t ≡ self.now) }
    {
        Ok(Symbols {
            alloc: self.alloc,
            names: self.names.clone()?,
        })
    }
}
