ghost use Rattle.std.specs.Prelude.{◌≡◌, ◌<◌, length, IfOk, OnOk, pos, codes};
ghost use Rattle.op_logic.specs.Term.{atom, int};
ghost use Rattle.op_logic.specs.Names.{name_at};
ghost use Rattle.op_term.specs.Places.{term_at};
ghost use Rattle.op_bind.specs.Grown.{Grows};
ghost use Rattle.op_bind.specs.State.{bindings as the_bindings};
ghost use Rattle.op_trace.specs.Body.{pair};
ghost use Rattle.op_trace.specs.Builtins.{error_of, instantiation_error, type_error, no_procedure, first_solution, no_solution};
ghost use Rattle.op_machine.specs.Meaning.{goal_now};
ghost use Rattle.op_machine.specs.inner.Invariant.{HasGoal};
ghost use Rattle.op_machine.specs.inner.BuiltinKinds.{body_around};
ghost use Rattle.op_machine.specs.inner.Moves.{Keeps, Makes};

use crate::builtin_kind::Around;
use crate::core_state::Core;
use crate::goal_kind::names_law;
use op_base::Memory;
use op_bind::{Bindings, Ref};
use op_store::names::control::{
    ARROW, ERROR, EXISTENCE_ERROR, FAIL, INSTANTIATION_ERROR, OPIUM, PROCEDURE, SEMICOLON, SLASH,
    TRUE, TYPE_ERROR,
};
use op_term::{Builder, Sym};
use std::alloc::Global;

/// A Ref to an atom.
pub(crate) fn load_atom(alloc: Global, bindings: &mut Bindings, name: Sym) -> Result<Ref, Memory>
    ensures there { IfOk result (λ r. r < length bindings.new.terms) }
    ensures value { IfOk result (λ r. term_at bindings.new.terms r ≡ atom name.0) }
    ensures bound { OnOk result (bindings.new.bound ≡ bindings.old.bound) }
    ensures bindings { OnOk result (the_bindings bindings.new ≡ the_bindings bindings.old) }
    ensures count { OnOk result (bindings.new.count ≡ bindings.old.count) }
    ensures grows { OnOk result (Grows bindings.old bindings.new) }
{
    let mut builder = Builder::new(alloc);
    let root = builder.atom(name)?;
    bindings.load(&builder.finish(root), 0)
}

// A Ref to an integer.
fn load_integer(alloc: Global, bindings: &mut Bindings, number: i64) -> Result<Ref, Memory>
    ensures there { IfOk result (λ r. r < length bindings.new.terms) }
    ensures value { IfOk result (λ r. term_at bindings.new.terms r ≡ int number) }
    ensures bound { OnOk result (bindings.new.bound ≡ bindings.old.bound) }
    ensures bindings { OnOk result (the_bindings bindings.new ≡ the_bindings bindings.old) }
    ensures count { OnOk result (bindings.new.count ≡ bindings.old.count) }
    ensures grows { OnOk result (Grows bindings.old bindings.new) }
{
    let mut builder = Builder::new(alloc);
    let root = builder.int(number)?;
    bindings.load(&builder.finish(root), 0)
}

impl Core {
    // An atom.
    fn make_atom(&mut self, name: Sym) -> Result<Ref, Memory>
        requires { name.0 < length self.old.store.names }
        ensures made { IfOk result (Makes self.old self.new) }
        ensures value { IfOk result (λ r. goal_now self.new r ≡ atom (name_at self.old.store.names name.0)) }
        ensures keeps { Keeps self.old self.new }
    {
        load_atom(self.bindings.alloc(), &mut self.bindings, name)
    }

    // An integer.
    fn make_integer(&mut self, number: i64) -> Result<Ref, Memory>
        ensures made { IfOk result (Makes self.old self.new) }
        ensures value { IfOk result (λ r. goal_now self.new r ≡ int number) }
        ensures keeps { Keeps self.old self.new }
    {
        load_integer(self.bindings.alloc(), &mut self.bindings, number)
    }

    // A compound of two parts.
    fn make_pair(&mut self, name: Sym, first: Ref, second: Ref) -> Result<Ref, Memory>
        requires name { name.0 < length self.old.store.names }
        requires first { HasGoal self.old first }
        requires second { HasGoal self.old second }
        ensures made { IfOk result (Makes self.old self.new) }
        ensures value { IfOk result (λ r. goal_now self.new r
            ≡ pair (name_at self.old.store.names name.0) (goal_now self.old first) (goal_now self.old second)) }
        ensures keeps { Keeps self.old self.new }
    {
        self.bindings.compound(name, &[first, second])
    }

    // The ball of an error (ISO/IEC 13211-1, 7.12.2).
    fn make_error(&mut self, error: Ref) -> Result<Ref, Memory>
        requires { HasGoal self.old error }
        ensures made { IfOk result (Makes self.old self.new) }
        ensures value { IfOk result (λ r. goal_now self.new r ≡ error_of (goal_now self.old error)) }
        ensures keeps { Keeps self.old self.new }
    {
        names_law(&self.store);
        let origin = self.make_atom(OPIUM)?;
        self.make_pair(ERROR, error, origin)
    }

    pub(crate) fn make_instantiation_error(&mut self) -> Result<Ref, Memory>
        ensures made { IfOk result (Makes self.old self.new) }
        ensures value { IfOk result (λ r. goal_now self.new r ≡ instantiation_error) }
        ensures keeps { Keeps self.old self.new }
    {
        names_law(&self.store);
        let error = self.make_atom(INSTANTIATION_ERROR)?;
        self.make_error(error)
    }

    pub(crate) fn make_type_error(&mut self, expected: Sym, culprit: Ref) -> Result<Ref, Memory>
        requires name { expected.0 < length self.old.store.names }
        requires culprit { HasGoal self.old culprit }
        ensures made { IfOk result (Makes self.old self.new) }
        ensures value { IfOk result (λ r. goal_now self.new r
            ≡ type_error (name_at self.old.store.names expected.0) (goal_now self.old culprit)) }
        ensures keeps { Keeps self.old self.new }
    {
        names_law(&self.store);
        let kind = self.make_atom(expected)?;
        let error = self.make_pair(TYPE_ERROR, kind, culprit)?;
        self.make_error(error)
    }

    // The error of a goal that has no procedure, by its name and its number of arguments.
    pub(crate) fn make_existence_error(&mut self, name: Sym, arity: u64) -> Result<Ref, Memory>
        requires { name.0 < length self.old.store.names }
        ensures made { IfOk result (Makes self.old self.new) }
        ensures value { IfOk result (λ r. goal_now self.new r ≡ no_procedure (name_at self.old.store.names name.0) arity) }
        ensures keeps { Keeps self.old self.new }
    {
        names_law(&self.store);
        let indicator = self.make_indicator(name, arity)?;
        let kind = self.make_atom(PROCEDURE)?;
        let error = self.make_pair(EXISTENCE_ERROR, kind, indicator)?;
        self.make_error(error)
    }

    // A predicate indicator.
    fn make_indicator(&mut self, name: Sym, arity: u64) -> Result<Ref, Memory>
        requires name { name.0 < length self.old.store.names }
        ensures made { IfOk result (Makes self.old self.new) }
        ensures value { IfOk result (λ r. goal_now self.new r
            ≡ pair (codes "/") (atom (name_at self.old.store.names name.0)) (int (pos arity))) }
        ensures keeps { Keeps self.old self.new }
    {
        names_law(&self.store);
        let Ok(number) = i64::try_from(arity) else {
            // no memory has so many arguments
            return Err(Memory);
        };
        let name = self.make_atom(name)?;
        let count = self.make_integer(number)?;
        self.make_pair(SLASH, name, count)
    }

    // A body with what stands around it.
    pub(crate) fn make_around(&mut self, around: Around, body: Ref) -> Result<Ref, Memory>
        requires { HasGoal self.old body }
        ensures made { IfOk result (Makes self.old self.new) }
        ensures value { IfOk result (λ r. goal_now self.new r ≡ body_around around (goal_now self.old body)) }
        ensures keeps { Keeps self.old self.new }
    {
        match around {
            Around::Alone => Ok(body),
            Around::FirstSolution => self.make_first_solution(body),
            Around::NoSolution => self.make_no_solution(body),
        }
    }

    fn make_first_solution(&mut self, body: Ref) -> Result<Ref, Memory>
        requires { HasGoal self.old body }
        ensures made { IfOk result (Makes self.old self.new) }
        ensures value { IfOk result (λ r. goal_now self.new r ≡ first_solution (goal_now self.old body)) }
        ensures keeps { Keeps self.old self.new }
    {
        names_law(&self.store);
        let success = self.make_atom(TRUE)?;
        self.make_pair(ARROW, body, success)
    }

    fn make_no_solution(&mut self, body: Ref) -> Result<Ref, Memory>
        requires { HasGoal self.old body }
        ensures made { IfOk result (Makes self.old self.new) }
        ensures value { IfOk result (λ r. goal_now self.new r ≡ no_solution (goal_now self.old body)) }
        ensures keeps { Keeps self.old self.new }
    {
        names_law(&self.store);
        let failure = self.make_atom(FAIL)?;
        let condition = self.make_pair(ARROW, body, failure)?;
        let success = self.make_atom(TRUE)?;
        self.make_pair(SEMICOLON, condition, success)
    }
}
