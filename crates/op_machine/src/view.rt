ghost use Rattle.std.specs.Prelude.{◌≡◌, ◌<◌, length, take, slice_index_or, []};
ghost use Rattle.op_logic.specs.Term.{var};
ghost use Rattle.op_logic.specs.Names.{HasNames, HaveNames};
ghost use Rattle.op_term.specs.Places.{term_at};
ghost use Rattle.op_bind.specs.State.{value_of, resolved};
ghost use Rattle.op_machine.specs.inner.Invariant.{AreValues};

use op_bind::{Bindings, Ref};
use op_reader::Names;
use op_term::Symbols;
use std::marker::Model;

/// A solution, as the machine lends it until its next turn.
#[derive(Drop)]
pub struct SolutionView<'m> {
    names: &'m Names,
    values: &'m [Ref],
    bindings: &'m Bindings,
    symbols: &'m Symbols,
}

impl<'m> Model for SolutionView<'m> {
    ghost use Rattle.std.specs.Coded.{codes};
    ghost use Rattle.op_logic.specs.inner.Code.{term_code};
    ghost use Rattle.op_machine.specs.View.{Solving, IsSolving};

    ghost Value = { Solving };

    ghost coded = { Prim.hlevel (codes, term_code) };

    ghost view = { λ v. record { variables = v.names.now; values = v.values.now; state = v.bindings.now; names = v.symbols.now } };

    ghost invariant = { λ v.
        IsSolving (record { variables = v.names.now; values = v.values.now; state = v.bindings.now; names = v.symbols.now }) };
}

impl<'m> SolutionView<'m> {
    pub(crate) fn new(
        names: &'m Names,
        values: &'m [Ref],
        bindings: &'m Bindings,
        symbols: &'m Symbols,
    ) -> SolutionView<'m>
        requires known { AreValues bindings.now.terms values.now names.now }
        requires bound { HaveNames (length symbols.now) (resolved bindings.now.terms bindings.now.bound) }
        ensures { result ≡ record { variables = names.now; values = values.now; state = bindings.now; names = symbols.now } }
    {
        SolutionView {
            names,
            values,
            bindings,
            symbols,
        }
    }

    /// The goal's variables that have names, in order of first occurrence.
    pub fn names(&self) -> &'m Names
        ensures { result.now ≡ self.now.variables }
    {
        self.names
    }

    /// The variable of a name, by its place from 0.
    pub fn value(&self, i: u64) -> Ref
        requires { i < length self.now.variables }
        ensures variable { term_at self.now.state.terms result ≡ var (slice_index_or self.now.variables i ([], 0)).1 }
        ensures there { result < length self.now.state.terms }
        ensures names { HasNames (length self.now.names) (value_of self.now.state result) }
    {
        let _ = &self.names;
        ref_at(self.values, i as usize)
    }

    /// The bindings of this moment.
    pub fn bindings(&self) -> &'m Bindings
        ensures { result.now ≡ self.now.state }
    {
        self.bindings
    }

    /// The names of the run.
    pub fn symbols(&self) -> &'m Symbols
        ensures { result.now ≡ self.now.names }
    {
        self.symbols
    }
}

fn ref_at(values: &[Ref], i: usize) -> Ref
    requires { i < length values.now }
    ensures { result ≡ slice_index_or values.now i result }
{
    values[i]
}
