ghost use Rattle.std.specs.Prelude.{◌≡◌, IfOk};

use op_base::Memory;
use op_term::Term;
use std::marker::Model;

/// A term inside the bindings. No later call changes it; its value is that term with the present bindings.
/// The default one stands where a small vector keeps no term yet, and is a term of no bindings.
#[derive(Clone, Copy, Default)]
pub struct Ref {
    pub(crate) at: u64,
}

impl Model for Ref {
    ghost use Rattle.std.specs.Prelude.{ℕ};

    ghost Value = { ℕ };

    ghost view = { λ r. r.at };

    ghost inverse = { λ n. record { at = n } };
}

/// A state to return to.
#[derive(Clone, Copy)]
pub struct Mark {
    pub(crate) terms: u64,
    pub(crate) bound: usize,
}

impl Model for Mark {
    ghost use Rattle.op_bind.specs.State.{Marked, marked_code};

    ghost Value = { Marked };

    ghost coded = { marked_code };

    ghost view = { λ m. record { terms = m.terms; bound = m.bound } };

    ghost inverse = { λ m. record { terms = m.terms; bound = m.bound } };
}

/// Whether two terms have a unifier.
#[derive(Clone, Copy, Debug, PartialEq, Eq)]
pub enum Unified {
    Yes,
    No,
}

/// A clause of a program: its number, its head and body, and how many variables they have, numbered from 0.
#[derive(Drop)]
pub struct Clause {
    pub id: u64,
    pub head: Term,
    pub body: Term,
    pub vars: u64,
}

impl Clause {
    /// An equal clause.
    pub fn copy(&self) -> Result<Clause, Memory>
        ensures { IfOk result (λ c. c ≡ self.now) }
    {
        Ok(Clause {
            id: self.id,
            head: self.head.copy()?,
            body: self.body.copy()?,
            vars: self.vars,
        })
    }
}
