ghost use Rattle.std.specs.Prelude.{◌≡◌, IfOk};

use crate::procedures::snapshot::Snapshot;
use op_base::Memory;

/// A procedure: whether the program may change it, and its clauses.
#[derive(Drop)]
pub(crate) struct Procedure {
    pub dynamic: bool,
    pub clauses: Snapshot,
}

impl Procedure {
    /// An equal procedure, whose clauses are shared.
    pub fn copy(&self) -> Result<Procedure, Memory>
        ensures { IfOk result (λ p. p ≡ self.now) }
    {
        Ok(Procedure {
            dynamic: self.dynamic,
            clauses: self.clauses.copy()?,
        })
    }
}
