ghost use Rattle.std.specs.Prelude.{◌≡◌, ◌+◌, ◌<◌, ◌≤◌, length, Err, IfOk, OnOk};
ghost use Rattle.op_logic.specs.Term.{size};
ghost use Rattle.op_bind.specs.State.{value_of};

use crate::bindings::Bindings;
use crate::copy::{build, nodes_within};
use crate::places::Ref;
use op_term::{Builder, Fuel, Term, WalkFault};

impl Bindings {
    /// The value of a Ref, as a term of its own, at a step for each of its nodes.
    pub fn resolve(&self, r: &Ref, fuel: &mut Fuel) -> Result<Term, WalkFault>
        requires { r.now < length self.now.terms }
        ensures value { IfOk result (λ t. t ≡ value_of self.now r.now) }
        ensures paid { OnOk result (fuel.old ≡ fuel.new + size (value_of self.now r.now)) }
        ensures spent { result ≡ Err WalkFault.Spent → fuel.old < size (value_of self.now r.now) }
        ensures empty { result ≡ Err WalkFault.Spent → fuel.new ≡ 0 }
        ensures falls { fuel.new ≤ fuel.old }
    {
        let nodes = nodes_within(self.alloc, self, r, fuel)?;
        let mut made = Builder::new(self.alloc);
        let root = build(self.alloc, nodes, &mut made)?;
        Ok(made.finish(root))
    }
}
