ghost use Rattle.std.specs.Prelude.{◌≡◌, ◌+◌, ◌-◌, ◌<◌, ◌≤◌, ◌++◌, ℕ, length, map, reverse, OnOk, OnErr, IfOk, None, Some, false};
ghost use Rattle.op_logic.specs.Term.{Term as SpecTerm, occurs, size};
ghost use Rattle.op_logic.specs.Bind.{lookup};
ghost use Rattle.op_logic.specs.Laws.{instance_of, Respects, steps_of};
ghost use Rattle.op_term.specs.Places.{term_at};
ghost use Rattle.op_bind.specs.State.{State, bindings, value_of};
ghost use Rattle.op_bind.specs.inner.Sound.{IsRanked};
ghost use Rattle.op_bind.specs.Grown.{Grows, IsLater};
ghost use Rattle.op_bind.specs.Unified.{unified};
ghost use Rattle.op_bind.specs.inner.Pairs.{reduction_of, reduced, ArePairs, IsBindReduction, zip};

use crate::bindings::Bindings;
use crate::places::{Ref, Unified};
use crate::step::{Step, step_between};
use op_base::Memory;
use op_term::{Fuel, Node, WalkFault};

// The pairs of two lists, the first pair on top.
fn push_pairs(todo: &mut Vec<(u64, u64)>, left: &[u64], right: &[u64]) -> Result<(), Memory>
    requires { length left.now ≡ length right.now }
    ensures ok { OnOk result (reverse todo.new.items ≡ zip left.now right.now ++ reverse todo.old.items) }
{
    let mut n = left.len();
    'down: while n > 0 {
        n -= 1;
        todo.push((left[n], right[n]))?;
    }
    Ok(())
}

impl Bindings {
    // Whether a variable is in a value, at a step for each of its nodes.
    fn weigh(&self, v: u64, r: u64, fuel: &mut Fuel) -> Result<bool, WalkFault>
        requires { r < length self.now.terms }
        ensures found { IfOk result (λ b. b ≡ occurs v (value_of self.now r)) }
        ensures paid { OnOk result (fuel.old ≡ fuel.new + size (value_of self.now r)) }
        ensures spent { result ≡ Err WalkFault.Spent → fuel.old < size (value_of self.now r) }
        ensures falls { fuel.new ≤ fuel.old }
    {
        let mut todo = Vec::new(self.alloc);
        todo.push(r)?;
        let mut found = false;
        'walk: while let Some(next) = todo.pop() {
            fuel.spend(1)?;
            let at = self.follow(next);
            if let Node::Var(w) = self.node_at(at) {
                found = found || v == w;
            } else {
                todo.extend_from_slice(self.nodes.parts(at))?;
            }
        }
        Ok(found)
    }

    // Binds a variable that is unbound, unless it is in the value that it would be bound to.
    fn bind_checked(&mut self, v: u64, r: u64, fuel: &mut Fuel) -> Result<bool, WalkFault>
        requires given_out { v < self.old.count }
        requires there { r < length self.old.terms }
        requires free { lookup (bindings self.old) v ≡ None }
        requires ranked { IsRanked v (term_at self.old.terms r) }
        ensures reduction { IfOk result (λ went. IsBindReduction went self.old self.new v r (1 + (fuel.old - fuel.new))) }
        ensures paid { fuel.new ≤ fuel.old }
        ensures later { IsLater self.old self.new }
        ensures spent { result ≡ Err WalkFault.Spent → fuel.old < size (value_of self.old r) }
    {
        if self.weigh(v, r, fuel)? {
            return Ok(false);
        }
        self.bind(v, r)?;
        Ok(true)
    }

    // One pair, whose terms stand at two nodes: what it leaves goes on top of the other pairs. Whether the two can be equal.
    fn take_pair(
        &mut self,
        a: u64,
        b: u64,
        todo: &mut Vec<(u64, u64)>,
        fuel: &mut Fuel,
    ) -> Result<bool, WalkFault>
        requires a_there { a < length self.old.terms }
        requires b_there { b < length self.old.terms }
        requires todo_there { ArePairs (length self.old.terms) (reverse todo.old.items) }
        ensures reduction { IfOk result (λ went. reduction_of self.old todo.old.items a b
            ≡ reduced went self.new todo.new.items (fuel.old - fuel.new)) }
        ensures paid { fuel.new ≤ fuel.old }
        ensures spent { result ≡ Err WalkFault.Spent → fuel.old < steps_of (reduction_of self.old todo.old.items a b) }
        ensures later { IsLater self.old self.new }
        ensures todo_there { OnOk result (ArePairs (length self.old.terms) (reverse todo.new.items)) }
    {
        let _ = &self.nodes;
        fuel.spend(1)?;
        let x = self.follow(a);
        let y = self.follow(b);
        match step_between(self.node_at(x), self.node_at(y), x, y) {
            Step::Same => return Ok(true),
            Step::Clash => return Ok(false),
            Step::Bind(v, r) => return self.bind_checked(v, r, fuel),
            Step::Parts => {
                push_pairs(todo, self.nodes.parts(x), self.nodes.parts(y))?;
                return Ok(true);
            }
        }
    }

    /// Makes two terms equal by binding variables, with the occurs check, or tells that nothing can. It takes a step for each
    /// pair of nodes, and for each variable that is to be bound the size of the value. After No or a fault the bindings that
    /// were made stay, until the caller undoes them.
    pub fn unify(&mut self, a: &Ref, b: &Ref, fuel: &mut Fuel) -> Result<Unified, WalkFault>
        requires a_there { a.now < length self.old.terms }
        requires b_there { b.now < length self.old.terms }
        ensures yes { result ≡ Ok Unified.Yes → unified fuel.old self.old (term_at self.old.terms a.now) (term_at self.old.terms b.now)
            ≡ Some (Some (bindings self.new), fuel.new) }
        ensures no { result ≡ Ok Unified.No → unified fuel.old self.old (term_at self.old.terms a.now) (term_at self.old.terms b.now)
            ≡ Some (None, fuel.new) }
        ensures spent { result ≡ Err WalkFault.Spent
            → unified fuel.old self.old (term_at self.old.terms a.now) (term_at self.old.terms b.now) ≡ None }
        ensures later { IsLater self.old self.new }
        ensures falls { fuel.new ≤ fuel.old }
        ensures grows { Grows self.old self.new }

        // What that means: equal values, or none that anything makes equal.
        ensures equal { result ≡ Ok Unified.Yes → value_of self.new a.now ≡ value_of self.new b.now }
        ensures none { result ≡ Ok Unified.No → (θ : ℕ → SpecTerm ℕ) → Respects θ (bindings self.old)
            → instance_of θ (term_at self.old.terms a.now) ≡ instance_of θ (term_at self.old.terms b.now) → ⊥ }
    {
        let mut todo = Vec::new(self.alloc);
        todo.push((a.at, b.at))?;
        'pairs: while let Some((x, y)) = todo.pop() {
            if !self.take_pair(x, y, &mut todo, fuel)? {
                return Ok(Unified::No);
            }
        }
        Ok(Unified::Yes)
    }
}
