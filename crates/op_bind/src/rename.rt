ghost use Rattle.std.specs.Prelude.{◌≡◌, ◌+◌, ◌<◌, ◌≤◌, ℕ, length, Ok, None, Some, IfOk, IfSome, OnErr};
ghost use Rattle.op_logic.specs.Term.{IsWithin, shift};
ghost use Rattle.op_term.specs.Places.{term_at};
ghost use Rattle.op_bind.specs.State.{State, bindings};
ghost use Rattle.op_bind.specs.Within.{AllWithin};
ghost use Rattle.op_bind.specs.inner.Sound.{AreBound};
ghost use Rattle.op_bind.specs.Grown.{Grows};
ghost use Rattle.op_bind.specs.Unified.{unified, with_variables};

use crate::bindings::Bindings;
use crate::places::{Clause, Ref, Unified};
use op_term::{Fuel, WalkFault};

impl Bindings {
    /// Matches a goal with a clause's head, whose variables are numbered from the present count on, and gives the body. It
    /// takes the unification's steps, and one for each variable where the two match. Where they don't, None, no number is
    /// given out and all is as before; so it is too where the steps are spent or memory is wanting, but for the fuel.
    pub fn rename(
        &mut self,
        clause: &Clause,
        goal: &Ref,
        fuel: &mut Fuel,
    ) -> Result<Option<Ref>, WalkFault>
        requires there { goal.now < length self.old.terms }
        requires head { IsWithin clause.now.vars clause.now.head }
        requires body { IsWithin clause.now.vars clause.now.body }
        ensures yes { IfOk result (λ o. IfSome o (λ _. with_variables clause.now.vars
            (unified fuel.old self.old (term_at self.old.terms goal.now) (shift self.old.count clause.now.head))
            ≡ Some (Some (bindings self.new), fuel.new))) }
        ensures no { result ≡ Ok None → with_variables clause.now.vars
            (unified fuel.old self.old (term_at self.old.terms goal.now) (shift self.old.count clause.now.head))
            ≡ Some (None, fuel.new) }
        ensures spent { result ≡ Err WalkFault.Spent → with_variables clause.now.vars
            (unified fuel.old self.old (term_at self.old.terms goal.now) (shift self.old.count clause.now.head))
            ≡ None }
        ensures place { IfOk result (λ o. IfSome o (λ r. r < length self.new.terms)) }
        ensures value { IfOk result (λ o. IfSome o (λ r. term_at self.new.terms r ≡ shift self.old.count clause.now.body)) }
        ensures count { IfOk result (λ o. IfSome o (λ _. self.new.count ≡ self.old.count + clause.now.vars)) }
        ensures kept { result ≡ Ok None → self.new ≡ self.old }
        ensures still { OnErr result (self.new ≡ self.old) }
        ensures falls { fuel.new ≤ fuel.old }
        ensures grows { Grows self.old self.new }
    {
        let mark = self.mark();
        let first = self.variable_count();
        let matched = self.match_clause(clause, goal, fuel);
        if matched.is_err() {
            self.undo_to(mark);
            self.give_back(first);
        }
        matched
    }

    // How many numbers were given out: no term and no binding has another.
    pub(crate) fn variable_count(&self) -> u64
        ensures count { result ≡ self.now.count }
        ensures terms { AllWithin result self.now.terms }
        ensures bound { AreBound result self.now.terms self.now.bound }
    {
        self.table.len() as u64
    }

    // Matches a goal with a clause's head and gives the body. Where steps are spent, what was bound and given out is left open.
    fn match_clause(
        &mut self,
        clause: &Clause,
        goal: &Ref,
        fuel: &mut Fuel,
    ) -> Result<Option<Ref>, WalkFault>
        requires there { goal.now < length self.old.terms }
        requires head { IsWithin clause.now.vars clause.now.head }
        requires body { IsWithin clause.now.vars clause.now.body }
        ensures yes { IfOk result (λ o. IfSome o (λ _. with_variables clause.now.vars
            (unified fuel.old self.old (term_at self.old.terms goal.now) (shift self.old.count clause.now.head))
            ≡ Some (Some (bindings self.new), fuel.new))) }
        ensures no { result ≡ Ok None → with_variables clause.now.vars
            (unified fuel.old self.old (term_at self.old.terms goal.now) (shift self.old.count clause.now.head))
            ≡ Some (None, fuel.new) }
        ensures spent { result ≡ Err WalkFault.Spent → with_variables clause.now.vars
            (unified fuel.old self.old (term_at self.old.terms goal.now) (shift self.old.count clause.now.head))
            ≡ None }
        ensures place { IfOk result (λ o. IfSome o (λ r. r < length self.new.terms)) }
        ensures value { IfOk result (λ o. IfSome o (λ r. term_at self.new.terms r ≡ shift self.old.count clause.now.body)) }
        ensures count { IfOk result (λ o. IfSome o (λ _. self.new.count ≡ self.old.count + clause.now.vars)) }
        ensures kept { result ≡ Ok None → self.new ≡ self.old }
        ensures falls { fuel.new ≤ fuel.old }
        ensures grows { Grows self.old self.new }
    {
        let _ = &self.nodes;
        let mark = self.mark();
        let first = self.fresh(clause.vars)?;
        let head = self.load(&clause.head, first)?;
        match self.unify(goal, &head, fuel)? {
            Unified::Yes => {
                fuel.spend(clause.vars)?;
                let body = self.load(&clause.body, first)?;
                return Ok(Some(body));
            }
            Unified::No => {
                self.undo_to(mark);
                self.give_back(first);
                return Ok(None);
            }
        }
    }

    // Takes numbers back that no term and no binding has.
    pub(crate) fn give_back(&mut self, n: u64)
        requires enough { n ≤ self.old.count }
        requires terms { AllWithin n self.old.terms }
        requires bound { AreBound n self.old.terms self.old.bound }
        ensures { self.new ≡ record self.old { count = n } }
    {
        self.table.truncate(n as usize);
    }
}
