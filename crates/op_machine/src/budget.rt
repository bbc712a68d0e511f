ghost use Rattle.std.specs.Prelude.{◌≡◌, ◌+◌, ◌<◌, ◌≤◌};
ghost use Rattle.std.specs.Bool.{OnTrue, OnFalse};
ghost use Rattle.op_machine.specs.declared.core_state.Mode.TheVariants as mode;
ghost use Rattle.op_machine.specs.declared.core_state.Outcome.TheVariants as outcome;

use crate::core_state::{Core, Mode, Outcome};

impl Core {
    // One step, where it is there; else the run is spent.
    pub(crate) fn spend(&mut self) -> bool
        requires { self.old.steps ≤ self.old.budget }
        ensures paid { OnTrue result (self.new ≡ record self.old { steps = self.old.steps + 1 }) }
        ensures fits { OnTrue result (self.old.steps + 1 ≤ self.old.budget) }
        ensures spent { OnFalse result (self.new ≡ record self.old { steps = self.old.budget; mode = mode.Over outcome.Spent }) }
        ensures over { OnFalse result (self.old.budget < self.old.steps + 1) }
    {
        if self.steps < self.budget {
            self.steps += 1;
            true
        } else {
            self.run_out();
            false
        }
    }

    // The budget is spent.
    pub(crate) fn run_out(&mut self)
        ensures { self.new ≡ record self.old { steps = self.old.budget; mode = mode.Over outcome.Spent } }
    {
        self.steps = self.budget;
        self.mode = Mode::Over {
            outcome: Outcome::Spent,
        };
    }
}
