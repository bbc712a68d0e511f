ghost use Rattle.std.specs.Prelude.{◌≡◌, true, false, IfOk, OnOk, OnErr, IfErr, IfSome, IsErrOf, is_some, option_copied};
ghost use Rattle.op_desk.specs.declared.chan.Chan.{Chan};
ghost use Rattle.op_event.specs.View.{event_in};
ghost use Rattle.op_machine.specs.Machine.{event_now};
ghost use Rattle.op_retrace.specs.Fed.{Fed, IsSound, Advances, Breaks, Ends, IsReset, IsBrokenReset, IsResetFault, shows_event};
ghost use Rattle.op_retrace.specs.Fed.{input_limit, AsksTooMuch};
ghost use Rattle.op_retrace.specs.Sight.{sight, Apart, Counts};

use crate::fault::FeedFault;
use op_base::Steps;
use op_desk::Desk;
use op_event::EventView;
use op_machine::{Ending, Machine};
use op_term::Ops;
use std::sync::ledger::Ledger;

/// Where an advance has come to.
#[derive(Clone, Copy, Debug, PartialEq, Eq)]
pub enum FeedStep {
    /// The next event.
    Event,
    /// The end.
    End,
}

/// The events of a run in order, from a machine that stands at each. After `reset` the same ones come again. The run, and how far it was
/// looked at, are known where the desk tells what its Input has left; the place is known whatever it tells.
pub trait Feed {
    /// What the feed stands for.
    ghost fed: { Self → Fed };

    /// Goes to place 0. The run, the furthest place and the ending stay.
    fn reset(&mut self) -> Result<(), FeedFault>
        ensures resets { OnOk result (IsReset (fed self.old) (fed self.new)) }
        ensures broken { OnErr result (IsBrokenReset (fed self.old) (fed self.new)) }
        ensures faults { IfErr result IsResetFault }
        ensures ends { Ends result (fed self.old) (fed self.new) };

    /// Goes to the next event, or to the end. Of the desk it takes what the run asks for of its Input and puts the run's output on its
    /// Output, each once, up to the furthest place. The ledger rises by the steps that a machine makes; after a fault not by those of its
    /// last call.
    fn advance<D: Desk, L: Ledger>(
        &mut self,
        desk: &mut D,
        steps: &mut Steps<L>,
    ) -> Result<FeedStep, FeedFault>
        ensures advances { IfOk result (λ s. Advances s (fed self.old) (fed self.new)
            (D.left desk.old Chan.Input) (D.left desk.new Chan.Input)
            (D.written desk.old Chan.Output) (D.written desk.new Chan.Output) steps.old steps.new) }
        ensures breaks { OnErr result (is_some (fed self.old).fault ≡ false → Breaks (fed self.old) (fed self.new)
            (D.left desk.old Chan.Input) (D.left desk.new Chan.Input)
            (D.written desk.old Chan.Output) (D.written desk.new Chan.Output) steps.old steps.new) }
        ensures unasked { is_some (fed self.old).fault ≡ true → (desk.new ≡ desk.old) × (steps.new ≡ steps.old) }
        ensures too_long { IsErrOf result FeedFault.InputTooLong
            → ((fed self.new).drawn ≡ input_limit) × ((fed self.new).ended ≡ false) }
        ensures asked { IsErrOf result FeedFault.InputTooLong → AsksTooMuch (fed self.old) (fed self.new) }
        ensures apart { Apart (sight D.Desk desk.old) (sight D.Desk desk.new) }
        ensures counts { Counts (sight D.Desk desk.old) (sight D.Desk desk.new) result }
        ensures ends { Ends result (fed self.old) (fed self.new) };

    /// The event at the place; None at place 0, at the end and once a fault was answered.
    fn event(&self) -> Option<EventView<'_>>
        ensures there { is_some result ≡ shows_event (fed self.now) }
        ensures event { IfSome result (λ v. event_in v ≡ event_now (fed self.now).machine) }
        ensures bindings { IfSome result (λ v. v.state ≡ (fed self.now).machine.bindings) }
        ensures symbols { IfSome result (λ v. v.names ≡ (fed self.now).machine.tables.names) };

    /// The place: how many events were given since the start, or one more than all at the end.
    fn place(&self) -> u64
        ensures place { result ≡ (fed self.now).place }
        ensures sound { IsSound (fed self.now) };

    /// The furthest place at which the feed has stood.
    fn furthest(&self) -> u64
        ensures { result ≡ (fed self.now).furthest };

    /// How the run ended; None where its end was never reached. The names of a ball are those of the machine that stands at the end.
    fn ending(&self) -> Option<&Ending>
        ensures { option_copied result ≡ (fed self.now).ending };

    /// The operators as loading left them.
    fn ops(&self) -> &Ops
        ensures { result.now ≡ (fed self.now).loaded.table };

    /// The machine that stands at the place.
    fn machine(&self) -> &Machine
        ensures { result.now ≡ (fed self.now).machine };
}
