//! Laws that a machine's users rest on, each as the contract of a function that does nothing.

ghost use Rattle.std.specs.Prelude.{◌≡◌, ℕ, List};
ghost use Rattle.op_trace.specs.declared.barrier.Barrier.{Barrier};
ghost use Rattle.op_trace.specs.World.{World};
ghost use Rattle.op_trace.specs.Act.{Setup};
ghost use Rattle.op_machine.specs.Acts.{act_of_program};
ghost use Rattle.op_trace.specs.Visit.{CutTo, Failed, Choice};
ghost use Rattle.op_trace.specs.Outside.{Taking, follow, and_then};
ghost use Rattle.op_inspect.specs.ActRules.{KeepsActRules};
ghost use Rattle.op_machine.specs.Resume.{keep, resume};

pub use op_readback::laws::read_back;

/// What choice points owe after a cut to a barrier is what the choice points that the cut keeps owe after a failure.
pub fn cut_owes()
    ensures { (s : Setup) (K : List Choice) (m : Barrier) (w : World) → resume s K (CutTo m) w ≡ resume s (keep m K) Failed w }
{}

/// Two takings, one after the other, were taken from what the source had before the first.
pub fn takings_join()
    ensures { (t u : Taking) (rest : List ℕ) → follow (and_then t u) rest ≡ follow t (follow u rest) }
{}

/// The acts of a program only bind, and what an act does is the same for all numbers of steps left that cover it.
pub fn acts_of_program()
    ensures { KeepsActRules act_of_program }
{}
