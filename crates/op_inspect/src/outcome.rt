ghost use Rattle.std.specs.Prelude.{◌≡◌};
ghost use Rattle.op_inspect.specs.Outcomes.{outcome_of};

use op_term::Term;

/// How a builtin on terms answers.
#[derive(Drop)]
pub enum Outcome {
    /// It succeeds, with the bindings that were made.
    Yes,
    /// It fails. Bindings that were made stay until they are undone.
    No,
    /// It throws this ball, whose variables are new ones of the bindings.
    Throw(Term),
}

/// What a test answers.
pub(crate) fn decided(holds: bool) -> Outcome
    ensures { result ≡ outcome_of holds }
{
    if holds { Outcome::Yes } else { Outcome::No }
}
