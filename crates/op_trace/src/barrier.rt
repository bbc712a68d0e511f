ghost use Rattle.std.specs.Prelude.{◌≡◌};
ghost use Rattle.op_trace.specs.World.{same_barrier};

/// Where a cut cuts to (ISO/IEC 13211-1, 7.8.4).
#[derive(Clone, Copy, Debug, PartialEq, Eq)]
pub enum Barrier {
    /// The call of the box with this number.
    Call(u64),
    /// The beginning of the condition with this number, for a cut inside it.
    InCondition(u64),
    /// The time before the condition with this number, for the cut that its success makes (7.8.8).
    AtSuccess(u64),
}

impl Barrier {
    /// Whether two barriers are one.
    pub fn is(self, other: Barrier) -> bool
        ensures { result ≡ same_barrier self other }
    {
        match (self, other) {
            (Barrier::Call(a), Barrier::Call(b)) => a == b,
            (Barrier::InCondition(a), Barrier::InCondition(b)) => a == b,
            (Barrier::AtSuccess(a), Barrier::AtSuccess(b)) => a == b,
            _ => false,
        }
    }
}
