ghost use Rattle.std.specs.Prelude.{◌≡◌, ◌++◌, ℕ, List, [], refl};
ghost use Rattle.op_trace.specs.Outside.{Beyond, Taking, nothing, and_then, no_outside};
ghost use Rattle.op_machine.specs.Host.{IsNothing, joins_nothing};

/// What lies outside a traced program. The builtins of control ask nothing of it.
pub trait Host {
    /// What lies outside, by the bytes that the source of its input still has.
    ghost outside: { Self → Beyond };

    /// The second comes from the first by taking this and by writing these bytes; a host says what it means by that.
    ghost went: { Self → Self → Taking → List ℕ → Type 0 };

    /// Where nothing is done, nothing is taken and nothing is written.
    ghost stays: { (a : Self) → went a a nothing [] };

    /// What is done in two parts is taken and written one after the other.
    ghost joins: { (a b c : Self) (t u : Taking) (x y : List ℕ)
        → went a b t x → went b c u y → went a c (and_then t u) (x ++ y) };
}

/// The host of a program outside of which nothing lies.
#[derive(Drop)]
pub struct Nothing;

impl Host for Nothing {
    ghost outside = { λ host rest. no_outside };

    ghost went = { λ old new. IsNothing };

    ghost stays = { λ a. (refl, refl) };

    ghost joins = { λ a b c. joins_nothing };
}
