ghost use Rattle.std.specs.Prelude.{◌≡◌, ℕ, List, length, take};

use op_term::Symbols;

/// What is done with the names of a store while they are lent.
pub trait Borrower {
    /// What it answers.
    type Out;

    /// The names that it can be given.
    ghost wants: { Self → List (List ℕ) → Type 0 };

    /// What it makes of the names, and its answer.
    ghost makes: { Self → List (List ℕ) → List (List ℕ) → Self.Out → Type 0 };

    /// Names may join the names, and those that are there keep their numbers.
    fn borrow(self, symbols: &mut Symbols) -> Self::Out
        requires { wants self symbols.old }
        ensures makes { makes self symbols.old symbols.new result }
        ensures names { take (length symbols.old) symbols.new ≡ symbols.old };
}
