//! Laws of Refs and marks, each as the contract of a function that does nothing.

ghost use Rattle.std.specs.Prelude.{◌≡◌, ◌<◌, ℕ, length};
ghost use Rattle.op_term.specs.Places.{term_at};
ghost use Rattle.op_bind.specs.State.{State, Marked, mark_of, undone, IsGoodMark};
ghost use Rattle.op_bind.specs.Grown.{Grows};

/// Two growths, one after the other, are one.
pub fn growth_joins()
    ensures { (a b c : State) → Grows a b → Grows b c → Grows a c }
{}

/// No later call changes a Ref's term.
pub fn terms_stay()
    ensures { (a b : State) → Grows a b → (r : ℕ) → r < length a.terms → term_at b.terms r ≡ term_at a.terms r }
{}

/// Marks nest: a good mark stays good while more is made, so it is good when a later mark was returned to.
pub fn marks_nest()
    ensures { (a b : State) (m : Marked) → IsGoodMark a m → Grows a b → IsGoodMark b m }
{}

/// Returning to a mark gives what there was then, but for the numbers that were given out.
pub fn undone_is_then()
    ensures { (a b : State) → Grows a b → undone b (mark_of a) ≡ record a { count = b.count } }
{}
