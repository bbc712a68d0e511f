//! Laws of the standard order of terms, each as the contract of a function that does nothing.

ghost use Rattle.std.specs.Prelude.{◌≡◌, ◌↔◌, ℕ, List, IsUtf8, chars};
ghost use Rattle.std.specs.declared.cmp.Ordering.TheVariants.{Equal};
ghost use Rattle.std.specs.Ordering.{nat_cmp};
ghost use Rattle.std.specs.Cmp.{IsTotalOrder};
ghost use Rattle.std.specs.Cmp.Lexicographic.{slice_cmp};
ghost use Rattle.op_logic.specs.Term.{Term};
ghost use Rattle.op_term.specs.Order.{name_order, standard_order};

/// The standard order is total: two terms the other way round compare the other way round, and it is transitive. Equal terms alone
/// compare equal (`equal_is_same`).
pub fn order_is_total()
    ensures { IsTotalOrder standard_order }
{}

/// Two terms are equal in the standard order exactly where they are the same.
pub fn equal_is_same()
    ensures { (t u : Term (List ℕ)) → (standard_order t u ≡ Equal) ↔ (t ≡ u) }
{}

/// Names in UTF-8 stand in the order of their characters.
pub fn names_by_characters()
    ensures { (a b : List ℕ) → IsUtf8 a → IsUtf8 b → name_order a b ≡ slice_cmp nat_cmp (chars a) (chars b) }
{}
