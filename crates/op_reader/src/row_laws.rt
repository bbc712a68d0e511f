//! What holds of the definition of a row's tree. No function here does anything.

ghost use Rattle.std.specs.Prelude.{◌≡◌, ◌<◌, ℕ, true, List, [], ◌∷◌, ◌++◌, Some};
ghost use Rattle.op_logic.specs.Term.{Term};
ghost use Rattle.op_term.specs.Ops.{is_prefix, is_infix, is_postfix};
ghost use Rattle.op_reader.specs.Row.{Member, operand, operator, Operator, is_row, tree, HasNoTree};

/// Only members that alternate as they must have a tree.
pub fn trees_are_of_rows()
    ensures { (bound : ℕ) (ps : List (Member ℕ)) (t : Term ℕ) → tree bound ps ≡ Some t → is_row ps ≡ true }
{}

/// A row without a tree has none after an infix operator with its operand, after a postfix operator, or with a prefix operator before
/// its last operand.
pub fn refused_for_good()
    ensures infix_operator { (ps : List (Member ℕ)) (o : Operator ℕ) (t : Term ℕ) → is_infix o.kind ≡ true → 0 < o.priority
        → HasNoTree ps → HasNoTree (ps ++ operator o ∷ operand t ∷ []) }
    ensures postfix_operator { (ps : List (Member ℕ)) (o : Operator ℕ) → is_postfix o.kind ≡ true → 0 < o.priority
        → HasNoTree ps → HasNoTree (ps ++ operator o ∷ []) }
    ensures prefix_operator { (ps : List (Member ℕ)) (o : Operator ℕ) (t : Term ℕ) → is_prefix o.kind ≡ true → 0 < o.priority
        → HasNoTree (ps ++ operand t ∷ []) → HasNoTree (ps ++ operator o ∷ operand t ∷ []) }
{}
