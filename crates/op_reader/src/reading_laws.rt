//! What holds of the definition of reading. No function here does anything.

ghost use Rattle.std.specs.Prelude.{◌≡◌, ℕ, List};
ghost use Rattle.op_logic.specs.Term.{Term};
ghost use Rattle.op_term.specs.Ops.{Table};
ghost use Rattle.op_term.specs.declared.quotes.DoubleQuotes.{DoubleQuotes};
ghost use Rattle.op_reader.specs.Reading.{term, reading_of};
ghost use Rattle.op_reader.specs.Variables.{HasVariables};

/// The variables of a term that is read are exactly those below their number, by first occurrence, and each named one is among them.
pub fn read_terms_have_variables()
    ensures { (table : Table) (quotes : DoubleQuotes) (text : List ℕ) (t : Term (List ℕ)) (names : List (List ℕ × ℕ)) (used : ℕ)
        → reading_of table quotes text ≡ term t names used → (count : ℕ) × HasVariables count t names }
{}
