//! Laws of the definitions. Each is a function without a parameter, whose contract is the law.

ghost use Rattle.std.specs.Prelude.{◌≡◌, ◌≤◌, ℕ, List, Some};
ghost use Rattle.op_logic.specs.Term.{Term};
ghost use Rattle.op_term.specs.Ops.{Table, IsTable};
ghost use Rattle.op_term.specs.declared.quotes.DoubleQuotes.{DoubleQuotes};
ghost use Rattle.op_reader.specs.Row.{tree};
ghost use Rattle.op_writer.specs.declared.style.Style.{Style};
ghost use Rattle.op_writer.specs.declared.style.Style.TheVariants.{Quoted, Canonical};
ghost use Rattle.op_writer.specs.declared.bound.Bound.{Bound};
ghost use Rattle.op_readback.specs.Rows.{limit, row_of};
ghost use Rattle.op_readback.specs.ReadBack.{IsClosed, HasNoLetter, IsReadBack};

/// The brackets of a written term are enough: its row has the term as its tree.
pub fn rows_are_terms()
    ensures { (ops : Table) → IsTable ops → (style : Style) (t : Term (List ℕ)) (bound : Bound)
        → tree (limit bound) (row_of ops style t bound) ≡ Some t }
{}

/// What is written is read again, with every table of operators and every setting for text in double quotes: a term's text within a
/// priority up to 1200, in the quoted style and in the canonical one, with a space and a full stop behind it, is read as that term.
pub fn read_back()
    ensures quoted { (ops : Table) → IsTable ops → (quotes : DoubleQuotes) (t : Term (List ℕ)) (priority : ℕ) →
        IsClosed t → HasNoLetter t → priority ≤ 1200 → IsReadBack ops quotes Quoted t priority }
    ensures canonical { (ops : Table) → IsTable ops → (quotes : DoubleQuotes) (t : Term (List ℕ)) (priority : ℕ) →
        IsClosed t → priority ≤ 1200 → IsReadBack ops quotes Canonical t priority }
{}
