ghost use Rattle.std.specs.Prelude.{◌≡◌, ◌≤◌, not, if◌then◌else◌};
ghost use Rattle.op_writer.specs.Text.{fits as the_fit, left_of, right_of, is_operand as operand};

use op_term::Meaning;

/// The greatest priority of a term where it stands: as a whole, an argument or an element; as an operand; and as the left or right
/// operand of an operator that may have an operand of its own priority there.
#[derive(Clone, Copy)]
pub enum Bound {
    Whole(u32),
    Operand(u32),
    Left(u32),
    Right(u32),
}

impl Bound {
    /// A priority as a bound, of an operand or of a whole term.
    pub fn of(priority: u32, operand: bool) -> Bound
        ensures { result ≡ (if operand then Bound.Operand priority else Bound.Whole priority) }
    {
        if operand {
            Bound::Operand(priority)
        } else {
            Bound::Whole(priority)
        }
    }

    /// The bound of an operator's left operand.
    pub fn left_of(m: Meaning) -> Bound
        requires { 1 ≤ m.priority }
        ensures { result ≡ left_of m }
    {
        if m.kind.is_y_left() {
            Bound::Left(m.priority)
        } else {
            Bound::Operand(m.priority - 1)
        }
    }

    /// The bound of an operator's right operand.
    pub fn right_of(m: Meaning) -> Bound
        requires { 1 ≤ m.priority }
        ensures { result ≡ right_of m }
    {
        if m.kind.is_y_right() {
            Bound::Right(m.priority)
        } else {
            Bound::Operand(m.priority - 1)
        }
    }

    /// Whether a term with an operator stands here without brackets.
    fn fits(self, m: Meaning) -> bool
        ensures { result ≡ the_fit self m }
    {
        match self {
            Bound::Whole(p) | Bound::Operand(p) => m.priority <= p,
            Bound::Left(p) => m.priority < p || (m.priority == p && m.kind.is_y_left()),
            Bound::Right(p) => m.priority < p || (m.priority == p && m.kind.is_y_right()),
        }
    }

    /// Whether a term with an operator stands here in brackets.
    pub fn is_passed(self, m: Meaning) -> bool
        ensures { result ≡ not (the_fit self m) }
    {
        !self.fits(m)
    }

    /// Whether it is the bound of an operand.
    pub fn is_operand(self) -> bool
        ensures { result ≡ operand self }
    {
        match self {
            Bound::Whole(_) => false,
            _ => true,
        }
    }
}
