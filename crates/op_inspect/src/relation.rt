ghost use Rattle.std.specs.Prelude.{◌≡◌};
ghost use Rattle.op_inspect.specs.Comparison.{holds as the_holds};

use std::cmp::Ordering;

/// How two terms, or two integers, may stand in an order.
#[derive(Clone, Copy, Debug, PartialEq, Eq)]
pub enum Relation {
    Same,
    Different,
    Below,
    AtMost,
    Above,
    AtLeast,
}

impl Relation {
    /// Whether it holds of two that compare so.
    pub(crate) fn holds(self, order: Ordering) -> bool
        ensures { result ≡ the_holds self order }
    {
        match self {
            Relation::Same => order.is_eq(),
            Relation::Different => order.is_ne(),
            Relation::Below => order.is_lt(),
            Relation::AtMost => order.is_le(),
            Relation::Above => order.is_gt(),
            Relation::AtLeast => order.is_ge(),
        }
    }
}
