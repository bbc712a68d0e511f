ghost use Rattle.std.specs.Prelude.{◌≡◌, [], All, IfSome, IsNone, Option, Some, None};
ghost use Rattle.op_logic.specs.Bind.{lookup};
ghost use Rattle.op_event.specs.View.{Showing};
ghost use Rattle.op_cursor.specs.inner.Parts.{part_term, IsPart};
ghost use Rattle.op_cursor.specs.inner.Stacks.{values_from};

use crate::part::Part;

/// What a variable stands for, by a list of variables with their parts, the newest last.
pub(crate) fn value_of(values: &[(u64, Part)], v: u64) -> Option<Part>
    ensures none { result ≡ None → (w : Showing) → lookup (values_from w values.now []) v ≡ None }
    ensures some { (p : Part) → result ≡ Some p → (w : Showing) → lookup (values_from w values.now []) v ≡ Some (part_term w p) }
    ensures part { (p : Part) → result ≡ Some p → (w : Showing) → All (λ x. IsPart w x.1) values.now → IsPart w p }
{
    let mut n = values.len();
    'down: while n > 0 {
        n -= 1;
        let (bound, part) = values[n];
        if bound == v {
            return Some(part);
        }
    }
    None
}
