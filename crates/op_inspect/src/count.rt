ghost use Rattle.std.specs.Prelude.{◌≡◌, ◌<◌, IfSome};
ghost use Rattle.op_inspect.specs.Arithmetic.{count_of as the_count};

/// The number of bits that an integer says; None where it is negative or above 63.
pub fn count_of(y: i64) -> Option<u32>
    ensures value { result ≡ the_count y }
    ensures few { IfSome result (λ n. n < 64) }
{
    if y < 0 || y > 63 {
        return None;
    }
    Some(y as u32)
}
