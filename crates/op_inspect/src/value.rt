ghost use Rattle.std.specs.Prelude.{◌≡◌, ◌<◌, ◌^◌, ◌*ℤ◌, pos};
ghost use Rattle.op_inspect.specs.Arithmetic.{unary_value as the_unary, binary_value as the_binary, within as the_within};

use crate::count::count_of;
use crate::division::{floor, modulus, narrowed, within};
use crate::fault::EvaluationError;
use crate::function::{Binary, Unary};

/// A function's value for an integer.
pub fn unary_value(f: Unary, x: i64) -> Result<i64, EvaluationError>
    ensures { result ≡ the_unary f x }
{
    match f {
        Unary::Identity => Ok(x),
        Unary::Negation => within(x.checked_neg()),
        Unary::Magnitude => within(x.checked_abs()),
        Unary::Sign => Ok(x.signum()),
        Unary::Complement => Ok(!x),
    }
}

/// A function's value for two integers.
pub fn binary_value(f: Binary, x: i64, y: i64) -> Result<i64, EvaluationError>
    ensures { result ≡ the_binary f x y }
{
    match f {
        Binary::Sum => within(x.checked_add(y)),
        Binary::Difference => within(x.checked_sub(y)),
        Binary::Product => within(x.checked_mul(y)),
        Binary::Least => Ok(x.min(y)),
        Binary::Greatest => Ok(x.max(y)),
        Binary::And => Ok(x & y),
        Binary::Or => Ok(x | y),
        Binary::Quotient => quotient(x, y),
        Binary::Remainder => remainder(x, y),
        Binary::Floor => floor_quotient(x, y),
        Binary::Modulus => floor_remainder(x, y),
        Binary::ShiftLeft => shifted_left(x, y),
        Binary::ShiftRight => shifted_right(x, y),
    }
}

fn quotient(x: i64, y: i64) -> Result<i64, EvaluationError>
    ensures { result ≡ the_binary Binary.Quotient x y }
{
    if y == 0 {
        return Err(EvaluationError::ZeroDivisor);
    }
    within(x.checked_div(y))
}

fn remainder(x: i64, y: i64) -> Result<i64, EvaluationError>
    ensures { result ≡ the_binary Binary.Remainder x y }
{
    if y == 0 {
        return Err(EvaluationError::ZeroDivisor);
    }
    Ok(x.wrapping_rem(y))
}

fn floor_quotient(x: i64, y: i64) -> Result<i64, EvaluationError>
    ensures { result ≡ the_binary Binary.Floor x y }
{
    if y == 0 {
        return Err(EvaluationError::ZeroDivisor);
    }
    floor(x, y)
}

fn floor_remainder(x: i64, y: i64) -> Result<i64, EvaluationError>
    ensures { result ≡ the_binary Binary.Modulus x y }
{
    if y == 0 {
        return Err(EvaluationError::ZeroDivisor);
    }
    Ok(modulus(x, y))
}

fn times_power(x: i64, n: u32) -> Result<i64, EvaluationError>
    requires { n < 64 }
    ensures { result ≡ the_within (x *ℤ pos (2 ^ n)) }
{
    narrowed(x as i128 * 2i128.pow(n))
}

fn shifted_left(x: i64, y: i64) -> Result<i64, EvaluationError>
    ensures { result ≡ the_binary Binary.ShiftLeft x y }
{
    match count_of(y) {
        Some(n) => times_power(x, n),
        None => Err(EvaluationError::Undefined),
    }
}

fn shifted_right(x: i64, y: i64) -> Result<i64, EvaluationError>
    ensures { result ≡ the_binary Binary.ShiftRight x y }
{
    match count_of(y) {
        Some(n) => Ok(x >> n),
        None => Err(EvaluationError::Undefined),
    }
}
