//! Division of 64 bits (ISO/IEC 13211-1, 9.1.3). No divisor is 0 here.

ghost use Rattle.std.specs.Prelude.{◌≡◌, ◌<◌, ◌≤◌, ◌^◌, ◌≢◌, neg_ℤ, ◌-ℤ◌, ◌*ℤ◌, pos, negsuc, Ok};
ghost use Rattle.std.specs.Prelude.{SomeIff, FitsSigned, ℤ};
ghost use Rattle.std.specs.Int.{w64};
ghost use Rattle.op_inspect.specs.Arithmetic.{rounded_down, floor as the_floor, within as the_within};

use crate::fault::EvaluationError;

/// The value of an operation that fails only past 64 bits.
pub fn within(value: Option<i64>) -> Result<i64, EvaluationError>
    ensures { (z : ℤ) → SomeIff value (FitsSigned w64 z) z → result ≡ the_within z }
{
    match value {
        Some(z) => Ok(z),
        None => Err(EvaluationError::Overflow),
    }
}

/// An integer of 128 bits as one of 64.
pub fn narrowed(value: i128) -> Result<i64, EvaluationError>
    ensures { result ≡ the_within value }
{
    match i64::try_from(value) {
        Ok(z) => Ok(z),
        Err(_) => Err(EvaluationError::Overflow),
    }
}

// The quotient by a negative integer, whose absolute value is `d`, rounded down.
fn floor_by_negative(x: i64, d: u64) -> Result<i64, EvaluationError>
    requires { 0 < d }
    ensures { result ≡ the_within (rounded_down (neg_ℤ x) d) }
{
    if x <= 0 {
        return narrowed((x.unsigned_abs() / d) as i128);
    }
    let n = (x as u64 - 1) / d;
    Ok(-1 - n as i64)
}

/// The quotient, rounded down.
pub fn floor(x: i64, y: i64) -> Result<i64, EvaluationError>
    requires { y ≢ pos 0 }
    ensures { result ≡ the_within (the_floor x y) }
{
    if y > 0 {
        return Ok(x.div_euclid(y));
    }
    floor_by_negative(x, y.unsigned_abs())
}

// What is left behind the quotient by a negative integer, whose absolute value is `d`.
fn modulus_by_negative(x: i64, d: u64) -> i64
    requires some { 0 < d }
    requires small { d ≤ 2 ^ 63 }
    ensures { result ≡ x -ℤ rounded_down (neg_ℤ x) d *ℤ neg_ℤ (pos d) }
{
    if x <= 0 {
        let r = x.unsigned_abs() % d;
        return -(r as i64);
    }
    let r = d - 1 - (x as u64 - 1) % d;
    -(r as i64)
}

/// What is left behind the quotient that is rounded down. It is 0 or has the divisor's sign.
pub fn modulus(x: i64, y: i64) -> i64
    requires { y ≢ pos 0 }
    ensures { result ≡ x -ℤ the_floor x y *ℤ y }
{
    if y > 0 {
        return x.rem_euclid(y);
    }
    modulus_by_negative(x, y.unsigned_abs())
}
