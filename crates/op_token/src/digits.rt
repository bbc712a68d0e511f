ghost use Rattle.std.specs.Prelude.{◌≡◌, ◌+◌, ◌-◌, ◌≤◌, ◌<◌, ◌^◌, min, Some, None, if◌then◌else◌};
ghost use Rattle.op_token.specs.Character.{is_scalar as the_scalar};
ghost use Rattle.op_token.specs.Spelling.{digit_value as the_digit, number_of};

use crate::character::is_scalar;

fn digit_value(byte: u8) -> u64
    ensures { result ≡ the_digit byte }
{
    if byte <= b'9' {
        u64::from(byte.saturating_sub(b'0'))
    } else if byte <= b'Z' {
        u64::from(byte - 55)
    } else {
        u64::from(byte - 87)
    }
}

/// The number that digits to a base spell, or the greatest of 64 bits where it is greater.
pub fn number(base: u64, digits: &[u8]) -> u64
    requires { 0 < base }
    ensures { result ≡ min (number_of base digits.now) (2 ^ 64 - 1) }
{
    let mut number: u64 = 0;
    for byte in digits {
        number = number
            .saturating_mul(base)
            .saturating_add(digit_value(*byte));
    }
    number
}

/// The scalar value that digits to a base spell.
pub fn scalar(base: u64, digits: &[u8]) -> Option<char>
    requires { 0 < base }
    ensures { result ≡ (if the_scalar (number_of base digits.now) then Some (number_of base digits.now) else None) }
{
    let code = number(base, digits);
    if is_scalar(code) {
        char::from_u32(code as u32)
    } else {
        None
    }
}
