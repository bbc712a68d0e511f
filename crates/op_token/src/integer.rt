ghost use Rattle.std.specs.Prelude.{◌≡◌, ◌+◌, ◌-◌, ◌≤◌, ◌<◌, ◌^◌, length, min, unwrap_or};
ghost use Rattle.op_token.specs.Spelling.{ranged as the_ranged, based as the_based, decimal as the_decimal};
ghost use Rattle.op_token.specs.Spelling.{is_fraction as the_fraction, code_at, escaped_code_at, number_at, number_of};

use crate::character::{begins_with, char_from};
use crate::digits::number;
use crate::escape::escape_from;
use crate::set::Set;
use crate::spelling::{Spelling, fault};
use crate::token::{TokenFaultKind, TokenKind};

const LEAST_MAGNITUDE: u64 = 9_223_372_036_854_775_808;

fn ranged(at: usize, minus: bool, magnitude: u64, end: usize) -> Spelling
    ensures { result ≡ the_ranged at minus magnitude end }
{
    if magnitude < LEAST_MAGNITUDE || (minus && magnitude == LEAST_MAGNITUDE) {
        Spelling::Whole(TokenKind::Integer(magnitude), end)
    } else {
        fault(at, TokenFaultKind::NumberRange)
    }
}

// An integer of these digits, behind the place `at`.
fn ranged_number(at: usize, minus: bool, base: u64, digits: &[u8], end: usize) -> Spelling
    requires { 0 < base }
    ensures { result ≡ the_ranged at minus (number_of base digits.now) end }
{
    ranged(at, minus, number(base, digits), end)
}

fn based(base: u64, set: Set, at: usize, minus: bool, rest: &[u8]) -> Spelling
    requires base { 0 < base }
    requires short { at + 2 + length rest.now < 2 ^ 63 }
    ensures { result ≡ the_based base set at minus rest.now }
{
    let digits = set.run(rest);
    if digits == 0 {
        fault(at, TokenFaultKind::BadNumber)
    } else {
        ranged_number(at, minus, base, &rest[..digits], at + 2 + digits)
    }
}

fn is_fraction(rest: &[u8]) -> bool
    ensures { result ≡ the_fraction rest.now }
{
    match rest {
        [dot, digit, ..] => *dot == b'.' && Set::Decimal.has(*digit),
        _ => false,
    }
}

fn decimal(at: usize, minus: bool, rest: &[u8]) -> Spelling
    requires short { at + length rest.now < 2 ^ 63 }
    ensures { result ≡ the_decimal at minus rest.now }
{
    let digits = Set::Decimal.run(rest);
    if is_fraction(&rest[digits..]) {
        fault(at, TokenFaultKind::BadNumber)
    } else {
        ranged_number(at, minus, 10, &rest[..digits], at + digits)
    }
}

fn code_of(code: Option<char>) -> u64
    ensures { result ≡ unwrap_or code 0 }
{
    match code {
        Some(character) => character as u64,
        None => 0,
    }
}

fn escaped_code(at: usize, rest: &[u8]) -> Spelling
    requires short { at + 3 + length rest.now < 2 ^ 63 }
    ensures { result ≡ escaped_code_at at rest.now }
{
    if begins_with(rest, b'\n') {
        return fault(at, TokenFaultKind::BadNumber);
    }
    match escape_from(rest) {
        Some(escape) => Spelling::Whole(
            TokenKind::Integer(code_of(escape.code)),
            at + 3 + escape.len,
        ),
        None => fault(at + 2, TokenFaultKind::BadEscape),
    }
}

fn code(at: usize, rest: &[u8]) -> Spelling
    requires short { at + 2 + length rest.now < 2 ^ 63 }
    ensures { result ≡ code_at at rest.now }
{
    match rest {
        [] => fault(at, TokenFaultKind::BadNumber),
        [first, tail @ ..] => {
            if *first == b'\\' {
                escaped_code(at, tail)
            } else if *first == b'\'' {
                if begins_with(tail, b'\'') {
                    Spelling::Whole(TokenKind::Integer(39), at + 4)
                } else {
                    fault(at, TokenFaultKind::BadNumber)
                }
            } else {
                match char_from(*first, tail) {
                    Some(character) => {
                        Spelling::Whole(TokenKind::Integer(character.code), at + 3 + character.more)
                    }
                    None => fault(at, TokenFaultKind::BadNumber),
                }
            }
        }
    }
}

/// The integer that a digit at `at` begins; `rest` is the bytes from that digit on. `minus` says that the name `-` stands directly before.
pub fn integer(at: usize, minus: bool, rest: &[u8]) -> Spelling
    requires short { at + length rest.now < 2 ^ 63 }
    ensures { result ≡ number_at at minus rest.now }
{
    match rest {
        [] => fault(at, TokenFaultKind::BadNumber),
        [first, tail @ ..] => {
            let zero = *first == b'0';
            if zero && begins_with(tail, b'\'') {
                code(at, &tail[1..])
            } else if zero && begins_with(tail, b'x') {
                based(16, Set::Hexadecimal, at, minus, &tail[1..])
            } else if zero && begins_with(tail, b'o') {
                based(8, Set::Octal, at, minus, &tail[1..])
            } else if zero && begins_with(tail, b'b') {
                based(2, Set::Binary, at, minus, &tail[1..])
            } else {
                decimal(at, minus, rest)
            }
        }
    }
}
