ghost use Rattle.std.specs.Prelude.{◌≡◌, ◌+◌, ◌≤◌, ◌<◌, ◌^◌, length};
ghost use Rattle.op_token.specs.Spelling.{dot_at, ends_clause as the_ends_clause, begins, slash_at};

use crate::character::begins_with;
use crate::class::Class;
use crate::comment::{block, line};
use crate::integer::integer;
use crate::quoted::quoted;
use crate::set::Set;
use crate::spelling::{Spelling, fault};
use crate::token::{TokenFaultKind, TokenKind};

fn ends_clause(rest: &[u8]) -> bool
    ensures { result ≡ the_ends_clause rest.now }
{
    match rest {
        [] => true,
        [first, ..] => match Class::of(*first) {
            Class::Layout | Class::Percent => true,
            _ => false,
        },
    }
}

fn dot(at: usize, tail: &[u8]) -> Spelling
    requires short { at + 1 + length tail.now < 2 ^ 63 }
    ensures { result ≡ dot_at at tail.now }
{
    let more = Set::Symbol.run(tail);
    if more == 0 && ends_clause(tail) {
        Spelling::Whole(TokenKind::End, at + 1)
    } else {
        Spelling::Whole(TokenKind::Name, at + 1 + more)
    }
}

fn slash(at: usize, tail: &[u8]) -> Spelling
    requires short { at + 1 + length tail.now < 2 ^ 63 }
    ensures { result ≡ slash_at at tail.now }
{
    if begins_with(tail, b'*') {
        block(at, &tail[1..])
    } else {
        Spelling::Whole(TokenKind::Name, at + 1 + Set::Symbol.run(tail))
    }
}

/// What begins at the place `at`, where `rest` stands. `minus` says that the name `-` stands directly before.
pub fn lexeme(at: usize, minus: bool, rest: &[u8]) -> Spelling
    requires short { at + length rest.now < 2 ^ 63 }
    ensures { result ≡ begins at minus rest.now }
{
    match rest {
        [] => Spelling::Gap(at),
        [first, tail @ ..] => match Class::of(*first) {
            Class::Layout => Spelling::Gap(at + 1),
            Class::Percent => line(at + 1, tail),
            Class::Small => Spelling::Whole(TokenKind::Name, at + 1 + Set::Word.run(tail)),
            Class::Capital => Spelling::Whole(TokenKind::Variable, at + 1 + Set::Word.run(tail)),
            Class::Digit => integer(at, minus, rest),
            Class::SingleQuote => quoted(TokenKind::QuotedName, b'\'', at, tail),
            Class::DoubleQuote => quoted(TokenKind::Text, b'"', at, tail),
            Class::Slash => slash(at, tail),
            Class::Dot => dot(at, tail),
            Class::Symbol => Spelling::Whole(TokenKind::Name, at + 1 + Set::Symbol.run(tail)),
            Class::Solo => Spelling::Whole(TokenKind::Name, at + 1),
            Class::Punctuation(kind) => Spelling::Whole(kind, at + 1),
            Class::Bad => fault(at, TokenFaultKind::BadChar),
        },
    }
}
