ghost use Rattle.std.specs.Prelude.{◌≡◌, ◌+◌, ◌≤◌, ◌<◌, ◌^◌, length};
ghost use Rattle.op_token.specs.Spelling.{line_from, block_from};

use crate::character::{begins_with, char_from};
use crate::spelling::{Spelling, fault};
use crate::token::TokenFaultKind;

/// The comment that a `%` begins; `at` is the place behind it, and `rest` what stands there.
#[tactic(auto, using(crate::proofs::ListRests::drop_one, crate::proofs::ListRests::drop_all))]
pub fn line(at: usize, rest: &[u8]) -> Spelling
    requires { at + length rest.now < 2 ^ 63 }
    ensures { result ≡ line_from at 0 rest.now }
{
    let mut inside = 0;
    for (i, byte) in rest.iter().enumerate() {
        if inside > 0 {
            inside -= 1;
        } else if *byte == b'\n' {
            return Spelling::Gap(at + i + 1);
        } else {
            match char_from(*byte, &rest[i + 1..]) {
                Some(character) => inside = character.more,
                None => return fault(at + i, TokenFaultKind::BadChar),
            }
        }
    }
    Spelling::Gap(at + rest.len())
}

/// The comment that a `/*` at `start` begins; `rest` is what stands behind these two bytes.
#[tactic(auto, using(crate::proofs::ListRests::drop_one, crate::proofs::ListRests::drop_all))]
pub fn block(start: usize, rest: &[u8]) -> Spelling
    requires { start + 2 + length rest.now < 2 ^ 63 }
    ensures { result ≡ block_from start (start + 2) 0 rest.now }
{
    let mut inside = 0;
    for (i, byte) in rest.iter().enumerate() {
        if inside > 0 {
            inside -= 1;
        } else if *byte == b'*' && begins_with(&rest[i + 1..], b'/') {
            return Spelling::Gap(start + 2 + i + 2);
        } else {
            match char_from(*byte, &rest[i + 1..]) {
                Some(character) => inside = character.more,
                None => return fault(start + 2 + i, TokenFaultKind::BadChar),
            }
        }
    }
    fault(start, TokenFaultKind::OpenComment)
}
