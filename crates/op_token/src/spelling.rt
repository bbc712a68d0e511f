ghost use Rattle.std.specs.Prelude.{◌≡◌};
ghost use Rattle.op_token.specs.Spelling.{fault as the_fault};

use crate::token::{TokenFault, TokenFaultKind, TokenKind};

/// What begins at a place.
#[derive(Clone, Copy)]
pub enum Spelling {
    /// Layout or a whole comment, to before this place.
    Gap(usize),
    /// A token, to before this place.
    Whole(TokenKind, usize),
    Fault(TokenFault),
}

pub fn fault(place: usize, kind: TokenFaultKind) -> Spelling
    ensures { result ≡ the_fault place kind }
{
    Spelling::Fault(TokenFault {
        place: place as u64,
        kind,
    })
}
