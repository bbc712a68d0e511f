ghost use Rattle.std.specs.Prelude.{◌≡◌};
ghost use Rattle.op_token.specs.Tokens.{scan_of};
ghost use Rattle.op_reader.specs.FirstClause.{is_end};
ghost use Rattle.op_reader.specs.Passes.{BeginsAs, BeginsUnended};

use crate::fault::{ReadFault, ReadFaultKind};
use op_token::{Scanner, Token, TokenKind};
use std::alloc::Global;

/// How a text begins.
#[derive(Drop)]
pub(crate) enum Beginning {
    /// The tokens before the first end token, and that token.
    Clause(Vec<Token>, Token),
    /// Layout and comments alone.
    Blank,
}

fn is_end(kind: TokenKind) -> bool
    ensures { result ≡ is_end kind }
{
    match kind {
        TokenKind::End => true,
        _ => false,
    }
}

fn unended(tokens: &[Token], length: usize) -> Result<Beginning, ReadFault>
    ensures { BeginsUnended tokens.now length result }
{
    if tokens.is_empty() {
        Ok(Beginning::Blank)
    } else {
        Err(ReadFault::Bad {
            place: length as u64,
            kind: ReadFaultKind::NoEnd,
        })
    }
}

/// The tokens up to the first end token.
pub(crate) fn first_clause(alloc: Global, bytes: &[u8]) -> Result<Beginning, ReadFault>
    ensures { BeginsAs (scan_of bytes.now) result }
{
    let mut scanner = Scanner::new(bytes);
    let mut tokens = Vec::new(alloc);
    'tokens: loop {
        match scanner.next() {
            Ok(Some(token)) => {
                if is_end(token.kind) {
                    return Ok(Beginning::Clause(tokens, token));
                }
                tokens.push(token)?;
            }
            Ok(None) => return unended(&tokens, bytes.len()),
            Err(fault) => {
                return Err(ReadFault::Bad {
                    place: fault.place,
                    kind: ReadFaultKind::Token(fault.kind),
                });
            }
        }
    }
}
