ghost use Rattle.std.specs.Prelude.{◌≡◌, true, [], reverse, IfOk};
ghost use Rattle.op_reader.specs.FirstClause.{opening, closing, is_same, closes, fits, open_behind, unmatched, innermost};

use op_base::Memory;
use op_token::{Token, TokenKind};
use std::alloc::Global;

/// A kind of brackets.
#[derive(Clone, Copy, Debug)]
pub enum Bracket {
    Round,
    Square,
    Curly,
}

/// A bracket that is open, and its place.
#[derive(Clone, Copy, Debug)]
pub struct Opened {
    pub bracket: Bracket,
    pub place: u64,
}

/// The bracket that a token opens.
pub(crate) fn opening(kind: TokenKind) -> Option<Bracket>
    ensures { result ≡ opening kind }
{
    match kind {
        TokenKind::OpenRound => Some(Bracket::Round),
        TokenKind::OpenSquare => Some(Bracket::Square),
        TokenKind::OpenCurly => Some(Bracket::Curly),
        _ => None,
    }
}

/// The bracket that a token closes.
pub(crate) fn closing(kind: TokenKind) -> Option<Bracket>
    ensures { result ≡ closing kind }
{
    match kind {
        TokenKind::CloseRound => Some(Bracket::Round),
        TokenKind::CloseSquare => Some(Bracket::Square),
        TokenKind::CloseCurly => Some(Bracket::Curly),
        _ => None,
    }
}

fn is_same(a: Bracket, b: Bracket) -> bool
    ensures { result ≡ is_same a b }
{
    match (a, b) {
        (Bracket::Round, Bracket::Round) => true,
        (Bracket::Square, Bracket::Square) => true,
        (Bracket::Curly, Bracket::Curly) => true,
        _ => false,
    }
}

// The innermost open bracket is the last one.
fn closes(stack: &[Opened], bracket: Bracket) -> bool
    ensures { result ≡ closes (reverse stack.now) bracket }
{
    match stack.last() {
        Some(opened) => is_same(opened.bracket, bracket),
        None => false,
    }
}

fn innermost(stack: &[Opened]) -> Option<u64>
    ensures { result ≡ innermost (reverse stack.now) }
{
    match stack.last() {
        Some(opened) => Some(opened.place),
        None => None,
    }
}

// Whether a token may stand behind the open brackets; these are then those behind it.
fn take(stack: &mut Vec<Opened>, token: Token) -> Result<bool, Memory>
    ensures fits { IfOk result (λ b. b ≡ fits (reverse stack.old.items) token) }
    ensures behind { IfOk result (λ b. b ≡ true → reverse stack.new.items ≡ open_behind (reverse stack.old.items) token) }
{
    if let Some(bracket) = closing(token.kind) {
        let fits = closes(stack, bracket);
        let _closed = stack.pop();
        return Ok(fits);
    }
    if let Some(bracket) = opening(token.kind) {
        stack.push(Opened {
            bracket,
            place: token.from,
        })?;
    }
    Ok(true)
}

/// The place of the first closing bracket that doesn't match the innermost open one, else of the innermost bracket that is open at
/// the end.
pub(crate) fn unmatched(alloc: Global, tokens: &[Token]) -> Result<Option<u64>, Memory>
    ensures { IfOk result (λ found. found ≡ unmatched [] tokens.now) }
{
    let mut stack = Vec::new(alloc);
    for token in tokens {
        if !take(&mut stack, *token)? {
            return Ok(Some(token.from));
        }
    }
    Ok(innermost(&stack))
}
