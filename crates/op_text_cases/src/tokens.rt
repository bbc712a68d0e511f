ghost use Rattle.std.specs.Prelude.{OnOk};
ghost use Rattle.op_token.specs.Cut.{IsOpen};

use op_base::Memory;
use op_case_lines::{Line, token_word};
use op_token::{Cutter, Piece, Scanner, Token, TokenFault, TokenKind, cut};
use std::alloc::Global;

fn kind_text(kind: TokenKind) -> &'static str {
    match kind {
        TokenKind::Name => "N",
        TokenKind::QuotedName => "Q",
        TokenKind::Variable => "V",
        TokenKind::Integer(_) => "I",
        TokenKind::Text => "T",
        TokenKind::OpenRound => "(",
        TokenKind::CloseRound => ")",
        TokenKind::OpenSquare => "[",
        TokenKind::CloseSquare => "]",
        TokenKind::OpenCurly => "{",
        TokenKind::CloseCurly => "}",
        TokenKind::Comma => ",",
        TokenKind::Bar => "|",
        TokenKind::End => "E",
    }
}

// A token as its kind, the magnitude of an integer, and its span, with `_` before it where layout stands there.
fn add_token(line: &mut Line, token: Token) {
    line.add(if token.layout_before { "_" } else { "" });
    line.add(kind_text(token.kind));
    if let TokenKind::Integer(magnitude) = token.kind {
        line.add_number("", magnitude);
        line.add(":");
    }
    line.add_number("", token.from);
    line.add_number("-", token.to);
}

// Adds the next token or fault behind a text; whether there may be a further one. A fault comes again each time.
fn add_next(line: &mut Line, before: &str, scanner: &mut Scanner<'_>) -> bool {
    match scanner.next() {
        Ok(None) => false,
        Ok(Some(token)) => {
            line.add(before);
            add_token(line, token);
            true
        }
        Err(fault) => {
            line.add(before);
            line.add(token_word(fault.kind));
            line.add_number("@", fault.place);
            if scanner.next() != Err(fault) {
                line.add(" and then another");
            }
            false
        }
    }
}

/// The tokens of a text, and the fault behind them.
pub fn tokens(line: &mut Line, text: &[u8]) {
    let mut scanner = Scanner::new(text);
    for i in 0..=text.len() {
        if !add_next(line, if i == 0 { "" } else { " " }, &mut scanner) {
            break;
        }
    }
}

/// The text that the first token stands for.
pub fn token_text(alloc: Global, line: &mut Line, text: &[u8]) -> Result<(), Memory> {
    let mut scanner = Scanner::new(text);
    let mut out = Vec::new(alloc);
    if let Ok(Some(token)) = scanner.next() {
        scanner.text_of(&token, &mut out)?;
    }
    line.add_bytes(&out);
    Ok(())
}

fn add_piece(line: &mut Line, piece: Piece) {
    match piece {
        Piece::Text(from, to) => {
            line.add_number("text ", from);
            line.add_number(" ", to);
        }
        Piece::NoEnd => line.add("no_end"),
        Piece::Empty => line.add("empty"),
    }
}

/// The first term text.
pub fn piece(line: &mut Line, text: &[u8]) {
    add_piece(line, cut(text));
}

// Gives a byte to the cutter, and adds the text that ended.
fn add_byte(line: &mut Line, cutter: &mut Cutter, byte: u8) -> Result<(), Memory>
    requires { IsOpen cutter.old }
    ensures { OnOk result (IsOpen cutter.new) }
{
    if cutter.push(byte)? {
        line.add_bytes(cutter.text());
        line.add("|");
        cutter.restart();
    }
    Ok(())
}

/// The term texts of a text that is given byte by byte, and what is left.
pub fn pieces(alloc: Global, line: &mut Line, text: &[u8]) -> Result<(), Memory> {
    let mut cutter = Cutter::new(alloc);
    'bytes: for byte in text {
        add_byte(line, &mut cutter, *byte)?;
    }
    add_piece(line, cutter.piece());
    Ok(())
}
