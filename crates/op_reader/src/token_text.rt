ghost use Rattle.std.specs.Prelude.{◌≡◌, OnOk};
ghost use Rattle.std.specs.Str.{IsUtf8};
ghost use Rattle.op_reader.specs.inner.Shown.{HasText, text_in};
ghost use Rattle.op_reader.specs.Words.{spelling};

use op_base::Memory;
use op_token::{Scanner, Token, TokenKind};

/// Bytes that are text.
pub(crate) fn as_text(bytes: &[u8]) -> &str
    requires { IsUtf8 bytes.now }
    ensures { result.now ≡ bytes.now }
{
    match str::from_utf8(bytes) {
        Ok(text) => text,
        Err(_) => unreachable!(),
    }
}

fn spelled(bytes: &[u8], token: Token) -> &[u8]
    requires { HasText bytes.now token }
    ensures { result.now ≡ spelling bytes.now token }
{
    &bytes[token.from as usize..token.to as usize]
}

/// Puts the text that a token stands for in place of what `out` has.
pub(crate) fn read_text(bytes: &[u8], token: Token, out: &mut Vec<u8>) -> Result<(), Memory>
    requires { HasText bytes.now token }
    ensures { OnOk result (out.new.items ≡ text_in bytes.now token) }
{
    out.clear();
    match token.kind {
        TokenKind::QuotedName => Scanner::new(bytes).text_of(&token, out),
        TokenKind::Text => Scanner::new(bytes).text_of(&token, out),
        _ => {
            out.extend_from_slice(spelled(bytes, token))?;
            Ok(())
        }
    }
}
