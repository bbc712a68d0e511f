ghost use Rattle.std.specs.Prelude.{◌≡◌, ◌++◌, ◌<◌, ◌^◌, length, take, OnOk, OnErr, IfOk, ◌∷◌, []};
ghost use Rattle.op_token.specs.Tokens.{escaped, text_from, Continues};

use crate::character::begins_with;
use crate::escape::escape_from;
use std::alloc::AllocError;

fn push_char(code: Option<char>, out: &mut Vec<u8>) -> Result<(), AllocError>
    ensures done { OnOk result (out.new.items ≡ out.old.items ++ escaped code) }
    ensures refused { OnErr result (out.new.items ≡ out.old.items) }
{
    match code {
        Some(character) => {
            let mut buffer = [0; 4];
            out.extend_from_slice(character.encode_utf8(&mut buffer).as_bytes())
        }
        None => Ok(()),
    }
}

fn push_byte(byte: u8, out: &mut Vec<u8>) -> Result<(), AllocError>
    ensures done { OnOk result (out.new.items ≡ out.old.items ++ byte ∷ []) }
    ensures refused { OnErr result (out.new.items ≡ out.old.items) }
{
    out.push(byte)?;
    Ok(())
}

// Appends what one byte of quoted text stands for, and gives the number of further bytes that belong to it; None at the end.
fn push_next(
    quote: u8,
    byte: u8,
    tail: &[u8],
    out: &mut Vec<u8>,
) -> Result<Option<usize>, AllocError>
    requires { length tail.now < 2 ^ 63 }
    ensures next { IfOk result (λ o. Continues quote byte tail.now out.old.items out.new.items o) }
    ensures refused { OnErr result (out.new.items ≡ out.old.items) }
{
    if byte == quote {
        if !begins_with(tail, quote) {
            return Ok(None);
        }
        push_byte(byte, out)?;
        Ok(Some(1))
    } else if byte == b'\\' {
        match escape_from(tail) {
            Some(escape) => {
                push_char(escape.code, out)?;
                Ok(Some(escape.len))
            }
            None => Ok(Some(0)),
        }
    } else {
        push_byte(byte, out)?;
        Ok(Some(0))
    }
}

/// Appends the characters that stand behind a quote, to the quote that ends them.
pub fn unquote(quote: u8, rest: &[u8], out: &mut Vec<u8>) -> Result<(), AllocError>
    ensures done { OnOk result (out.new.items ≡ out.old.items ++ text_from quote 0 rest.now) }
    ensures refused { OnErr result (take (length out.old.items) out.new.items ≡ out.old.items) }
{
    let mut inside = 0;
    for (i, byte) in rest.iter().enumerate() {
        if inside > 0 {
            inside -= 1;
        } else {
            match push_next(quote, *byte, &rest[i + 1..], out)? {
                Some(more) => inside = more,
                None => return Ok(()),
            }
        }
    }
    Ok(())
}
