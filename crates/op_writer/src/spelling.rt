ghost use Rattle.std.specs.Prelude.{◌≡◌, ◌<◌, ◌≤◌, ◌++◌, OnOk, codes, bytes_eq, take, true, false, length};
ghost use Rattle.std.specs.List.{list_all};
ghost use Rattle.op_writer.specs.Cut.{front_of};
ghost use Rattle.op_base.specs.Characters.{is_symbol as symbol, is_word as word};
ghost use Rattle.op_writer.specs.Spelling.{is_symbolic as symbolic, is_word_name as word_name, is_solo as solo, is_unquoted as unquoted};
ghost use Rattle.op_writer.specs.Spelling.{is_control as control, hexadecimal, escaped, quoted, digit as hexadecimal_digit, name_text};

use crate::front::Front;
use crate::style::Style;
use op_base::Memory;
use op_base::characters::{is_small, is_symbol, is_word};
use op_desk::Bytes;
use std::alloc::Global;

fn all_symbols(name: &[u8]) -> bool
    ensures { result ≡ list_all symbol name.now }
{
    name.iter().all(|b| is_symbol(*b))
}

fn all_words(name: &[u8]) -> bool
    ensures { result ≡ list_all word name.now }
{
    name.iter().all(|b| is_word(*b))
}

/// Symbol characters alone, one at least.
pub fn is_symbolic(name: &[u8]) -> bool
    ensures { result ≡ symbolic name.now }
{
    !name.is_empty() && all_symbols(name)
}

fn is_word_name(name: &[u8]) -> bool
    ensures { result ≡ word_name name.now }
{
    !name.is_empty() && is_small(name[0]) && all_words(&name[1..])
}

fn is_solo(name: &str) -> bool
    ensures { result ≡ solo name.now }
{
    name == "[]" || name == "{}" || name == "!" || name == ";"
}

fn begins_comment(name: &[u8]) -> bool
    ensures { result ≡ bytes_eq (take 2 name.now) (codes "/*") }
{
    name.len() >= 2 && name[0] == b'/' && name[1] == b'*'
}

/// A name that needs no quotes.
pub fn is_unquoted(name: &str) -> bool
    ensures { result ≡ unquoted name.now }
{
    let bytes = name.as_bytes();
    is_word_name(bytes)
        || is_solo(name)
        || (is_symbolic(bytes) && !(name == "." || begins_comment(bytes)))
}

/// Whether a style writes a name in quotes.
pub fn has_quotes(style: Style, name: &str) -> bool
    ensures yes { result ≡ true → name_text style name.now ≡ quoted name.now }
    ensures no { result ≡ false → name_text style name.now ≡ name.now }
{
    match style {
        Style::Plain => false,
        _ => !is_unquoted(name),
    }
}

// A control character.
fn is_control(c: char) -> bool
    ensures { result ≡ control c }
{
    let code = c as u32;
    code < 32 || (code >= 127 && code < 160)
}

fn digit(d: u32) -> u8
    requires { d < 16 }
    ensures { result ≡ hexadecimal_digit d }
{
    if d < 10 {
        b'0' + d as u8
    } else {
        b'a' + (d - 10) as u8
    }
}

fn add_hexadecimal(out: &mut Bytes, c: u32) -> Result<(), Memory>
    requires { c < 256 }
    ensures { OnOk result (out.new ≡ out.old ++ hexadecimal c) }
{
    if c >= 16 {
        out.push(digit(c / 16))?;
    }
    out.push(digit(c % 16))
}

fn add_control(out: &mut Bytes, c: u32) -> Result<(), Memory>
    requires { c < 256 }
    ensures { OnOk result (out.new ≡ out.old ++ (codes "\\x" ++ hexadecimal c ++ codes "\\")) }
{
    out.append(b"\\x")?;
    add_hexadecimal(out, c)?;
    out.append(b"\\")
}

fn add_escaped(alloc: Global, out: &mut Front, c: char) -> Result<(), Memory>
    requires room { length out.old.bytes ≤ out.old.limit }
    ensures bytes { OnOk result (out.new.bytes ≡ front_of out.old.limit (out.old.bytes ++ escaped c)) }
    ensures limit { out.new.limit ≡ out.old.limit }
{
    if c == '\n' {
        return out.add(b"\\n");
    }
    if c == '\t' {
        return out.add(b"\\t");
    }
    if c == '\\' {
        return out.add(b"\\\\");
    }
    if c == '\'' {
        return out.add(b"\\'");
    }
    if is_control(c) {
        let mut text = Bytes::new(alloc);
        add_control(&mut text, c as u32)?;
        return out.add(text.as_slice());
    }
    let mut buffer = [0; 4];
    out.add(c.encode_utf8(&mut buffer).as_bytes())
}

/// Adds a name in quotes. It stops once the front is full.
pub fn in_quotes(alloc: Global, out: &mut Front, name: &str) -> Result<(), Memory>
    requires room { length out.old.bytes ≤ out.old.limit }
    ensures bytes { OnOk result (out.new.bytes ≡ front_of out.old.limit (out.old.bytes ++ quoted name.now)) }
    ensures limit { out.new.limit ≡ out.old.limit }
{
    out.add(b"'")?;
    for c in name.chars() {
        if out.is_full() {
            return Ok(());
        }
        add_escaped(alloc, out, c)?;
    }
    if out.is_full() {
        return Ok(());
    }
    out.add(b"'")?;
    Ok(())
}
