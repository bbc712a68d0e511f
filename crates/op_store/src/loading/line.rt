ghost use Rattle.std.specs.Prelude.{◌≡◌, ◌<◌, ◌≤◌, ◌+◌, ◌^◌, ℕ, length, take, drop, filter, not, IfOk};
ghost use Rattle.op_store.specs.Load.{newlines as the_newlines, first_token as the_first_token, line_at as the_line};
ghost use Rattle.op_store.specs.Load.{fault_line as the_fault_line, is_rest as the_rest};
ghost use Rattle.op_base.specs.Characters.{is_layout as layout};

use op_base::Memory;
use op_base::characters::is_layout;
use op_token::Scanner;
use std::alloc::Global;

fn newlines(bytes: &[u8]) -> u64
    ensures value { result ≡ the_newlines bytes.now }
    ensures bound { result ≤ length bytes.now }
{
    bytes.iter().filter(|b| **b == b'\n').count() as u64
}

/// The place of the first token; 0 where there is none.
pub(crate) fn first_token(bytes: &[u8]) -> u64
    ensures { result ≡ the_first_token bytes.now }
{
    let mut scanner = Scanner::new(bytes);
    match scanner.next() {
        Ok(Some(token)) => token.from,
        _ => 0,
    }
}

fn front(bytes: &[u8], n: u64) -> &[u8]
    ensures { result.now ≡ take n bytes.now }
{
    if n < bytes.len() as u64 {
        &bytes[..n as usize]
    } else {
        bytes
    }
}

/// The bytes from a place on.
pub(crate) fn rest(bytes: &[u8], n: u64) -> &[u8]
    ensures { result.now ≡ drop n bytes.now }
{
    if n < bytes.len() as u64 {
        &bytes[n as usize..]
    } else {
        &[]
    }
}

/// The line of a place in bytes that begin at a line.
pub(crate) fn line_at(line: u64, bytes: &[u8], place: u64) -> u64
    requires { line + length bytes.now < 2 ^ 64 }
    ensures { result ≡ the_line line bytes.now place }
{
    line + newlines(front(bytes, place))
}

/// The line of a fault of reading at a place.
pub(crate) fn fault_line(line: u64, bytes: &[u8], place: u64) -> u64
    requires { line + length bytes.now < 2 ^ 64 }
    ensures { result ≡ the_fault_line line bytes.now place }
{
    if place < bytes.len() as u64 {
        line_at(line, bytes, place)
    } else {
        line_at(line, bytes, first_token(bytes))
    }
}

fn marks(alloc: Global, bytes: &[u8]) -> Result<Vec<u8>, Memory>
    ensures { IfOk result (λ v. v.items ≡ filter (λ b. not (layout b)) bytes.now) }
{
    let marks = bytes
        .iter()
        .copied()
        .filter(|b| !is_layout(*b))
        .collect(alloc)?;
    Ok(marks)
}

/// Whether bytes are layout with at most one full stop in it.
pub(crate) fn is_rest(alloc: Global, bytes: &[u8]) -> Result<bool, Memory>
    ensures { IfOk result (λ b. b ≡ the_rest bytes.now) }
{
    let marks = marks(alloc, bytes)?;
    Ok(marks.is_empty() || marks.as_slice() == b".".as_slice())
}
