ghost use Rattle.std.specs.Prelude.{nat_le, nat_lt, ◌&&◌, ◌≡◌, ◌≤◌, ◌<◌, ◌++◌, length, take, codes, IfOk, OnOk, OnErr};
ghost use Rattle.op_writer.specs.Cut.{boundary as the_boundary, cut};

use op_base::Memory;
use op_desk::Bytes;
use std::alloc::Global;

/// How many bytes of a text stand in a line.
pub const LIMIT: usize = 4096;

fn continues(byte: u8) -> bool
    ensures { result ≡ (nat_le 128 byte && nat_lt byte 192) }
{
    byte >= 128 && byte < 192
}

// The greatest place, at most n, at which a character begins.
fn boundary(text: &[u8], n: usize) -> usize
    requires { n < length text.now }
    ensures value { result ≡ the_boundary text.now n }
    ensures within { result ≤ n }
{
    let mut at = n;
    'back: while at > 0 && continues(text[at]) {
        at -= 1;
    }
    at
}

// The whole characters within the limit, and three dots.
fn shortened(alloc: Global, text: &[u8]) -> Result<Bytes, Memory>
    requires { 4096 < length text.now }
    ensures { IfOk result (λ b. b ≡ take (the_boundary text.now 4096) text.now ++ codes "...") }
{
    let end = boundary(text, LIMIT);
    let mut line = Bytes::new(alloc);
    line.append(beginning(text, end))?;
    line.append(b"...")?;
    Ok(line)
}

/// The first bytes of a text.
pub fn beginning(text: &[u8], end: usize) -> &[u8]
    requires { end ≤ length text.now }
    ensures { result.now ≡ take end text.now }
{
    &text[..end]
}

/// Adds a text, cut to what stands in a line.
pub fn add_cut(alloc: Global, text: &[u8], out: &mut Bytes) -> Result<(), Memory>
    ensures ok { OnOk result (out.new ≡ out.old ++ cut text.now) }
    ensures err { OnErr result (out.new ≡ out.old) }
{
    if text.len() <= LIMIT {
        out.append(text)?;
        return Ok(());
    }
    let line = shortened(alloc, text)?;
    out.append(line.as_slice())?;
    Ok(())
}
