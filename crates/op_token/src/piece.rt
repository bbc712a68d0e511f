ghost use Rattle.std.specs.Prelude.{◌≡◌};
ghost use Rattle.op_token.specs.Cut.{cut_of};

use crate::kind::Kind;
use crate::walk::Walk;

/// The first term text of some bytes.
#[derive(Clone, Copy, Debug, PartialEq, Eq)]
pub enum Piece {
    /// From its first byte to its end: the place behind the `.` that ends it.
    Text(u64, u64),
    /// Something other than layout and whole comments, without an end.
    NoEnd,
    /// Layout and whole comments alone.
    Empty,
}

/// Cuts the first term text from the bytes. It takes no memory, and reads no further than the byte behind the text's end.
pub fn cut(bytes: &[u8]) -> Piece
    ensures { result ≡ cut_of bytes.now }
{
    let mut walk = Walk::new();
    for byte in bytes {
        walk = walk.step(Kind::of(*byte));
        if walk.has_ended() {
            return walk.piece();
        }
    }
    walk.piece()
}
