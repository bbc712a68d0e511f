ghost use Rattle.std.specs.Prelude.{◌≡◌, ◌+◌, ◌-◌, ◌^◌, ◌<◌, ◌++◌, ◌∷◌, [], ◌↔◌, IsTrue, OnErr, IfOk, OnOk, ◌≤◌, length, slice_range};
ghost use Rattle.std.specs.Bool.{OnFalse};
ghost use Rattle.op_token.specs.Cut.{cut_of, text_in, rest_in, IsText, IsFollowed, IsOpen};

use crate::kind::Kind;
use crate::piece::Piece;
use crate::walk::Walk;
use op_base::Memory;
use op_base::characters::is_layout;
use std::alloc::Global;
use std::marker::Model;

/// A cutter that is fed a byte at a time, for a source that must not be read ahead. A clause sees the bytes that came since the last
/// text was taken from it. Each call takes constant time, over all calls.
#[derive(Drop)]
pub struct Cutter {
    bytes: Vec<u8>,
    walk: Walk,
}

impl Model for Cutter {
    ghost use Rattle.std.specs.Prelude.{◌≡◌, List, ℕ};
    ghost use Rattle.op_token.specs.Walk.{walked};

    ghost Value = { List ℕ };

    ghost view = { λ c. c.bytes.items };

    ghost invariant = { λ c. c.walk ≡ walked c.bytes.items };
}

impl Cutter {
    /// A cutter without a byte.
    pub fn new(alloc: Global) -> Cutter
        ensures empty { result ≡ [] }
        ensures ready { IsOpen result }
    {
        Cutter {
            bytes: Vec::new(alloc),
            walk: Walk::new(),
        }
    }

    /// Takes the next byte, and says whether it has shown that a text ended before it. It is then time for `text` and `restart`.
    /// Where memory is refused, the byte is not taken.
    pub fn push(&mut self, byte: u8) -> Result<bool, Memory>
        requires open { IsOpen self.old }
        ensures taken { OnOk result (self.new ≡ self.old ++ byte ∷ []) }
        ensures ended { IfOk result (λ b. IsTrue b ↔ IsFollowed self.new) }
        ensures going { IfOk result (λ b. OnFalse b (IsOpen self.new)) }
        ensures refused { OnErr result (self.new ≡ self.old) }
    {
        self.bytes.push(byte)?;
        self.walk = self.walk.step(Kind::of(byte));
        Ok(self.walk.has_ended())
    }

    /// What the bytes so far make, where no more come.
    pub fn piece(&self) -> Piece
        ensures { result ≡ cut_of self.now }
    {
        self.walk.piece()
    }

    /// The bytes that came since the last text was taken.
    pub fn bytes(&self) -> &[u8]
        ensures { result.now ≡ self.now }
    {
        &self.bytes
    }

    /// The text that ended.
    pub fn text(&self) -> &[u8]
        requires { IsText (cut_of self.now) }
        ensures { result.now ≡ text_in (cut_of self.now) self.now }
    {
        match self.walk.piece() {
            Piece::Text(from, to) => part(&self.bytes, from, to),
            _ => unreachable!(),
        }
    }

    /// Goes on behind the text that ended. The byte that showed its end is taken with it where it is layout; a `%` is the first byte
    /// of what follows.
    pub fn restart(&mut self)
        requires { IsFollowed self.old }
        ensures rest { self.new ≡ rest_in (cut_of self.old) self.old }
        ensures ready { IsOpen self.new }
    {
        let last = self.bytes.len() - 1;
        let byte = self.bytes[last];
        if is_layout(byte) {
            self.bytes.clear();
            self.walk = Walk::new();
        } else {
            self.bytes[0] = byte;
            self.bytes.truncate(1);
            self.walk = Walk::new().step(Kind::of(byte));
        }
    }
}

fn part(bytes: &[u8], from: u64, to: u64) -> &[u8]
    requires order { from ≤ to }
    requires within { to ≤ length bytes.now }
    ensures { result.now ≡ slice_range bytes.now from to }
{
    &bytes[from as usize..to as usize]
}
