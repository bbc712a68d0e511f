ghost use Rattle.std.specs.Iterator.{YieldsFirst, item_count};

use crate::boxes::{BoxFrame, find};
use op_bind::Ref;
use std::marker::Model;

/// A box with its goal, then the box that it was called in, and so on, inner to outer. It takes no memory.
#[derive(Drop)]
pub struct OpenBoxes<'a> {
    pub(crate) boxes: &'a [BoxFrame],
    pub(crate) number: u64,
}

impl<'a> Model for OpenBoxes<'a> {
    ghost use Rattle.std.specs.Prelude.{ℕ, List};

    ghost Value = { List (ℕ × ℕ) };

    ghost use Rattle.op_frames.specs.Frames.{open_from, AreRising};

    ghost view = { λ it. open_from it.boxes.now it.number };

    ghost invariant = { λ it. AreRising it.boxes.now };
}

impl<'a> Iterator for OpenBoxes<'a> {
    type Item = (u64, Ref);

    ghost next_gives = { YieldsFirst (λ rest. rest) };

    ghost remaining = { item_count (λ rest. rest) };

    fn next(&mut self) -> Option<(u64, Ref)> {
        let (place, frame) = find(self.boxes, self.number)?;
        self.boxes = &self.boxes[..place];
        let number = self.number;
        self.number = frame.parent;
        Some((number, frame.goal))
    }
}
