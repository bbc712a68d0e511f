ghost use Rattle.std.specs.Prelude.{◌≡◌, ◌<◌, ◌≤◌, ◌∷◌, [], length, take, filter, nat_lt, reverse, slice_index_or, IfSome, IfNone};
ghost use Rattle.op_frames.specs.Frames.{chain, AreRising};

use op_bind::{Mark, Ref};

/// A box that was called: its number and that of the box that it was called in, 0 at the top; its goal, and the bindings at its call.
#[derive(Clone, Copy)]
pub struct BoxFrame {
    pub number: u64,
    pub parent: u64,
    pub goal: Ref,
    pub mark: Mark,
}

// The box with a number, and its place.
pub(crate) fn find(boxes: &[BoxFrame], number: u64) -> Option<(usize, BoxFrame)>
    requires { AreRising boxes.now }
    ensures none { IfNone result (chain (reverse boxes.now) number ≡ []) }
    ensures there { IfSome result (λ p. p.0 < length boxes.now) }
    ensures some { IfSome result (λ p. chain (reverse boxes.now) number
        ≡ (number, p.1.goal) ∷ chain (reverse (take p.0 boxes.now)) p.1.parent) }
    ensures at { IfSome result (λ p. slice_index_or boxes.now p.0 p.1 ≡ p.1) }
    ensures number { IfSome result (λ p. p.1.number ≡ number) }
{
    if number == 0 {
        return None;
    }
    let end = boxes.partition_point(|b| b.number <= number);
    if end == 0 {
        return None;
    }
    let frame = boxes[end - 1];
    if frame.number != number {
        return None;
    }
    Some((end - 1, frame))
}

// How many boxes have a number below this one.
pub(crate) fn count_below(boxes: &[BoxFrame], from: u64) -> usize
    requires { AreRising boxes.now }
    ensures within { result ≤ length boxes.now }
    ensures first { filter (λ (b : BoxFrame). nat_lt b.number from) boxes.now ≡ take result boxes.now }
{
    boxes.partition_point(|b| b.number < from)
}
