//! Laws of the open boxes, each as the contract of a function that does nothing.

ghost use Rattle.std.specs.Prelude.{◌≡◌, ◌<◌, ◌++◌, ◌∷◌, [], List, ℕ, filter, nat_lt};
ghost use Rattle.op_frames.specs.declared.boxes.BoxFrame.{BoxFrame};
ghost use Rattle.op_frames.specs.Frames.{open_from, AreRising, HaveLowerParents, AreFalling};

/// A box that is pushed comes before its parent and the boxes around it, and the chain of a lesser number stays.
pub fn chains_grow()
    ensures begins { (B : List BoxFrame) (b : BoxFrame) → 0 < b.number → open_from (B ++ b ∷ []) b.number
        ≡ (b.number, b.goal) ∷ open_from B b.parent }
    ensures stays { (B : List BoxFrame) (b : BoxFrame) (n : ℕ) → n < b.number → open_from (B ++ b ∷ []) n ≡ open_from B n }
{}

/// The chain of a number stays where boxes of greater numbers are dropped.
pub fn chains_stay()
    ensures { (B : List BoxFrame) (d n : ℕ) → AreRising B → n < d → open_from (filter (λ (b : BoxFrame). nat_lt b.number d) B) n
        ≡ open_from B n }
{}

/// Where each box was called in one of lesser number, no box comes twice in a chain: the numbers fall strictly.
pub fn chains_fall()
    ensures { (B : List BoxFrame) (n : ℕ) → HaveLowerParents B → AreFalling (open_from B n) }
{}
