ghost use Rattle.std.specs.Prelude.{◌≡◌, ◌<◌, ◌++◌, ◌∷◌, [], ℕ, length, take, filter, nat_lt};
ghost use Rattle.std.specs.Prelude.{All, OnOk, OnErr, IfNone, IfSome, MatchOption};
ghost use Rattle.op_frames.specs.Frames.{open_from, AreFalling};

use crate::boxes::{BoxFrame, count_below, find};
use crate::choice::Choice;
use crate::open_boxes::OpenBoxes;
use op_base::Memory;
use op_bind::{Mark, Ref};
use std::alloc::Global;
use std::marker::Model;

/// Boxes by rising number, and choice points, each in the order in which they were made.
#[derive(Drop)]
pub struct Frames<T> {
    boxes: Vec<BoxFrame>,
    choices: Vec<Choice<T>>,
}

impl<T> Model for Frames<T> {
    ghost use Rattle.op_frames.specs.Frames.{Framed, AreRising, HaveLowerParents};

    ghost Value = { Framed T };

    ghost view = { λ f. record { boxes = f.boxes.items; choices = f.choices.items } };

    ghost invariant = { λ f. AreRising f.boxes.items × HaveLowerParents f.boxes.items };
}

impl<T: Drop> Frames<T> {
    /// No box and no choice point.
    pub fn new(alloc: Global) -> Frames<T>
        ensures boxes { result.boxes ≡ [] }
        ensures choices { result.choices ≡ [] }
    {
        Frames {
            boxes: Vec::new(alloc),
            choices: Vec::new(alloc),
        }
    }

    /// Adds a box that is called with a goal inside the box `parent`, which has a lesser number, or at the top for 0.
    pub fn push_box(
        &mut self,
        number: u64,
        parent: u64,
        goal: Ref,
        mark: Mark,
    ) -> Result<(), Memory>
        requires rises { All (λ (b : BoxFrame). b.number < number) self.old.boxes }
        requires below { parent < number }
        ensures ok { OnOk result (self.new ≡ record self.old {
          boxes = self.old.boxes ++ record { number = number; parent = parent; goal = goal; mark = mark } ∷ [];
        }) }
        ensures err { OnErr result (self.new ≡ self.old) }
    {
        self.boxes.push(BoxFrame {
            number,
            parent,
            goal,
            mark,
        })?;
        Ok(())
    }

    /// Drops the boxes whose number is at least `from`: the open boxes of a lesser number stay.
    pub fn drop_boxes(&mut self, from: u64)
        ensures boxes { self.new ≡ record self.old { boxes = filter (λ (b : BoxFrame). nat_lt b.number from) self.old.boxes } }
        ensures stays { (n : ℕ) → n < from → open_from self.new.boxes n ≡ open_from self.old.boxes n }
    {
        let kept = count_below(&self.boxes, from);
        self.boxes.truncate(kept);
    }

    /// Adds a choice point.
    pub fn push_choice(&mut self, choice: Choice<T>) -> Result<(), Memory>
        ensures ok { OnOk result (self.new ≡ record self.old { choices = self.old.choices ++ choice ∷ [] }) }
        ensures err { OnErr result (self.new ≡ self.old) }
    {
        self.choices.push(choice)?;
        Ok(())
    }

    /// Takes the last choice point; None where there is none.
    pub fn pop_choice(&mut self) -> Option<Choice<T>>
        ensures choices { MatchOption result (self.old.choices ≡ []) (λ c. self.old.choices ≡ self.new.choices ++ c ∷ []) }
        ensures none { MatchOption result (self.new ≡ self.old) (λ c. self.new ≡ record self.old { choices = self.new.choices }) }
    {
        self.choices.pop()
    }

    /// Keeps the first `barrier` choice points, and frees the others.
    pub fn cut_to(&mut self, barrier: u64)
        ensures { self.new ≡ record self.old { choices = take barrier self.old.choices } }
    {
        self.choices.truncate(barrier as usize);
    }

    /// The choice points, in the order in which they were made.
    pub fn choices(&self) -> &[Choice<T>]
        ensures { result.now ≡ self.now.choices }
    {
        &self.choices
    }

    /// The box that the box of a number was called in, or 0 for the top; None where there is no such box.
    pub fn parent(&self, number: u64) -> Option<u64>
        ensures none { IfNone result (open_from self.now.boxes number ≡ []) }
        ensures some { IfSome result (λ p. (goal : ℕ) × (open_from self.now.boxes number
            ≡ (number, goal) ∷ open_from self.now.boxes p)) }
        ensures below { IfSome result (λ p. p < number) }
        ensures falls { AreFalling (open_from self.now.boxes number) }
    {
        let (_, frame) = find(&self.boxes, number)?;
        Some(frame.parent)
    }

    /// The box of a number with its goal, its parent and so on, inner to outer; none for 0.
    pub fn open_boxes(&self, number: u64) -> OpenBoxes<'_>
        ensures chain { result ≡ open_from self.now.boxes number }
        ensures falls { AreFalling result }
    {
        OpenBoxes {
            boxes: &self.boxes,
            number,
        }
    }
}
