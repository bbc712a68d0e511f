ghost use Rattle.std.specs.Prelude.{◌≡◌, ◌+◌, ◌<◌, ◌≤◌, ◌∷◌, length, OnOk, [], take, reverse, IfNone, MatchOption, ℕ};
ghost use Rattle.op_machine.specs.Meaning.{level_in, items_now, goal_now, bindings_now, choice_points_in, choice_point_by};
ghost use Rattle.op_machine.specs.inner.Invariant.{IsGood, IsKind, IsEarlier, HasItems, HasGoal, HasCalled, CanGrow};
ghost use Rattle.op_machine.specs.Program.{clauses_from, AreKnown};
ghost use Rattle.op_machine.specs.Resume.{keep, with_more};
ghost use Rattle.op_machine.specs.inner.Boxes.{IsTried, boxes_before};
ghost use Rattle.op_machine.specs.inner.Cuts.{frame_stays, frame_goes, keep_frames};
ghost use Rattle.op_bind.specs.State.{undone, mark_of, IsGoodMark};
ghost use Rattle.op_frames.specs.Frames.{open_from};

use crate::core_state::Core;
use op_base::Memory;
use op_bind::Ref;
use op_frames::Choice;
use op_store::Snapshot;
use op_trace::Barrier;

/// What is to be done on backtracking, with what it takes. A call is that of a box.
#[derive(Drop)]
pub enum ChoiceKind {
    /// A box that has exited is entered again.
    Redo {
        call: u64,
    },
    /// The second branch of a disjunction is tried; a cut in it cuts to the barrier.
    Branch {
        barrier: Barrier,
    },
    /// Further clauses of a box are tried: those that its procedure had at the call, from `next` on.
    More {
        call: u64,
        snapshot: Snapshot,
        next: u64,
    },
    /// A box has no alternative left.
    Fail {
        call: u64,
    },
    /// A box has no alternative left, and may catch a ball that comes out of it.
    Catch {
        call: u64,
    },
    /// The condition with this number has no solution, and the else branch is tried; a cut in it cuts to the barrier.
    Condition {
        number: u64,
        barrier: Barrier,
    },
}

/// What is left to do at a choice point, which is kept with it.
#[derive(Drop)]
pub struct Alternative {
    /// The goal of the box, or of the branch that is tried.
    pub goal: Ref,
    /// How many continuations there were when the choice point was made.
    pub continuations: u64,
    /// How many boxes had been called.
    pub calls: u64,
    pub kind: ChoiceKind,
}

// Whether a cut to a barrier comes to a choice point and keeps it.
fn stays(choice: &Choice<Alternative>, barrier: Barrier) -> bool
    ensures { result ≡ frame_stays choice.now barrier }
{
    match &choice.kept.kind {
        ChoiceKind::Redo { .. } => false,
        ChoiceKind::Branch { .. } => false,
        ChoiceKind::More { .. } => false,
        ChoiceKind::Fail { call } => barrier.is(Barrier::Call(*call)),
        ChoiceKind::Catch { call } => barrier.is(Barrier::Call(*call)),
        ChoiceKind::Condition { number, .. } => barrier.is(Barrier::InCondition(*number)),
    }
}

// Whether a cut to a barrier comes to a choice point and drops it as the last.
fn goes(choice: &Choice<Alternative>, barrier: Barrier) -> bool
    ensures { result ≡ frame_goes choice.now barrier }
{
    match &choice.kept.kind {
        ChoiceKind::Condition { number, .. } => barrier.is(Barrier::AtSuccess(*number)),
        _ => false,
    }
}

// How many of some choice points a cut to a barrier keeps.
fn kept_by(choices: &[Choice<Alternative>], barrier: Barrier) -> u64
    ensures within { result ≤ length choices.now }
    ensures kept { reverse (take result choices.now) ≡ keep_frames barrier (reverse choices.now) }
{
    let mut n = choices.len();
    while n > 0 {
        if stays(&choices[n - 1], barrier) {
            return n as u64;
        }
        if goes(&choices[n - 1], barrier) {
            return n as u64 - 1;
        }
        n -= 1;
    }
    0
}

impl Core {
    // A choice point above the others, made now.
    pub(crate) fn push_choice_point(
        &mut self,
        kind: ChoiceKind,
        goal: Ref,
        rest: u64,
    ) -> Result<(), Memory>
        requires good { IsGood self.old }
        requires there { HasItems self.old rest }
        requires goal { HasGoal self.old goal }
        requires kind { IsKind (length self.old.store.names) self.old.bindings.terms goal kind }
        requires tried { IsTried self.old.frames.boxes self.old.calls self.old.continuations kind goal rest }
        ensures choices { OnOk result (choice_points_in self.new
            ≡ choice_point_by self.old.store (level_in self.old) kind goal rest ∷ choice_points_in self.old) }
        ensures good { OnOk result (IsGood self.new) }
        ensures rest { self.new ≡ record self.old { frames = self.new.frames } }
        ensures boxes { self.new.frames.boxes ≡ self.old.frames.boxes }
    {
        let choice = self.choice_now(kind, goal, rest);
        self.frames.push_choice(choice)?;
        Ok(())
    }

    // A choice point of the present moment.
    pub(crate) fn choice_now(&self, kind: ChoiceKind, goal: Ref, rest: u64) -> Choice<Alternative>
        ensures mark { result.mark ≡ mark_of self.now.bindings }
        ensures good { IsGoodMark self.now.bindings result.mark }
        ensures rest { result.rest ≡ rest }
        ensures kept { result.kept ≡ record {
          goal = goal;
          continuations = length self.now.continuations;
          calls = self.now.calls;
          kind = kind;
        } }
    {
        let mark = self.bindings.mark();
        let continuations = self.continuations.len();
        let calls = self.calls;
        Choice {
            mark,
            rest,
            kept: Alternative {
                goal,
                continuations,
                calls,
                kind,
            },
        }
    }

    // Clauses from one on are tried, where there are any.
    pub(crate) fn push_more(
        &mut self,
        snapshot: &Snapshot,
        next: u64,
        call: u64,
        goal: Ref,
        rest: u64,
    ) -> Result<(), Memory>
        requires good { IsGood self.old }
        requires there { HasItems self.old rest }
        requires goal { HasGoal self.old goal }
        requires known { AreKnown (length self.old.store.names) snapshot.now }
        requires called { HasCalled self.old call goal rest }
        ensures choices { OnOk result (choice_points_in self.new
            ≡ with_more (clauses_from self.old.store snapshot.now next) call (goal_now self.old goal)
            (bindings_now self.old) (items_now self.old rest) (choice_points_in self.old)) }
        ensures good { OnOk result (IsGood self.new) }
        ensures rest { self.new ≡ record self.old { frames = self.new.frames } }
        ensures boxes { self.new.frames.boxes ≡ self.old.frames.boxes }
    {
        if next < snapshot.len() {
            let snapshot = snapshot.copy()?;
            self.push_choice_point(
                ChoiceKind::More {
                    call,
                    snapshot,
                    next,
                },
                goal,
                rest,
            )?;
        }
        Ok(())
    }

    // The last choice point, which is dropped.
    pub(crate) fn pop_choice_point(&mut self) -> Option<Choice<Alternative>>
        ensures frames { MatchOption result (reverse self.old.frames.choices ≡ [])
            (λ f. reverse self.old.frames.choices ≡ f ∷ reverse self.new.frames.choices) }
        ensures empty { IfNone result (reverse self.new.frames.choices ≡ []) }
        ensures rest { self.new ≡ record self.old { frames = self.new.frames } }
        ensures boxes { self.new.frames.boxes ≡ self.old.frames.boxes }
    {
        self.frames.pop_choice()
    }

    // Back to the bindings, the continuations and the boxes that were there when a choice point was made.
    pub(crate) fn restore(&mut self, choice: &Choice<Alternative>)
        requires earlier { IsEarlier choice.now (level_in self.old) }
        requires some { 0 < choice.now.kept.continuations }
        requires calls { CanGrow choice.now.kept.calls }
        ensures back { self.new ≡ record self.old {
          bindings = undone self.old.bindings choice.now.mark;
          continuations = take choice.now.kept.continuations self.old.continuations;
          frames = record self.old.frames { boxes = boxes_before (choice.now.kept.calls + 1) self.old.frames.boxes };
        } }
        ensures stays { (n : ℕ) → n < choice.now.kept.calls + 1
            → open_from (boxes_before (choice.now.kept.calls + 1) self.old.frames.boxes) n ≡ open_from self.old.frames.boxes n }
    {
        self.bindings.undo_to(choice.mark);
        self.continuations.cut(choice.kept.continuations);
        self.frames.drop_boxes(choice.kept.calls + 1);
    }

    // A cut is made at once: what it drops is freed.
    pub(crate) fn make_cut(&mut self, barrier: Barrier)
        requires good { IsGood self.old }
        ensures choices { choice_points_in self.new ≡ keep barrier (choice_points_in self.old) }
        ensures good { IsGood self.new }
        ensures rest { self.new ≡ record self.old { frames = self.new.frames } }
        ensures boxes { self.new.frames.boxes ≡ self.old.frames.boxes }
    {
        let kept = kept_by(self.frames.choices(), barrier);
        self.frames.cut_to(kept);
    }
}
