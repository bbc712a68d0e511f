ghost use Rattle.std.specs.Prelude.{◌≡◌, ◌<◌, ◌≤◌, length, take, reverse, false, true, IfSome, IfNone, IfOk};
ghost use Rattle.op_trace.specs.Visit.{is_open, around};
ghost use Rattle.op_machine.specs.Meaning.{open_in, level_in};
ghost use Rattle.op_machine.specs.inner.Boxes.{IsTried};
ghost use Rattle.op_machine.specs.inner.Invariant.{IsGood, IsFrame, HasItems, HasGoal, CanGrow};
ghost use Rattle.op_machine.specs.inner.Leaving.{left_frames, kind_leaves, BeginsLeft, IsLeft, IsOwn, box_left, box_reached};
ghost use Rattle.op_machine.specs.inner.Moves.{Keeps, Advances, ball_moved};
ghost use Rattle.op_machine.specs.declared.core_state.Mode.TheVariants as mode;

use crate::choice_points::{Alternative, ChoiceKind};
use crate::core_state::{Core, Mode, Outcome, Step};
use op_base::Memory;
use op_bind::Ref;
use op_frames::{Choice, Frames};
use op_trace::Port;

/// How many choice points are left below a ball, the last of which is that of the next box that it leaves: the call of this box, and the
/// box around it, or 0. Where none is left, the box says nothing.
#[derive(Clone, Copy)]
pub struct Leaving {
    pub kept: u64,
    pub call: u64,
    pub around: u64,
}

// The box around one that is open in another, or 0 at the top.
fn around_open(frames: &Frames<Alternative>, call: u64, inner: u64) -> Option<u64>
    ensures no { IfNone result (is_open call (open_in frames.now inner) ≡ false) }
    ensures yes { IfSome result (λ n. is_open call (open_in frames.now inner) ≡ true) }
    ensures around { IfSome result (λ n. open_in frames.now n ≡ around call (open_in frames.now inner)) }
    ensures below { IfSome result (λ n. n < call) }
{
    let mut at = inner;
    'up: loop {
        let outer = frames.parent(at)?;
        if at == call {
            return Some(outer);
        }
        if at < call {
            return None;
        }
        at = outer;
    }
}

// Where a choice point is that of a box that is open in another: the box, and the one around it.
fn left_at(
    frames: &Frames<Alternative>,
    choice: &Choice<Alternative>,
    inner: u64,
) -> Option<(u64, u64)>
    ensures no { IfNone result (kind_leaves (open_in frames.now inner) choice.now.kept.kind ≡ false) }
    ensures yes { IfSome result (λ p. kind_leaves (open_in frames.now inner) choice.now.kept.kind ≡ true) }
    ensures left { IfSome result (λ p. IsLeft frames.now inner p.0 p.1 choice.now) }
{
    match &choice.kept.kind {
        ChoiceKind::Fail { call } => Some((*call, around_open(frames, *call, inner)?)),
        ChoiceKind::Catch { call } => Some((*call, around_open(frames, *call, inner)?)),
        _ => None,
    }
}

// The choice points that are left below a ball which goes up from a box.
fn next_leaving(frames: &Frames<Alternative>, inner: u64) -> Leaving
    ensures within { result.kept ≤ length frames.now.choices }
    ensures left { reverse (take result.kept frames.now.choices)
        ≡ left_frames (open_in frames.now inner) (reverse frames.now.choices) }
    ensures begins { BeginsLeft frames.now inner result (reverse (take result.kept frames.now.choices)) }
{
    let choices = frames.choices();
    let mut n = choices.len();
    while n > 0 {
        if let Some((call, around)) = left_at(frames, &choices[n - 1], inner) {
            return Leaving {
                kept: n as u64,
                call,
                around,
            };
        }
        n -= 1;
    }
    Leaving {
        kept: 0,
        call: 0,
        around: 0,
    }
}

impl Core {
    // A ball comes to the next open box, which shows it or catches it; where there is none, it is the end.
    pub(crate) fn leave_box(&mut self, inner: u64) -> Result<Step, Memory>
        requires good { IsGood self.old }
        requires fits { CanGrow self.old.events }
        requires calls { CanGrow self.old.calls }
        requires steps { self.old.steps ≤ self.old.budget }
        requires mode { self.old.mode ≡ mode.Throwing inner }
        ensures advances { IfOk result (Advances self.old self.new (ball_moved self.old inner)) }
        ensures keeps { Keeps self.old self.new }
    {
        let next = next_leaving(&self.frames, inner);
        self.frames.cut_to(next.kept);
        match self.pop_choice_point() {
            Some(choice) => {
                self.restore(&choice);
                self.reach_box(&choice, next.call, next.around)
            }
            None => {
                self.mode = Mode::Over {
                    outcome: Outcome::Thrown { inner },
                };
                Ok(Step::Silent)
            }
        }
    }

    // A ball has come to a box, at the moment at which the box's choice point was made.
    fn reach_box(
        &mut self,
        choice: &Choice<Alternative>,
        call: u64,
        around: u64,
    ) -> Result<Step, Memory>
        requires good { IsGood self.old }
        requires fits { CanGrow self.old.events }
        requires steps { self.old.steps ≤ self.old.budget }
        requires frame { IsFrame self.old.store (level_in self.old) choice.now }
        requires own { IsOwn call choice.now.kept.kind }
        requires calls { choice.now.kept.calls ≤ self.old.calls }
        requires tried { IsTried self.old.frames.boxes choice.now.kept.calls self.old.continuations choice.now.kept.kind
            choice.now.kept.goal choice.now.rest }
        ensures advances { IfOk result (Advances self.old self.new
            (box_reached self.old choice.now.kept.kind call choice.now.kept.goal choice.now.rest around)) }
        ensures keeps { Keeps self.old self.new }
    {
        let goal = choice.kept.goal;
        match &choice.kept.kind {
            ChoiceKind::Catch { .. } => self.meet_ball(call, goal, choice.rest, around),
            _ => Ok(self.show_and_go_up(call, goal, choice.rest, around)),
        }
    }

    // A box shows the ball that leaves it, and the ball goes on up.
    pub(crate) fn show_and_go_up(&mut self, call: u64, goal: Ref, rest: u64, around: u64) -> Step
        requires good { IsGood self.old }
        requires fits { CanGrow self.old.events }
        requires there { HasItems self.old rest }
        requires goal { HasGoal self.old goal }
        ensures advances { Advances self.old self.new (box_left self.old call goal rest around) result }
        ensures keeps { Keeps self.old self.new }
    {
        self.show_event(Port::Exception, call, goal, rest);
        self.mode = Mode::Throwing { inner: around };
        Step::Event
    }
}
