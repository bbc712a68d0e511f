ghost use Rattle.std.specs.Prelude.{◌≡◌, []};

use op_base::Memory;
use op_bind::{Bindings, Mark, Ref};
use op_case_lines::Line;
use op_frames::{Choice, Frames};
use op_term::Builder;
use std::alloc::Global;

// A variable as a goal.
fn variable(alloc: Global, bindings: &mut Bindings) -> Result<Ref, Memory> {
    let first = bindings.fresh(1)?;
    let mut builder = Builder::new(alloc);
    let root = builder.var(0)?;
    bindings.load(&builder.finish(root), first)
}

// Box 1 at the top, 2 and 3 in it, 5 in 3.
fn push_boxes(frames: &mut Frames<u64>, goal: Ref, mark: Mark) -> Result<(), Memory>
    requires { frames.old.boxes ≡ [] }
{
    frames.push_box(1, 0, goal, mark)?;
    frames.push_box(2, 1, goal, mark)?;
    frames.push_box(3, 1, goal, mark)?;
    frames.push_box(5, 3, goal, mark)
}

/// Of the boxes 1, 2 and 3 in it, and 5 in 3, the open ones of a number, inner to outer, once those from another number on are dropped.
pub fn open_boxes(alloc: Global, line: &mut Line, from: u64, number: u64) -> Result<(), Memory> {
    let mut bindings = Bindings::new(alloc);
    let goal = variable(alloc, &mut bindings)?;
    let mut frames: Frames<u64> = Frames::new(alloc);
    push_boxes(&mut frames, goal, bindings.mark())?;
    frames.drop_boxes(from);
    'boxes: for (open, _) in frames.open_boxes(number) {
        line.add_number("", open);
        line.add(" ");
    }
    Ok(())
}

fn push_choices(frames: &mut Frames<u64>, mark: Mark) -> Result<(), Memory> {
    for rest in 0..4 {
        frames.push_choice(Choice {
            mark,
            rest,
            kept: rest,
        })?;
    }
    Ok(())
}

/// Of four choice points how many a cut leaves, and what they keep, the last first.
pub fn choices(alloc: Global, line: &mut Line, barrier: u64) -> Result<(), Memory> {
    let mut frames: Frames<u64> = Frames::new(alloc);
    push_choices(&mut frames, Bindings::new(alloc).mark())?;
    frames.cut_to(barrier);
    line.add_number("", frames.choices().len() as u64);
    line.add(":");
    for _ in 0..5 {
        if let Some(choice) = frames.pop_choice() {
            line.add_number(" ", choice.kept);
        }
    }
    Ok(())
}
