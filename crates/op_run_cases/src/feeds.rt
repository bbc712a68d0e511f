ghost use Rattle.std.specs.Prelude.{◌≡◌, ◌<◌, ◌≤◌, length, IfSome};
ghost use Rattle.op_store.specs.Queries.{IsSoundGoal};
ghost use Rattle.op_machine.specs.Machine.{HasBallNames};

use crate::runs::{add_event, goal_behind};
use crate::turns::add_ending;
use op_base::{Memory, Steps};
use op_case_lines::Line;
use op_desk::{Bytes, Desk, MemoryDesk, Shelf};
use op_retrace::{Feed, FeedStep, Retrace};
use op_store::{Goal, Locked, Store};
use std::alloc::Global;
use std::marker::Brand;
use std::sync::ledger::{Blank, Ledger};

// Adds the event at which a feed stands.
fn add_shown<F: Feed>(line: &mut Line, feed: &F) {
    if let Some(view) = feed.event() {
        add_event(line, &view);
    }
}

// Adds how the run of a feed ended.
fn add_end<F: Feed>(alloc: Global, line: &mut Line, feed: &F) -> Result<(), Memory>
    requires { IfSome (F.fed feed.now).ending (HasBallNames (length (F.fed feed.now).machine.tables.names)) }
{
    if let Some(ending) = feed.ending() {
        add_ending(alloc, line, feed.machine(), ending)?;
    }
    Ok(line.add("|"))
}

// Goes on, and adds what comes.
fn go_on<F: Feed, D: Desk, L: Ledger>(
    alloc: Global,
    line: &mut Line,
    feed: &mut F,
    desk: &mut D,
    steps: &mut Steps<L>,
) -> Result<(), Memory> {
    match feed.advance(desk, steps) {
        Ok(FeedStep::Event) => Ok(add_shown(line, feed)),
        Ok(FeedStep::End) => {
            let _place = feed.place();
            add_end(alloc, line, feed)
        }
        Err(_) => Err(Memory),
    }
}

// Goes back to the start, and adds the furthest place.
fn go_back<F: Feed>(line: &mut Line, feed: &mut F) -> Result<(), Memory> {
    if feed.reset().is_err() {
        return Err(Memory);
    }
    line.add_number("", feed.place());
    line.add_number(" of ", feed.furthest());
    line.add("|");
    Ok(())
}

// An `r` goes back, and each other letter on.
fn add_moves<F: Feed, D: Desk, L: Ledger>(
    alloc: Global,
    line: &mut Line,
    feed: &mut F,
    desk: &mut D,
    steps: &mut Steps<L>,
    moves: &[u8],
) -> Result<(), Memory> {
    'moves: for letter in moves {
        if *letter == b'r' {
            go_back(line, feed)?;
        } else {
            go_on(alloc, line, feed, desk, steps)?;
        }
    }
    Ok(())
}

fn feed_by<L: Ledger>(
    alloc: Global,
    line: &mut Line,
    feed: &mut Retrace,
    blank: Blank,
    moves: &[u8],
) -> Result<(), Memory>
    requires name { blank.name ≡ L.name }
    requires parts { blank.parts ≡ L.parts }
    requires some { 0 < L.parts }
{
    let mut steps = Steps::<L>::new(blank);
    let shelf = Shelf::new(alloc);
    let mut desk = MemoryDesk::new(
        alloc,
        shelf,
        Bytes::new(alloc),
        Bytes::new(alloc),
        Vec::new(alloc),
    );
    add_moves(alloc, line, feed, &mut desk, &mut steps, moves)
}

fn add_feed(
    alloc: Global,
    line: &mut Line,
    feed: &mut Retrace,
    moves: &[u8],
) -> Result<(), Memory> {
    feed_by::<Brand>(alloc, line, feed, Blank::new(1), moves)
}

// A feed of a goal that was read.
fn goal_feed(
    alloc: Global,
    line: &mut Line,
    store: Store,
    goal: Goal,
    budget: u64,
    wanted: u64,
    moves: &[u8],
) -> Result<(), Memory>
    requires goal { IsSoundGoal (length store.names) goal }
    requires some { 1 ≤ budget }
    requires bounded { budget ≤ 1000000000 }
{
    let mut feed = Retrace::new(alloc, store, goal, budget, wanted)?;
    add_feed(alloc, line, &mut feed, moves)
}

fn store_feed(
    alloc: Global,
    line: &mut Line,
    program: &[u8],
    goal: &[u8],
    budget: u64,
    wanted: u64,
    moves: &[u8],
) -> Result<(), Memory>
    requires some { 1 ≤ budget }
    requires bounded { budget ≤ 1000000000 }
{
    let mut store = Store::new(alloc, Locked::Program)?;
    match goal_behind(&mut store, program, goal) {
        Ok(goal) => goal_feed(alloc, line, store, goal, budget, wanted, moves),
        Err(word) => Ok(line.add(word)),
    }
}

/// What the moves of a feed over a run come to.
pub fn feed(
    alloc: Global,
    line: &mut Line,
    program: &[u8],
    goal: &[u8],
    budget: u64,
    wanted: u64,
    moves: &[u8],
) -> Result<(), Memory> {
    if budget < 1 || budget > 1_000_000_000 {
        return Ok(line.add("no budget"));
    }
    store_feed(alloc, line, program, goal, budget, wanted, moves)
}
