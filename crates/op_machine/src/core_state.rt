use crate::choice_points::Alternative;
use crate::continuations::Continuations;
use op_bind::{Bindings, Mark, Ref};
use op_frames::Frames;
use op_reader::Names;
use op_store::Store;
use op_term::Term;
use op_trace::Port;

/// How a run ended.
#[derive(Clone, Copy, Debug, PartialEq, Eq)]
pub enum Outcome {
    /// The wanted solution was found.
    Stopped,
    /// No alternative was left.
    Failed,
    /// The ball has left all boxes that had a choice point: this one is the next around them, or 0.
    Thrown { inner: u64 },
    /// The run was halted with a number.
    Halted { status: i64 },
    /// One more step would have passed the budget.
    Spent,
    /// So it was with a step of a builtin, and so many variables had been given out before it.
    Interrupted { variables: u64 },
}

/// What is done next.
#[derive(Clone, Copy, Debug)]
pub enum Mode {
    /// The items of a continuation, from its number.
    Forward { items: u64 },
    /// The last choice point.
    Backward,
    /// The ball goes up to the choice point of this box, or of one around it.
    Throwing { inner: u64 },
    /// Nothing.
    Over { outcome: Outcome },
}

/// What a move has shown.
#[derive(Clone, Copy, Debug, PartialEq, Eq)]
pub enum Step {
    Silent,
    Event,
    Solution,
}

/// The last event that was shown.
#[derive(Clone, Copy)]
pub struct Seen {
    pub chrono: u64,
    pub call: u64,
    pub parent: u64,
    pub depth: u64,
    pub port: Port,
    pub goal: Ref,
}

/// All that a machine keeps.
#[derive(Drop)]
pub struct Core {
    pub store: Store,
    pub bindings: Bindings,
    pub continuations: Continuations,
    pub frames: Frames<Alternative>,
    pub mode: Mode,
    // the ball that was thrown last
    pub ball: Option<Term>,
    pub seen: Seen,
    pub names: Names,
    // the variables that have names, made before all else
    pub values: Vec<Ref>,
    // the atom `fail`, made before all else
    pub failure: Ref,
    pub floor: Mark,
    pub calls: u64,
    pub conditions: u64,
    pub steps: u64,
    pub events: u64,
    pub solutions: u64,
    pub budget: u64,
    pub wanted: u64,
}
