ghost use Rattle.std.specs.Prelude.{◌≡◌, ◌<◌, ◌≤◌, ◌∷◌, length, IfOk, OnOk, [], take, IfNone, MatchOption, ◌++◌, OnErr, IfSome};
ghost use Rattle.op_machine.specs.Meaning.{level_in, items_now, choice_points_in, item_term};
ghost use Rattle.op_machine.specs.inner.Invariant.{IsGood, IsItem, HasItems, CanGrow};
ghost use Rattle.op_machine.specs.inner.Boxes.{IsEntered};
ghost use Rattle.op_machine.specs.inner.Continuations.{continuation_in, continuations_of, only_empty, opened, AreLinked, Begins};
ghost use Rattle.op_trace.specs.World.{head_number};

use crate::core_state::Core;
use op_base::Memory;
use op_bind::Ref;
use op_trace::Barrier;
use std::alloc::Global;
use std::marker::Model;

/// What is still to be done.
#[derive(Clone, Copy)]
pub enum Item {
    /// A goal; a cut in it cuts to this barrier.
    Goal { goal: Ref, barrier: Barrier },
    /// The cut of a condition that has succeeded.
    Cut { barrier: Barrier },
    /// The exit of a box that was called with a goal.
    Exit { call: u64, goal: Ref },
    /// The first execution of the goal that a box was called with, which has no procedure.
    Execute { call: u64, goal: Ref },
    /// The execution of the recovery of the goal of catch/3 that a box was called with.
    Recover { call: u64, goal: Ref },
}

/// An item before a continuation, with the innermost box that is open behind it and how many there are.
#[derive(Clone, Copy)]
pub struct Cell {
    pub item: Item,
    pub rest: u64,
    pub parent: u64,
    pub depth: u64,
}

/// Continuations that share their ends. A clause sees them one after another, each at its number; continuation 0 is empty.
#[derive(Drop)]
pub struct Continuations {
    cells: Vec<Cell>,
}

impl Model for Continuations {
    ghost use Rattle.std.specs.Prelude.{List, ℕ};
    ghost use Rattle.op_machine.specs.declared.continuations.Item.{Item};

    ghost Value = { List (List Item) };

    ghost use Rattle.op_machine.specs.inner.Continuations.{continuations_of, AreLinked, only_empty};

    ghost view = { λ l. continuations_of l.cells.items };

    ghost invariant = { λ l. AreLinked only_empty l.cells.items };
}

impl Continuations {
    /// The empty continuation alone.
    pub fn new(alloc: Global) -> Continuations
        ensures { result ≡ [] ∷ [] }
    {
        Continuations {
            cells: Vec::new(alloc),
        }
    }

    /// Puts an item before a continuation, and gives the number of the continuation that begins with it.
    pub fn add(&mut self, item: Item, rest: u64) -> Result<u64, Memory>
        requires { rest < length self.old }
        ensures number { IfOk result (λ n. n ≡ length self.old) }
        ensures ok { OnOk result (self.new ≡ self.old ++ (item ∷ continuation_in self.old rest) ∷ []) }
        ensures err { OnErr result (self.new ≡ self.old) }
    {
        let (parent, depth) = opened_before(&self.cells, &item, rest);
        self.cells.push(Cell {
            item,
            rest,
            parent,
            depth,
        })?;
        Ok(self.cells.len() as u64)
    }

    /// How many continuations there are.
    pub fn len(&self) -> u64
        ensures count { result ≡ length self.now }
        ensures some { 0 < result }
    {
        self.cells.len() as u64 + 1
    }

    /// Keeps the first `n` continuations.
    pub fn cut(&mut self, n: u64)
        requires some { 0 < n }
        requires there { n ≤ length self.old }
        ensures { self.new ≡ take n self.old }
    {
        self.cells.truncate(n as usize - 1);
    }

    /// The first item of a continuation, and the number of the continuation behind it.
    pub fn first(&self, n: u64) -> Option<(Item, u64)>
        requires { n < length self.now }
        ensures there { MatchOption result (continuation_in self.now n ≡ [])
            (λ p. continuation_in self.now n ≡ p.0 ∷ continuation_in self.now p.1) }
        ensures within { IfSome result (λ p. p.1 < n) }
    {
        match cell_at(&self.cells, n) {
            Some(cell) => Some((cell.item, cell.rest)),
            None => None,
        }
    }

    /// The innermost box that is open in a continuation, or 0.
    pub fn parent(&self, n: u64) -> u64
        requires { n < length self.now }
        ensures { result ≡ head_number (opened (continuation_in self.now n)) }
    {
        opened_at(&self.cells, n).0
    }

    /// How many boxes are open in a continuation.
    pub fn depth(&self, n: u64) -> u64
        requires { n < length self.now }
        ensures count { result ≡ length (opened (continuation_in self.now n)) }
        ensures small { CanGrow result }
    {
        opened_at(&self.cells, n).1
    }
}

fn cell_at(cells: &Vec<Cell>, n: u64) -> Option<Cell>
    requires there { n < length (continuations_of cells.now.items) }
    requires linked { AreLinked only_empty cells.now.items }
    ensures empty { IfNone result (continuation_in (continuations_of cells.now.items) n ≡ []) }
    ensures begins { IfSome result (Begins (continuations_of cells.now.items) n) }
{
    if n == 0 {
        return None;
    }
    Some(cells[n as usize - 1])
}

// the innermost open box, and how many are open
fn opened_at(cells: &Vec<Cell>, n: u64) -> (u64, u64)
    requires there { n < length (continuations_of cells.now.items) }
    requires linked { AreLinked only_empty cells.now.items }
    ensures parent { result.0 ≡ head_number (opened (continuation_in (continuations_of cells.now.items) n)) }
    ensures depth { result.1 ≡ length (opened (continuation_in (continuations_of cells.now.items) n)) }
    ensures shallow { result.1 ≤ n }
    ensures small { CanGrow result.1 }
{
    match cell_at(cells, n) {
        Some(cell) => (cell.parent, cell.depth),
        None => (0, 0),
    }
}

fn opened_before(cells: &Vec<Cell>, item: &Item, rest: u64) -> (u64, u64)
    requires there { rest < length (continuations_of cells.now.items) }
    requires linked { AreLinked only_empty cells.now.items }
    ensures parent { result.0 ≡ head_number (opened (item.now ∷ continuation_in (continuations_of cells.now.items) rest)) }
    ensures depth { result.1 ≡ length (opened (item.now ∷ continuation_in (continuations_of cells.now.items) rest)) }
{
    let (parent, depth) = opened_at(cells, rest);
    match item {
        Item::Goal { .. } => (parent, depth),
        Item::Cut { .. } => (parent, depth),
        Item::Exit { call, .. } => (*call, depth + 1),
        Item::Execute { call, .. } => (*call, depth + 1),
        Item::Recover { call, .. } => (*call, depth + 1),
    }
}

impl Core {
    // A continuation that begins with an item.
    pub(crate) fn add(&mut self, item: Item, rest: u64) -> Result<u64, Memory>
        requires good { IsGood self.old }
        requires item { IsItem (length self.old.store.names) self.old.bindings.terms item }
        requires there { HasItems self.old rest }
        requires entered { IsEntered self.old.frames.boxes self.old.calls self.old.continuations item rest }
        ensures within { IfOk result (λ n. HasItems self.new n) }
        ensures items { IfOk result (λ n. items_now self.new n
            ≡ item_term self.old.store (level_in self.old) item ∷ items_now self.old rest) }
        ensures choices { OnOk result (choice_points_in self.new ≡ choice_points_in self.old) }
        ensures good { OnOk result (IsGood self.new) }
        ensures rest { self.new ≡ record self.old { continuations = self.new.continuations } }
    {
        Ok(self.continuations.add(item, rest)?)
    }
}
