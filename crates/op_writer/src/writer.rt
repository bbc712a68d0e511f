ghost use Rattle.std.specs.Prelude.{◌≡◌, ◌≤◌, ◌<◌, ◌+◌, ◌++◌, ◌∷◌, [], length, reverse, MatchOption, OnOk, IfOk};
ghost use Rattle.op_writer.specs.Cut.{front_of};
ghost use Rattle.op_writer.specs.Fragments.{spaced};
ghost use Rattle.op_writer.specs.Text.{text_in};
ghost use Rattle.op_logic.specs.Names.{named};
ghost use Rattle.op_writer.specs.inner.Stack.{AreGood, IsGood, IsGoodPlace, ways_of, fragments, fragments_of, weights, weight};

use crate::bound::Bound;
use crate::item::Item;
use crate::setting::Setting;
use crate::stack::push;
use crate::written::Written;
use crate::{expand, rest};
use op_base::Memory;
use op_desk::Bytes;
use op_term::Tree;
use std::alloc::Global;

// The uppermost item.
fn take<P: Copy>(stack: &mut Vec<Item<P>>) -> Option<Item<P>>
    ensures { MatchOption result (reverse stack.old.items ≡ []) (λ item. reverse stack.old.items ≡ item ∷ reverse stack.new.items) }
{
    stack.pop()
}

// Writes a fragment, or puts the items of a term in its place.
fn step<T: Tree>(
    setting: &Setting<'_>,
    tree: &T,
    item: Item<T::At>,
    stack: &mut Vec<Item<T::At>>,
    written: &mut Written,
) -> Result<(), Memory>
    requires room { length written.old.front.bytes ≤ written.old.front.limit }
    requires item { IsGood (T.term tree.now) (T.IsPlace tree.now) (length setting.now.symbols.now) item }
    requires good { AreGood (T.term tree.now) (T.IsPlace tree.now) (length setting.now.symbols.now) (reverse stack.old.items) }
    ensures same { OnOk result (front_of written.old.front.limit (written.new.front.bytes
        ++ spaced written.new.edge (fragments (T.term tree.now) (ways_of setting.now) (reverse stack.new.items)))
        ≡ front_of written.old.front.limit (written.old.front.bytes
        ++ spaced written.old.edge (fragments_of (T.term tree.now) (ways_of setting.now) item
        ++ fragments (T.term tree.now) (ways_of setting.now) (reverse stack.old.items)))) }
    ensures within { OnOk result (length written.new.front.bytes ≤ 1 + written.old.front.limit) }
    ensures limit { written.new.front.limit ≡ written.old.front.limit }
    ensures less { OnOk result (weights (T.term tree.now) (reverse stack.new.items)
        < weight (T.term tree.now) item + weights (T.term tree.now) (reverse stack.old.items)) }
    ensures good { OnOk result (AreGood (T.term tree.now) (T.IsPlace tree.now) (length setting.now.symbols.now) (reverse stack.new.items)) }
{
    match item {
        Item::Lexeme(lexeme) => {
            written.lexeme(setting, lexeme)?;
            Ok(())
        }
        Item::Term(at, bound) => expand::term(setting, tree, &at, bound, stack),
        Item::Rest(at) => rest::rest(setting, tree, &at, stack),
        Item::Further(at, i) => rest::further(setting, tree, &at, i, stack),
    }
}

/// The text of a term, or, where it is longer than a limit, its first bytes, one more than the limit. No byte beyond these is made:
/// what adds bytes asks for room.
pub fn front<T: Tree>(
    alloc: Global,
    setting: &Setting<'_>,
    tree: &T,
    at: &T::At,
    bound: Bound,
    limit: usize,
) -> Result<Bytes, Memory>
    requires place { IsGoodPlace (T.term tree.now) (T.IsPlace tree.now) (length setting.now.symbols.now) at.now }
    ensures { IfOk result (λ b. b ≡ front_of limit
        (text_in setting.now.ops.now setting.now.style bound (named setting.now.symbols.now (T.term tree.now at.now)))) }
{
    let mut written = Written::new(alloc, limit);
    let mut stack = Vec::new(alloc);
    push(&mut stack, Item::Term(*at, bound))?;
    'write: while let Some(item) = take(&mut stack) {
        step(setting, tree, item, &mut stack, &mut written)?;
        if written.is_full() {
            return Ok(written.into_bytes());
        }
    }
    Ok(written.into_bytes())
}
