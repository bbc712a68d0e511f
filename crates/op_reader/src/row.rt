ghost use Rattle.std.specs.Prelude.{◌≡◌, ◌<◌, ◌≤◌, ◌-◌, ◌++◌, ◌∷◌, [], ℕ, List, length, take, true, false, if◌then◌else◌, OnOk, IfOk};
ghost use Rattle.std.specs.Prelude.{IfSome};
ghost use Rattle.op_logic.specs.Term.{Term as SpecTerm};
ghost use Rattle.op_term.specs.Ops.{is_prefix, is_infix, is_postfix, is_y_left, is_y_right};
ghost use Rattle.op_term.specs.Places.{term_at};
ghost use Rattle.op_reader.specs.Row.{Member, operand, operator};
ghost use Rattle.op_reader.specs.inner.Spine.{whole_priority};
ghost use Rattle.op_reader.specs.inner.RowState.{BranchesBelow};
ghost use Rattle.op_reader.specs.inner.Adding.{last_is_below, whole_term, spine_at, IsSameTo, IsClosed};

use op_base::Memory;
use op_term::{Builder, Meaning, Sym};
use std::alloc::Global;
use std::marker::Model;

/// An operator whose right operand goes on. Its left operand is finished; a prefix operator has none.
#[derive(Clone, Copy, Debug)]
struct Branch {
    name: Sym,
    meaning: Meaning,
    left: Option<u64>,
}

/// A finished part: its node, and its priority.
#[derive(Clone, Copy, Debug)]
struct Part {
    node: u64,
    priority: u32,
}

/// A row of operands and operators that is taken member by member from the left. It holds the operators on the right side of the
/// tree so far, from the root down; what is left of them is finished, and stands in a builder. After `Memory` nothing is said of it.
#[derive(Drop)]
pub struct Row {
    branches: Vec<Branch>,
    last: Option<Part>,
    is_refused: bool,
}

/// The greatest priority that an operand may have on the left.
fn left_bound(meaning: Meaning) -> u32
    ensures { result ≡ (if is_y_left meaning.kind then meaning.priority else meaning.priority - 1) }
{
    if meaning.kind.is_y_left() {
        meaning.priority
    } else {
        meaning.priority.saturating_sub(1)
    }
}

/// The greatest priority that an operand may have on the right.
fn right_bound(meaning: Meaning) -> u32
    ensures { result ≡ (if is_y_right meaning.kind then meaning.priority else meaning.priority - 1) }
{
    if meaning.kind.is_y_right() {
        meaning.priority
    } else {
        meaning.priority.saturating_sub(1)
    }
}

/// Whether an operator of this priority can't stand in the right operand of the last branch.
fn ends_below(branches: &[Branch], priority: u32) -> bool
    ensures { result ≡ last_is_below priority branches.now }
{
    match branches.last() {
        Some(branch) => right_bound(branch.meaning) < priority,
        None => false,
    }
}

/// Makes the node of an operator, of which the last operand is given.
fn close(nodes: &mut Builder, branch: Branch, right: Part) -> Result<Part, Memory>
    requires left { IfSome branch.left (λ at. at < length nodes.old) }
    requires right { right.node < length nodes.old }
    ensures there { IfOk result (λ part. part.node < length nodes.new) }
    ensures part { IfOk result (λ part. IsClosed nodes.old branch right nodes.new part) }
    ensures kept { take (length nodes.old) nodes.new ≡ nodes.old }
{
    let node = match branch.left {
        None => nodes.compound(branch.name, &[right.node])?,
        Some(left) => nodes.compound(branch.name, &[left, right.node])?,
    };
    Ok(Part {
        node,
        priority: branch.meaning.priority,
    })
}

/// Closes the last branches, as long as an operator of this priority can't stand in their right operand.
fn close_below(
    branches: &mut Vec<Branch>,
    nodes: &mut Builder,
    part: Part,
    priority: u32,
) -> Result<Part, Memory>
    requires branches { BranchesBelow (length nodes.old) branches.old.items }
    requires part { part.node < length nodes.old }
    ensures branches_there { OnOk result (BranchesBelow (length nodes.new) branches.new.items) }
    ensures part_there { IfOk result (λ left. left.node < length nodes.new) }
    ensures stops { OnOk result (last_is_below priority branches.new.items ≡ false) }
    ensures same { IfOk result (λ left. IsSameTo priority (spine_at nodes.old branches.old.items part)
        (spine_at nodes.new branches.new.items left)) }
    ensures kept { take (length nodes.old) nodes.new ≡ nodes.old }
{
    let mut right = part;
    'close: while ends_below(branches, priority) {
        if let Some(branch) = branches.pop() {
            right = close(nodes, branch, right)?;
        }
    }
    Ok(right)
}

/// Closes all branches.
fn close_all(branches: &mut Vec<Branch>, nodes: &mut Builder, part: Part) -> Result<Part, Memory>
    requires branches { BranchesBelow (length nodes.old) branches.old.items }
    requires part { part.node < length nodes.old }
    ensures none_left { OnOk result (branches.new.items ≡ []) }
    ensures part_there { IfOk result (λ whole. whole.node < length nodes.new) }
    ensures term { IfOk result (λ whole. term_at nodes.new whole.node ≡ whole_term (spine_at nodes.old branches.old.items part)) }
    ensures priority { IfOk result (λ whole. whole.priority ≡ whole_priority (spine_at nodes.old branches.old.items part)) }
    ensures kept { take (length nodes.old) nodes.new ≡ nodes.old }
{
    let mut right = part;
    'close: while let Some(branch) = branches.pop() {
        right = close(nodes, branch, right)?;
    }
    Ok(right)
}

impl Model for Row {
    ghost use Rattle.op_reader.specs.inner.RowState.{RowState};

    ghost Value = { RowState };

    ghost view = { λ r. record { branches = r.branches.items; last = r.last; is_refused = r.is_refused } };
}

impl Row {
    ghost use Rattle.op_reader.specs.inner.RowState.{no_members, expects_operand, operator_of, Stands, AreBelow, IsTreeOf};

    /// No members.
    pub fn new(alloc: Global) -> Row
        ensures empty { result ≡ no_members }
        ensures there { (n : ℕ) → AreBelow n result }
        ensures stands { (ts : List (SpecTerm ℕ)) → Stands ts [] result }
    {
        Row {
            branches: Vec::new(alloc),
            last: None,
            is_refused: false,
        }
    }

    /// Takes a finished term, which is a node, as an operand.
    pub fn operand(&mut self, node: u64)
        requires { expects_operand self.old ≡ true }
        ensures expects { expects_operand self.new ≡ false }
        ensures there { (n : ℕ) → node < n → AreBelow n self.old → AreBelow n self.new }
        ensures stands { (ts : List (SpecTerm ℕ)) (ps : List (Member ℕ)) → Stands ts ps self.old
            → Stands ts (ps ++ operand (term_at ts node) ∷ []) self.new }
    {
        self.last = Some(Part { node, priority: 0 });
    }

    /// Takes a prefix operator.
    pub fn prefix(&mut self, name: Sym, meaning: Meaning) -> Result<(), Memory>
        requires expected { expects_operand self.old ≡ true }
        requires kind { is_prefix meaning.kind ≡ true }
        requires priority { 0 < meaning.priority }
        ensures expects { OnOk result (expects_operand self.new ≡ true) }
        ensures there { OnOk result ((n : ℕ) → AreBelow n self.old → AreBelow n self.new) }
        ensures stands { OnOk result ((ts : List (SpecTerm ℕ)) (ps : List (Member ℕ)) → Stands ts ps self.old
            → Stands ts (ps ++ operator (operator_of name.0 meaning) ∷ []) self.new) }
    {
        if self.is_refused {
            return Ok(());
        }
        if ends_below(&self.branches, meaning.priority) {
            self.is_refused = true;
            return Ok(());
        }
        self.branches.push(Branch {
            name,
            meaning,
            left: None,
        })?;
        Ok(())
    }

    /// Takes an infix operator.
    pub fn infix(&mut self, nodes: &mut Builder, name: Sym, meaning: Meaning) -> Result<(), Memory>
        requires expected { expects_operand self.old ≡ false }
        requires kind { is_infix meaning.kind ≡ true }
        requires priority { 0 < meaning.priority }
        requires there { AreBelow (length nodes.old) self.old }
        ensures expects { OnOk result (expects_operand self.new ≡ true) }
        ensures there { OnOk result (AreBelow (length nodes.new) self.new) }
        ensures stands { OnOk result ((ps : List (Member ℕ)) → Stands nodes.old ps self.old
            → Stands nodes.new (ps ++ operator (operator_of name.0 meaning) ∷ []) self.new) }
        ensures kept { take (length nodes.old) nodes.new ≡ nodes.old }
    {
        let Some(part) = self.last else {
            unreachable!();
        };
        self.last = None;
        if self.is_refused {
            return Ok(());
        }
        let left = close_below(&mut self.branches, nodes, part, meaning.priority)?;
        if left.priority > left_bound(meaning) {
            self.is_refused = true;
            return Ok(());
        }
        self.branches.push(Branch {
            name,
            meaning,
            left: Some(left.node),
        })?;
        Ok(())
    }

    /// Takes a postfix operator.
    pub fn postfix(
        &mut self,
        nodes: &mut Builder,
        name: Sym,
        meaning: Meaning,
    ) -> Result<(), Memory>
        requires expected { expects_operand self.old ≡ false }
        requires kind { is_postfix meaning.kind ≡ true }
        requires priority { 0 < meaning.priority }
        requires there { AreBelow (length nodes.old) self.old }
        ensures expects { OnOk result (expects_operand self.new ≡ false) }
        ensures there { OnOk result (AreBelow (length nodes.new) self.new) }
        ensures stands { OnOk result ((ps : List (Member ℕ)) → Stands nodes.old ps self.old
            → Stands nodes.new (ps ++ operator (operator_of name.0 meaning) ∷ []) self.new) }
        ensures kept { take (length nodes.old) nodes.new ≡ nodes.old }
    {
        if self.is_refused {
            return Ok(());
        }
        let Some(part) = self.last else {
            unreachable!();
        };
        let operand = close_below(&mut self.branches, nodes, part, meaning.priority)?;
        if operand.priority > left_bound(meaning) {
            self.is_refused = true;
            return Ok(());
        }
        let branch = Branch {
            name,
            meaning,
            left: None,
        };
        self.last = Some(close(nodes, branch, operand)?);
        Ok(())
    }

    /// Ends the row: the node of its tree within a bound, or none where the row is refused. The row is then empty.
    pub fn finish(&mut self, nodes: &mut Builder, bound: u32) -> Result<Option<u64>, Memory>
        requires expected { expects_operand self.old ≡ false }
        requires there { AreBelow (length nodes.old) self.old }
        ensures tree { IfOk result (λ found. (ps : List (Member ℕ)) → Stands nodes.old ps self.old → IsTreeOf nodes.new bound ps found) }
        ensures there { IfOk result (λ found. IfSome found (λ at. at < length nodes.new)) }
        ensures kept { take (length nodes.old) nodes.new ≡ nodes.old }
        ensures empty { OnOk result (self.new ≡ no_members) }
    {
        let Some(part) = self.last else {
            unreachable!();
        };
        self.last = None;
        if self.is_refused {
            self.is_refused = false;
            self.branches.clear();
            return Ok(None);
        }
        let whole = close_all(&mut self.branches, nodes, part)?;
        if whole.priority > bound {
            return Ok(None);
        }
        Ok(Some(whole.node))
    }
}
