ghost use Rattle.std.specs.Prelude.{◌≡◌, ℕ, All, IfOk, OnOk};
ghost use Rattle.op_term.specs.Ops.{is_infix as the_is_infix};
ghost use Rattle.op_reader.specs.Roles.{inside as the_inside, behind_operator};
ghost use Rattle.op_reader.specs.inner.RoleLists.{WordBelow, RoleBelow, StepBelow, RolesBelow, View, IsStep, IsLeft, Advances, IsEnded};
ghost use Rattle.op_reader.specs.inner.RoleLists.{HasRoles, first_excess, expected_in, operator_in};

use crate::bracket::Bracket;
use crate::role::Role;
use crate::row_kind::RowKind;
use crate::word::{AsOperand, AsOperator, Operator, Word};
use op_base::Memory;
use op_term::{OpKind, Sym};
use std::alloc::Global;

/// What comes next.
#[derive(Clone, Copy, Debug)]
pub(crate) enum Expected {
    Operand,
    Operator,
    /// The arguments of a name.
    Arguments(Sym),
    /// The number behind a sign.
    Number,
}

/// What a word does where it stands.
#[derive(Clone, Copy, Debug)]
enum Step {
    /// It has a role, and then this comes next in the row, or in the tail.
    On(Role, RowKind, Expected),
    /// It has no role of its own.
    Skip(Expected),
    /// It opens a bracket.
    Enter(Role, RowKind),
    /// It closes the innermost bracket.
    Leave,
    /// It can't stand here.
    Refused(u64),
}

/// The roles of a clause's words, or the place of the first word that can't stand where it stands.
#[derive(Drop)]
pub(crate) enum Roles {
    Given(Vec<Role>),
    Refused(u64),
}

fn is_infix(kind: OpKind) -> bool
    ensures { result ≡ the_is_infix kind }
{
    match kind {
        OpKind::Xfx | OpKind::Xfy | OpKind::Yfx => true,
        _ => false,
    }
}

fn behind(operator: Operator) -> Expected
    ensures { (v : View) → expected_in v result ≡ behind_operator (operator_in v operator) }
{
    if is_infix(operator.meaning.kind) {
        Expected::Operand
    } else {
        Expected::Operator
    }
}

fn inside(bracket: Bracket) -> RowKind
    ensures { result ≡ the_inside bracket }
{
    match bracket {
        Bracket::Square => RowKind::Elements,
        _ => RowKind::Clause,
    }
}

fn on_operand(kind: RowKind, word: Word) -> Step
    ensures step { IsStep kind Expected.Operand word result }
    ensures below { (n : ℕ) → WordBelow n word → StepBelow n result }
{
    match word {
        Word::Opened(_, bracket) => Step::Enter(Role::Bracketed(bracket), inside(bracket)),
        Word::Other(_, AsOperand::Functor(name), _) => Step::Skip(Expected::Arguments(name)),
        Word::Other(_, AsOperand::Minus(node), _) => {
            Step::On(Role::Operand(node), kind, Expected::Number)
        }
        Word::Other(_, AsOperand::Prefix(operator), _) => {
            Step::On(Role::Operator(operator), kind, Expected::Operand)
        }
        Word::Other(_, AsOperand::Plain(node), _) => {
            Step::On(Role::Operand(node), kind, Expected::Operator)
        }
        Word::Other(place, AsOperand::Excess, _) => {
            Step::On(Role::Excess(place), kind, Expected::Operator)
        }
        Word::Closed(place) => Step::Refused(place),
        Word::Comma(place, _) => Step::Refused(place),
        Word::Bar(place) => Step::Refused(place),
    }
}

fn on_comma(kind: RowKind, place: u64, comma: AsOperator) -> Step
    ensures step { IsStep kind Expected.Operator (Word.Comma place comma) result }
    ensures below { (n : ℕ) → StepBelow n result }
{
    match kind {
        RowKind::Clause => match comma {
            AsOperator::Joins(operator) => {
                Step::On(Role::Operator(operator), kind, behind(operator))
            }
            AsOperator::Misplaced => Step::Refused(place),
        },
        RowKind::Arguments => Step::On(Role::Separator, kind, Expected::Operand),
        RowKind::Elements => Step::On(Role::Separator, kind, Expected::Operand),
        RowKind::Last => Step::Refused(place),
    }
}

fn on_bar(kind: RowKind, place: u64) -> Step
    ensures step { IsStep kind Expected.Operator (Word.Bar place) result }
    ensures below { (n : ℕ) → StepBelow n result }
{
    match kind {
        RowKind::Elements => Step::On(Role::Tail, RowKind::Last, Expected::Operand),
        RowKind::Clause => Step::Refused(place),
        RowKind::Arguments => Step::Refused(place),
        RowKind::Last => Step::Refused(place),
    }
}

fn on_operator(kind: RowKind, word: Word) -> Step
    ensures step { IsStep kind Expected.Operator word result }
    ensures below { (n : ℕ) → WordBelow n word → StepBelow n result }
{
    match word {
        Word::Opened(place, _) => Step::Refused(place),
        Word::Closed(_) => Step::Leave,
        Word::Comma(place, comma) => on_comma(kind, place, comma),
        Word::Bar(place) => on_bar(kind, place),
        Word::Other(_, _, AsOperator::Joins(operator)) => {
            Step::On(Role::Operator(operator), kind, behind(operator))
        }
        Word::Other(place, _, AsOperator::Misplaced) => Step::Refused(place),
    }
}

// A functor is followed by the opening bracket of its arguments.
fn on_arguments(kind: RowKind, name: Sym, word: Word) -> Step
    ensures step { IsStep kind (Expected.Arguments name) word result }
    ensures below { (n : ℕ) → WordBelow n word → StepBelow n result }
{
    match word {
        Word::Opened(_, _) => Step::Enter(Role::Compound(name), RowKind::Arguments),
        Word::Closed(place) => Step::Refused(place),
        Word::Comma(place, _) => Step::Refused(place),
        Word::Bar(place) => Step::Refused(place),
        Word::Other(place, _, _) => Step::Refused(place),
    }
}

// The number behind a sign is in the sign's term.
fn on_number(kind: RowKind, word: Word) -> Step
    ensures step { IsStep kind Expected.Number word result }
    ensures below { (n : ℕ) → WordBelow n word → StepBelow n result }
{
    match word {
        Word::Opened(place, _) => Step::Refused(place),
        Word::Closed(place) => Step::Refused(place),
        Word::Comma(_, _) => Step::Skip(Expected::Operator),
        Word::Bar(_) => Step::Skip(Expected::Operator),
        Word::Other(_, _, _) => Step::Skip(Expected::Operator),
    }
}

fn step_of(kind: RowKind, expected: Expected, word: Word) -> Step
    ensures step { IsStep kind expected word result }
    ensures below { (n : ℕ) → WordBelow n word → StepBelow n result }
{
    match expected {
        Expected::Operand => on_operand(kind, word),
        Expected::Operator => on_operator(kind, word),
        Expected::Arguments(name) => on_arguments(kind, name, word),
        Expected::Number => on_number(kind, word),
    }
}

/// Where the next word stands: what is expected, the kind of its row, and the kinds of the rows around it, the outermost first.
#[derive(Drop)]
struct Spot {
    expected: Expected,
    kind: RowKind,
    outer: Vec<RowKind>,
}

fn leave(spot: &mut Spot)
    ensures { IsLeft spot.old spot.new }
{
    spot.kind = spot.outer.pop().unwrap_or(RowKind::Clause);
    spot.expected = Expected::Operator;
}

// Takes the next word, and puts its role behind the others; the place of a word that can't stand there.
fn advance(spot: &mut Spot, roles: &mut Vec<Role>, word: Word) -> Result<Option<u64>, Memory>
    ensures advances { IfOk result (Advances spot.old roles.old.items word spot.new roles.new.items) }
    ensures below { OnOk result ((n : ℕ) → WordBelow n word → All (RoleBelow n) roles.old.items → All (RoleBelow n) roles.new.items) }
{
    match step_of(spot.kind, spot.expected, word) {
        Step::On(role, kind, expected) => {
            roles.push(role)?;
            spot.kind = kind;
            spot.expected = expected;
            Ok(None)
        }
        Step::Skip(expected) => {
            spot.expected = expected;
            Ok(None)
        }
        Step::Enter(role, kind) => {
            roles.push(role)?;
            spot.outer.push(spot.kind)?;
            spot.kind = kind;
            spot.expected = Expected::Operand;
            Ok(None)
        }
        Step::Leave => {
            roles.push(Role::Closed)?;
            leave(spot);
            Ok(None)
        }
        Step::Refused(place) => Ok(Some(place)),
    }
}

fn ended(expected: Expected, roles: Vec<Role>, stop: u64) -> Roles
    ensures ended { IsEnded expected roles.items stop result }
    ensures below { (n : ℕ) → All (RoleBelow n) roles.items → RolesBelow n result }
{
    match expected {
        Expected::Operator => Roles::Given(roles),
        Expected::Operand => Roles::Refused(stop),
        Expected::Arguments(_) => Roles::Refused(stop),
        Expected::Number => Roles::Refused(stop),
    }
}

/// The roles of a clause's words, whose end token stands at `stop`.
pub(crate) fn roles_of(alloc: Global, words: &[Word], stop: u64) -> Result<Roles, Memory>
    ensures roles { IfOk result (HasRoles stop words.now) }
    ensures below { IfOk result (λ r. (n : ℕ) → All (WordBelow n) words.now → RolesBelow n r) }
{
    let mut roles = Vec::new(alloc);
    let mut spot = Spot {
        expected: Expected::Operand,
        kind: RowKind::Clause,
        outer: Vec::new(alloc),
    };
    for word in words {
        if let Some(place) = advance(&mut spot, &mut roles, *word)? {
            return Ok(Roles::Refused(place));
        }
    }
    Ok(ended(spot.expected, roles, stop))
}

/// The place of the first integer that is too great.
pub(crate) fn first_excess(roles: &[Role]) -> Option<u64>
    ensures { result ≡ first_excess roles.now }
{
    for role in roles {
        if let Role::Excess(place) = role {
            return Some(*place);
        }
    }
    None
}
