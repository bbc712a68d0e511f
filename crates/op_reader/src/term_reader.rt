ghost use Rattle.std.specs.Prelude.{◌≡◌, ◌<◌, ℕ, List, [], All, length, take, map, IfOk};
ghost use Rattle.op_reader.specs.FirstClause.{sentence};
ghost use Rattle.op_reader.specs.Roles.{levels_of};
ghost use Rattle.op_reader.specs.Reading.{first_place as the_first_place, rows_outcome, words_outcome, sentence_outcome, reading_of};
ghost use Rattle.op_reader.specs.inner.RoleLists.{view, with_roles, no_layers, rows_of, word_in, WordBelow, RoleBelow};
ghost use Rattle.op_reader.specs.inner.Shown.{HasText};
ghost use Rattle.op_reader.specs.Passes.{Tells, AreListNames, HasKnownNames};
ghost use Rattle.op_reader.specs.Variables.{HasCount, HasItsVariables};

use crate::bracket::unmatched;
use crate::fault::{ReadFault, ReadFaultKind};
use crate::first_clause::{Beginning, first_clause};
use crate::names::Names;
use crate::read_rows::ListNames;
use crate::role::Role;
use crate::roles::{Roles, first_excess, roles_of};
use crate::terms::term_node;
use crate::word::Word;
use crate::words::{Made, words_of};
use op_base::Memory;
use op_term::{DoubleQuotes, Ops, Symbols, Term};
use op_token::{Token, TokenFaultKind};
use std::alloc::Global;

/// A term that was read, with its named variables, how many variables it has, and the bytes up to the end of its end token.
#[derive(Drop)]
pub struct Read {
    pub term: Term,
    pub names: Names,
    pub vars: u64,
    pub used: u64,
}

/// What reading a text gives.
#[derive(Drop)]
pub enum Reading {
    Term(Read),
    /// Only layout and comments are left.
    End,
}

fn first_place(tokens: &[Token]) -> u64
    ensures { result ≡ the_first_place tokens.now }
{
    match tokens {
        [] => 0,
        [first, ..] => first.from,
    }
}

fn list_names(symbols: &mut Symbols) -> Result<ListNames, Memory>
    ensures names { IfOk result (AreListNames symbols.new) }
    ensures kept { take (length symbols.old) symbols.new ≡ symbols.old }
{
    let dot = symbols.intern(".")?;
    let nil = symbols.intern("[]")?;
    let braces = symbols.intern("{}")?;
    Ok(ListNames { dot, nil, braces })
}

// The reading of a clause's roles; the clause begins at a place, and so many bytes are used.
fn read_roles(
    alloc: Global,
    made: Made,
    known: ListNames,
    roles: &[Role],
    place: u64,
    used: u64,
) -> Result<Reading, ReadFault>
    requires { All (RoleBelow (length made.nodes)) roles.now }
    ensures tells { (table : List (List ℕ)) → AreListNames table known →
        (with_roles (view table made.nodes) roles.now no_layers).outer ≡ [] →
        Tells table result (rows_outcome place made.names used (rows_of (view table made.nodes) roles.now)) }
    ensures counted { IfOk result (HasCount made.count) }
{
    let Made {
        mut nodes,
        names,
        count,
    } = made;
    match term_node(alloc, &mut nodes, known, roles)? {
        None => Err(ReadFault::Bad {
            place: place,
            kind: ReadFaultKind::Priority,
        }),
        Some(root) => match first_excess(roles) {
            Some(at) => Err(ReadFault::Bad {
                place: at,
                kind: ReadFaultKind::Token(TokenFaultKind::NumberRange),
            }),
            None => Ok(Reading::Term(Read {
                term: nodes.finish(root),
                vars: count,
                names,
                used,
            })),
        },
    }
}

// The reading of a clause's words.
fn read_words(
    alloc: Global,
    known: ListNames,
    words: &[Word],
    made: Made,
    place: u64,
    stop: Token,
) -> Result<Reading, ReadFault>
    requires { All (WordBelow (length made.nodes)) words.now }
    ensures tells { (table : List (List ℕ)) → AreListNames table known →
        (levels_of stop.from (map (word_in (view table made.nodes)) words.now)).outer ≡ [] →
        Tells table result (words_outcome place made.names stop.from stop.to (map (word_in (view table made.nodes)) words.now)) }
    ensures counted { IfOk result (HasCount made.count) }
{
    match roles_of(alloc, words, stop.from)? {
        Roles::Refused(at) => Err(ReadFault::Bad {
            place: at,
            kind: ReadFaultKind::NoOperand,
        }),
        Roles::Given(roles) => read_roles(alloc, made, known, &roles, place, stop.to),
    }
}

// The reading of a clause with these tokens before its end token.
fn read_clause(
    alloc: Global,
    ops: &Ops,
    quotes: DoubleQuotes,
    symbols: &mut Symbols,
    bytes: &[u8],
    tokens: &[Token],
    stop: Token,
) -> Result<Reading, ReadFault>
    requires { All (HasText bytes.now) tokens.now }
    ensures tells { Tells symbols.new result (sentence_outcome ops.now quotes bytes.now (sentence tokens.now stop)) }
    ensures known { IfOk result (HasKnownNames (length symbols.new)) }
    ensures variables { IfOk result HasItsVariables }
    ensures kept { take (length symbols.old) symbols.new ≡ symbols.old }
{
    if let Some(place) = unmatched(alloc, tokens)? {
        return Err(ReadFault::Bad {
            place: place,
            kind: ReadFaultKind::Unbalanced,
        });
    }
    let (words, made) = words_of(alloc, ops, quotes, bytes, symbols, tokens)?;
    let known = list_names(symbols)?;
    read_words(alloc, known, &words, made, first_place(tokens), stop)
}

/// Reads the first clause of a text (ISO/IEC 13211-1, 6.2 and 6.3) as a term, whose variables are numbered from 0 by first
/// occurrence. Names that were interned before a refusal stay.
#[tactic(auto, unfolding(crate::specs::Reading::reading_of))]
pub fn read_term(
    alloc: Global,
    ops: &Ops,
    quotes: DoubleQuotes,
    symbols: &mut Symbols,
    bytes: &[u8],
) -> Result<Reading, ReadFault>
    ensures tells { Tells symbols.new result (reading_of ops.now quotes bytes.now) }
    ensures known { IfOk result (HasKnownNames (length symbols.new)) }
    ensures variables { IfOk result HasItsVariables }
    ensures kept { take (length symbols.old) symbols.new ≡ symbols.old }
{
    match first_clause(alloc, bytes)? {
        Beginning::Blank => Ok(Reading::End),
        Beginning::Clause(tokens, stop) => {
            read_clause(alloc, ops, quotes, symbols, bytes, &tokens, stop)
        }
    }
}
