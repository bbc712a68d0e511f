ghost use Rattle.std.specs.Prelude.{◌≡◌, length, take, IfOk};
ghost use Rattle.op_logic.specs.Names.{HasNames};
ghost use Rattle.op_reader.specs.Variables.{HasVariables};
ghost use Rattle.op_store.specs.Queries.{IsConverted, IsSoundConverted};

use crate::bodies::converted::converted_term;
use op_base::Memory;
use op_reader::{Names, Read};
use op_term::{Symbols, Term, Whole};
use std::alloc::Global;

/// A goal that was read: its body, the named variables in it, and how many variables it has, numbered from 0 in order of first
/// occurrence.
#[derive(Drop)]
pub struct Goal {
    pub body: Term,
    pub names: Names,
    pub vars: u64,
}

/// A term that was read, as a goal, or the term itself where it stands for no body.
#[derive(Drop)]
pub(crate) enum Converted {
    Goal(Goal),
    NotBody(Term),
}

/// Converts a term that was read.
pub(crate) fn convert_read(
    alloc: Global,
    symbols: &mut Symbols,
    read: Read,
) -> Result<Converted, Memory>
    requires names { HasNames (length symbols.old) read.term }
    requires variables { HasVariables read.vars read.term read.names }
    ensures goal { IfOk result (λ c. IsConverted symbols.new read c) }
    ensures sound { IfOk result (IsSoundConverted (length symbols.new)) }
    ensures kept { take (length symbols.old) symbols.new ≡ symbols.old }
{
    let Read {
        term,
        names,
        vars,
        used: _,
    } = read;
    let whole = Whole::new(&term);
    match converted_term(alloc, symbols, &whole, &whole.root())? {
        Some(body) => Ok(Converted::Goal(Goal { body, names, vars })),
        None => Ok(Converted::NotBody(term)),
    }
}
