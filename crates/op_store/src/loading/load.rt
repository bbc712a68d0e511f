ghost use Rattle.std.specs.Prelude.{◌≡◌, ◌<◌, ◌+◌, ◌^◌, ℕ, length, take, OnErr, IfErr, IfOk, IfSome};
ghost use Rattle.op_logic.specs.Names.{HasNames, named};
ghost use Rattle.op_store.specs.Clauses.{with_term};
ghost use Rattle.op_store.specs.Load.{load_text, load_from};
ghost use Rattle.op_store.specs.Queries.{TellsLoad, IsSoundLoadFault};
ghost use Rattle.op_store.specs.Stored.{database_of};
ghost use Rattle.op_store.specs.inner.Told.{TellsTerm, TellsStep, with_names};

use crate::loading::directive::direct;
use crate::loading::line::{fault_line, first_token, line_at, rest};
use crate::loading::load_fault::{LoadFault, LoadFaultKind};
use crate::loading::sentence::{Sentence, sentence_of};
use crate::loading::term_fault::TermFault;
use crate::store::Store;
use op_reader::{ReadFault, Reading};
use op_term::{Term, Whole};
use std::alloc::Global;

// A term that was read joins the store.
fn take_term(alloc: Global, store: &mut Store, term: &Term) -> Result<(), TermFault>
    requires { HasNames (length store.old.names) term.now }
    ensures tells { TellsTerm store.new result (with_term store.old.locked (database_of store.old) (named store.new.names term.now)) }
    ensures names { take (length store.old.names) store.new.names ≡ store.old.names }
    ensures locked { store.new.locked ≡ store.old.locked }
    ensures err { OnErr result (database_of store.new ≡ database_of store.old) }
{
    let whole = Whole::new(term);
    match sentence_of(&whole, &whole.root(), store.symbols()) {
        Sentence::Clause(head, body) => store.add_clause(&whole, &head, body),
        Sentence::Directive(part) => direct(alloc, store, &whole, &part),
        Sentence::Query => Err(TermFault::Refused(LoadFaultKind::Directive)),
    }
}

// Loads the first term of bytes that begin at a line, and says how many bytes are used; None where no term is left.
fn load_term(
    alloc: Global,
    store: &mut Store,
    bytes: &[u8],
    line: u64,
) -> Result<Option<u64>, LoadFault>
    requires { line + length bytes.now < 2 ^ 64 }
    ensures tells { TellsStep store.old.locked (database_of store.old) line bytes.now store.new result }
    ensures sound { IfErr result (IsSoundLoadFault (length store.new.names)) }
    ensures names { take (length store.old.names) store.new.names ≡ store.old.names }
    ensures locked { store.new.locked ≡ store.old.locked }
{
    match store.read(bytes) {
        Ok(Reading::Term(read)) => match take_term(alloc, store, &read.term) {
            Ok(()) => Ok(Some(read.used)),
            Err(TermFault::Memory) => Err(LoadFault::Memory),
            Err(TermFault::Refused(kind)) => Err(LoadFault::At {
                line: line_at(line, bytes, first_token(bytes)),
                kind,
            }),
        },
        Ok(Reading::End) => Ok(None),
        Err(ReadFault::Bad { place, kind }) => Err(LoadFault::At {
            line: fault_line(line, bytes, place),
            kind: LoadFaultKind::Syntax(kind),
        }),
        Err(_) => Err(LoadFault::Memory),
    }
}

/// Loads a text, term by term. Each term takes a byte at least.
pub(crate) fn load_all(alloc: Global, store: &mut Store, text: &[u8]) -> Result<(), LoadFault>
    ensures tells { TellsLoad store.new result (load_text store.old.locked (database_of store.old) text.now) }
    ensures stands { (n : ℕ) × (database_of store.new ≡ (load_from n store.old.locked (database_of store.old) 1 text.now).world) }
    ensures sound { IfErr result (IsSoundLoadFault (length store.new.names)) }
    ensures names { take (length store.old.names) store.new.names ≡ store.old.names }
    ensures locked { store.new.locked ≡ store.old.locked }
{
    let mut bytes = text;
    let mut line = 1;
    'terms: for _ in 0..text.len() as u64 + 1 {
        match load_term(alloc, store, bytes, line) {
            Ok(Some(used)) => {
                line = line_at(line, bytes, used);
                bytes = rest(bytes, used);
            }
            Ok(None) => return Ok(()),
            Err(fault) => return Err(fault),
        }
    }
    Ok(())
}
