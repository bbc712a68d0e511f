ghost use Rattle.std.specs.Prelude.{◌≡◌, ◌<◌, ℕ, length, take, map, All, OnOk, OnErr, IfErr, Ok, Err};
ghost use Rattle.op_logic.specs.Names.{HasNames, name_at, named};
ghost use Rattle.op_store.specs.Directives.{directed, of_one, all_dynamic as the_dynamic, all_indicate as the_indicators};
ghost use Rattle.op_store.specs.Directives.{entries as the_entries, atom_name, with_flag_of};
ghost use Rattle.op_store.specs.inner.Shapes.{word as the_word};
ghost use Rattle.op_store.specs.Stored.{database_of};
ghost use Rattle.op_store.specs.inner.Told.{TellsTerm};

use crate::loading::entries::entries_of;
use crate::loading::flag_words::changed_flags;
use crate::loading::indicator::{all_indicate, indicator_of};
use crate::loading::load_fault::LoadFaultKind;
use crate::loading::operators::direct_ops;
use crate::loading::term_fault::TermFault;
use crate::store::Store;
use crate::terms::atoms::atom_at;
use crate::terms::shape::{Shape, shape_of};
use op_term::{Sym, Tree};
use std::alloc::Global;

/// A directive of one argument.
#[derive(Clone, Copy)]
pub(crate) enum Word {
    Dynamic,
    /// Its entries have no effect.
    Declaration,
    /// Its goal is noted and not run.
    Initialization,
    Other,
}

fn word_of(name: &str) -> Word
    ensures { result ≡ the_word name.now }
{
    if name == "dynamic" {
        Word::Dynamic
    } else if name == "discontiguous" || name == "multifile" {
        Word::Declaration
    } else if name == "initialization" {
        Word::Initialization
    } else {
        Word::Other
    }
}

// Makes the procedures of some entries dynamic, up to the first entry that is refused.
fn add_dynamic<T: Tree>(store: &mut Store, tree: &T, entries: &[T::At]) -> Result<(), TermFault>
    requires { All (λ p. T.IsPlace tree.now p × HasNames (length store.old.names) (T.term tree.now p)) entries.now }
    ensures tells { TellsTerm store.new result (the_dynamic store.old.locked (database_of store.old)
        (map (λ p. named store.old.names (T.term tree.now p)) entries.now)) }
    ensures kept { store.new ≡ record store.old { procedures = store.new.procedures } }
    ensures front { take (length store.old.procedures) store.new.procedures ≡ store.old.procedures }
{
    'entries: for entry in entries {
        match indicator_of(tree, entry, store.symbols()) {
            Some(pi) => store.make_dynamic(pi)?,
            None => return Err(TermFault::Refused(LoadFaultKind::Directive)),
        }
    }
    Ok(())
}

// Makes the procedures of all entries of a directive dynamic, or none.
fn declare_dynamic<T: Tree>(
    alloc: Global,
    store: &mut Store,
    tree: &T,
    at: &T::At,
) -> Result<(), TermFault>
    requires place { T.IsPlace tree.now at.now }
    requires names { HasNames (length store.old.names) (T.term tree.now at.now) }
    ensures tells { TellsTerm store.new result (the_dynamic store.old.locked (database_of store.old)
        (the_entries (named store.old.names (T.term tree.now at.now)))) }
    ensures kept { store.new ≡ record store.old { procedures = store.new.procedures } }
    ensures err { OnErr result (store.new ≡ store.old) }
{
    let entries = entries_of(alloc, tree, at, store.symbols())?;
    let count = store.procedure_count();
    match add_dynamic(store, tree, &entries) {
        Ok(()) => Ok(()),
        Err(fault) => {
            store.forget_procedures(count);
            Err(fault)
        }
    }
}

// A directive whose entries have no effect.
fn declare<T: Tree>(alloc: Global, store: &Store, tree: &T, at: &T::At) -> Result<(), TermFault>
    requires place { T.IsPlace tree.now at.now }
    requires names { HasNames (length store.now.names) (T.term tree.now at.now) }
    ensures { TellsTerm store.now result (the_indicators (database_of store.now)
        (the_entries (named store.now.names (T.term tree.now at.now)))) }
{
    let entries = entries_of(alloc, tree, at, store.symbols())?;
    if all_indicate(tree, &entries, store.symbols()) {
        Ok(())
    } else {
        Err(TermFault::Refused(LoadFaultKind::Directive))
    }
}

fn direct_one<T: Tree>(
    alloc: Global,
    store: &mut Store,
    tree: &T,
    name: Sym,
    at: &T::At,
) -> Result<(), TermFault>
    requires there { name.0 < length store.old.names }
    requires place { T.IsPlace tree.now at.now }
    requires names { HasNames (length store.old.names) (T.term tree.now at.now) }
    ensures tells { TellsTerm store.new result (of_one store.old.locked (database_of store.old) (name_at store.old.names name.0)
        (named store.old.names (T.term tree.now at.now))) }
    ensures kept { store.new ≡ record store.old { procedures = store.new.procedures } }
    ensures err { OnErr result (store.new ≡ store.old) }
{
    match word_of(store.symbols().name_of(name)) {
        Word::Dynamic => declare_dynamic(alloc, store, tree, at),
        Word::Declaration => declare(alloc, store, tree, at),
        Word::Initialization => Ok(()),
        Word::Other => Err(TermFault::Refused(LoadFaultKind::Directive)),
    }
}

fn direct_flag<T: Tree>(
    store: &mut Store,
    tree: &T,
    flag: &T::At,
    value: &T::At,
) -> Result<(), TermFault>
    requires place { T.IsPlace tree.now flag.now }
    requires value { T.IsPlace tree.now value.now }
    requires names { HasNames (length store.old.names) (T.term tree.now flag.now) }
    requires value_names { HasNames (length store.old.names) (T.term tree.now value.now) }
    ensures tells { TellsTerm store.new result (with_flag_of (database_of store.old)
        (atom_name (named store.old.names (T.term tree.now flag.now))) (atom_name (named store.old.names (T.term tree.now value.now)))) }
    ensures kept { store.new ≡ record store.old { flags = store.new.flags } }
    ensures err { OnErr result (store.new ≡ store.old) }
{
    let refused = Err(TermFault::Refused(LoadFaultKind::Directive));
    let (flag, value) = match (atom_at(tree, flag), atom_at(tree, value)) {
        (Some(flag), Some(value)) => (flag, value),
        _ => return refused,
    };
    let symbols = store.symbols();
    match changed_flags(store.flags(), symbols.name_of(flag), symbols.name_of(value)) {
        Some(flags) => {
            store.set_flags(flags);
            Ok(())
        }
        None => refused,
    }
}

/// Carries out the directive at a place, which a refusal leaves undone.
pub(crate) fn direct<T: Tree>(
    alloc: Global,
    store: &mut Store,
    tree: &T,
    at: &T::At,
) -> Result<(), TermFault>
    requires place { T.IsPlace tree.now at.now }
    requires names { HasNames (length store.old.names) (T.term tree.now at.now) }
    ensures tells { TellsTerm store.new result (directed store.old.locked (database_of store.old)
        (named store.old.names (T.term tree.now at.now))) }
    ensures names { store.new.names ≡ store.old.names }
    ensures locked { store.new.locked ≡ store.old.locked }
    ensures err { OnErr result (store.new ≡ store.old) }
{
    let refused = Err(TermFault::Refused(LoadFaultKind::Directive));
    match shape_of(tree, at) {
        Shape::One(name, part) => direct_one(alloc, store, tree, name, &part),
        Shape::Two(name, flag, value) => {
            let is = store.symbols().name_of(name) == "set_prolog_flag";
            if is {
                direct_flag(store, tree, &flag, &value)
            } else {
                refused
            }
        }
        Shape::Three(name, priority, kind, names) => {
            let is = store.symbols().name_of(name) == "op";
            if is {
                direct_ops(alloc, store, tree, &priority, &kind, &names)
            } else {
                refused
            }
        }
        _ => refused,
    }
}
