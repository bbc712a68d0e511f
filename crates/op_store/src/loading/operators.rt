ghost use Rattle.std.specs.Prelude.{◌≡◌, ◌<◌, ◌≤◌, ℕ, List, length, map, option_and_then, option_map, All, IfOk, IfSome, OnOk, OnErr};
ghost use Rattle.std.specs.Prelude.{IfErr};
ghost use Rattle.op_logic.specs.Names.{HasNames, name_at, named};
ghost use Rattle.op_store.specs.Directives.{op_kind, operator_names as the_names, with_ops, ops_set, integer, atom_name};
ghost use Rattle.op_store.specs.Directives.{is_priority as the_priority};
ghost use Rattle.op_store.specs.inner.Shapes.{names_of};
ghost use Rattle.op_store.specs.Stored.{database_of};
ghost use Rattle.op_store.specs.inner.Told.{TellsTerm, TellsOps};

use crate::loading::entries::elements_of;
use crate::loading::load_fault::LoadFaultKind;
use crate::loading::term_fault::TermFault;
use crate::store::Store;
use crate::terms::atoms::{atom_at, atoms_at, integer_at};
use op_base::Memory;
use op_term::{OpFault, OpKind, Sym, Symbols, Tree};
use std::alloc::Global;

fn kind_named(name: &str) -> Option<OpKind>
    ensures { result ≡ op_kind name.now }
{
    if name == "xfx" {
        Some(OpKind::Xfx)
    } else if name == "xfy" {
        Some(OpKind::Xfy)
    } else if name == "yfx" {
        Some(OpKind::Yfx)
    } else if name == "fy" {
        Some(OpKind::Fy)
    } else if name == "fx" {
        Some(OpKind::Fx)
    } else if name == "xf" {
        Some(OpKind::Xf)
    } else if name == "yf" {
        Some(OpKind::Yf)
    } else {
        None
    }
}

fn kind_at<T: Tree>(tree: &T, at: &T::At, symbols: &Symbols) -> Option<OpKind>
    requires place { T.IsPlace tree.now at.now }
    requires names { HasNames (length symbols.now) (T.term tree.now at.now) }
    ensures { result ≡ option_and_then op_kind (atom_name (named symbols.now (T.term tree.now at.now))) }
{
    match atom_at(tree, at) {
        Some(name) => kind_named(symbols.name_of(name)),
        None => None,
    }
}

fn is_priority(priority: i64) -> bool
    ensures { result ≡ the_priority priority }
{
    0 <= priority && priority <= 1200
}

// One name or a list of names, of which [] is the empty one.
fn operator_names<T: Tree>(
    alloc: Global,
    tree: &T,
    at: &T::At,
    symbols: &Symbols,
) -> Result<Option<Vec<Sym>>, Memory>
    requires place { T.IsPlace tree.now at.now }
    requires names { HasNames (length symbols.now) (T.term tree.now at.now) }
    ensures names { IfOk result (λ o. option_map (λ v. names_of symbols.now v.items) o
        ≡ the_names (named symbols.now (T.term tree.now at.now))) }
    ensures there { IfOk result (λ o. IfSome o (λ v. All (λ s. s.0 < length symbols.now) v.items)) }
{
    if let Some(items) = elements_of(alloc, tree, at, symbols)? {
        return atoms_at(alloc, tree, &items);
    }
    match atom_at(tree, at) {
        Some(name) => {
            let mut names = Vec::new(alloc);
            names.push(name)?;
            Ok(Some(names))
        }
        None => Ok(None),
    }
}

// Sets operators up to the first name that is refused.
fn set_each(store: &mut Store, priority: i64, kind: OpKind, names: &[Sym]) -> Result<(), TermFault>
    requires { All (λ s. s.0 < length store.old.names) names.now }
    ensures tells { TellsOps store.new.table result (ops_set priority kind store.old.table (names_of store.old.names names.now)) }
    ensures kept { store.new ≡ record store.old { table = store.new.table } }
    ensures one { OnErr result (length names.now ≤ 1 → store.new ≡ store.old) }
{
    'names: for name in names {
        match store.set_operator(priority, kind, *name) {
            Ok(()) => {}
            Err(OpFault::Memory) => return Err(TermFault::Memory),
            Err(_) => return Err(TermFault::Refused(LoadFaultKind::Directive)),
        }
    }
    Ok(())
}

// Sets all these operators, or none. One name alone is set or not, without a copy of the table.
fn set_all(store: &mut Store, priority: i64, kind: OpKind, names: &[Sym]) -> Result<(), TermFault>
    requires { All (λ s. s.0 < length store.old.names) names.now }
    ensures tells { TellsOps store.new.table result (ops_set priority kind store.old.table (names_of store.old.names names.now)) }
    ensures kept { store.new ≡ record store.old { table = store.new.table } }
    ensures err { OnErr result (store.new ≡ store.old) }
{
    if names.len() <= 1 {
        return set_each(store, priority, kind, names);
    }
    let before = store.ops().copy()?;
    match set_each(store, priority, kind, names) {
        Ok(()) => Ok(()),
        Err(fault) => {
            store.put_ops(before);
            Err(fault)
        }
    }
}

/// The directive op/3 with these arguments.
pub(crate) fn direct_ops<T: Tree>(
    alloc: Global,
    store: &mut Store,
    tree: &T,
    priority: &T::At,
    kind: &T::At,
    names: &T::At,
) -> Result<(), TermFault>
    requires places { T.IsPlace tree.now priority.now × (T.IsPlace tree.now kind.now × T.IsPlace tree.now names.now) }
    requires kind { HasNames (length store.old.names) (T.term tree.now kind.now) }
    requires names { HasNames (length store.old.names) (T.term tree.now names.now) }
    ensures tells { TellsTerm store.new result (with_ops (database_of store.old)
        (integer (named store.old.names (T.term tree.now priority.now)))
        (option_and_then op_kind (atom_name (named store.old.names (T.term tree.now kind.now))))
        (the_names (named store.old.names (T.term tree.now names.now)))) }
    ensures kept { store.new ≡ record store.old { table = store.new.table } }
    ensures err { OnErr result (store.new ≡ store.old) }
{
    let refused = Err(TermFault::Refused(LoadFaultKind::Directive));
    let symbols = store.symbols();
    let set = operator_names(alloc, tree, names, symbols)?;
    let wanted = (
        integer_at(tree, priority),
        kind_at(tree, kind, symbols),
        set,
    );
    match wanted {
        (Some(priority), Some(kind), Some(set)) => {
            if is_priority(priority) {
                set_all(store, priority, kind, &set)
            } else {
                refused
            }
        }
        _ => refused,
    }
}
