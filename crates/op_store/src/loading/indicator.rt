ghost use Rattle.std.specs.Prelude.{◌≡◌, ◌<◌, ℕ, length, map, All, IfSome, option_map, Ok, Err, if◌then◌else◌};
ghost use Rattle.op_logic.specs.Names.{HasNames, named};
ghost use Rattle.op_trace.specs.Database.{Database};
ghost use Rattle.op_store.specs.NumberedProcedures.{indicator_named};
ghost use Rattle.op_store.specs.Fault.{directive};
ghost use Rattle.op_store.specs.Directives.{indicator, all_indicate as the_indicators};

use crate::procedures::pi::Pi;
use crate::terms::atoms::{atom_at, natural_at};
use crate::terms::pair::pair_of;
use op_term::{Symbols, Tree};

/// The procedure that an entry Name/Arity is of; None where the term at a place is no such entry.
pub(crate) fn indicator_of<T: Tree>(tree: &T, at: &T::At, symbols: &Symbols) -> Option<Pi>
    requires place { T.IsPlace tree.now at.now }
    requires names { HasNames (length symbols.now) (T.term tree.now at.now) }
    ensures indicator { option_map (indicator_named symbols.now) result ≡ indicator (named symbols.now (T.term tree.now at.now)) }
    ensures there { IfSome result (λ k. k.name.0 < length symbols.now) }
{
    let (name, count) = match pair_of(tree, at, symbols, "/") {
        Some(parts) => parts,
        None => return None,
    };
    match (atom_at(tree, &name), natural_at(tree, &count)) {
        (Some(name), Some(arity)) => Some(Pi { name, arity }),
        _ => None,
    }
}

/// Whether the terms at some places are such entries.
pub(crate) fn all_indicate<T: Tree>(tree: &T, entries: &[T::At], symbols: &Symbols) -> bool
    requires { All (λ p. T.IsPlace tree.now p × HasNames (length symbols.now) (T.term tree.now p)) entries.now }
    ensures { (w : Database) → the_indicators w (map (λ p. named symbols.now (T.term tree.now p)) entries.now)
        ≡ (if result then Ok w else Err directive) }
{
    'entries: for entry in entries {
        if indicator_of(tree, entry, symbols).is_none() {
            return false;
        }
    }
    true
}
