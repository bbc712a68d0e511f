ghost use Rattle.std.specs.Prelude.{◌≡◌, ◌<◌, ℕ, List, length, map, All, IfOk, IfSome, option_map};
ghost use Rattle.op_logic.specs.Names.{HasNames, name_at, named};
ghost use Rattle.op_store.specs.Directives.{atom_name, atom_names, integer, natural};
ghost use Rattle.op_store.specs.inner.Shapes.{is_atom as the_atom, names_of};

use crate::terms::shape::{Shape, shape_of};
use op_base::Memory;
use op_term::{Sym, Symbols, Tree};
use std::alloc::Global;

/// The name of the atom at a place; None where there is another term.
pub(crate) fn atom_at<T: Tree>(tree: &T, at: &T::At) -> Option<Sym>
    requires { T.IsPlace tree.now at.now }
    ensures name { (names : List (List ℕ)) → option_map (λ s. name_at names s.0) result ≡ atom_name (named names (T.term tree.now at.now)) }
    ensures there { (n : ℕ) → HasNames n (T.term tree.now at.now) → IfSome result (λ s. s.0 < n) }
{
    match shape_of(tree, at) {
        Shape::Atom(name) => Some(name),
        _ => None,
    }
}

/// Whether an atom of a name is at a place.
pub(crate) fn is_atom<T: Tree>(tree: &T, at: &T::At, symbols: &Symbols, name: &str) -> bool
    requires place { T.IsPlace tree.now at.now }
    requires names { HasNames (length symbols.now) (T.term tree.now at.now) }
    ensures { result ≡ the_atom name.now (named symbols.now (T.term tree.now at.now)) }
{
    match shape_of(tree, at) {
        Shape::Atom(f) => symbols.name_of(f) == name,
        _ => false,
    }
}

/// The integer at a place.
pub(crate) fn integer_at<T: Tree>(tree: &T, at: &T::At) -> Option<i64>
    requires { T.IsPlace tree.now at.now }
    ensures { (names : List (List ℕ)) → result ≡ integer (named names (T.term tree.now at.now)) }
{
    match shape_of(tree, at) {
        Shape::Int(i) => Some(i),
        _ => None,
    }
}

/// The integer at a place, where it is none below 0.
pub(crate) fn natural_at<T: Tree>(tree: &T, at: &T::At) -> Option<u64>
    requires { T.IsPlace tree.now at.now }
    ensures { (names : List (List ℕ)) → result ≡ natural (named names (T.term tree.now at.now)) }
{
    match integer_at(tree, at) {
        Some(i) => { if i < 0 { None } else { Some(i as u64) } }
        None => None,
    }
}

/// The names of the atoms at some places; None where one is no atom.
pub(crate) fn atoms_at<T: Tree>(
    alloc: Global,
    tree: &T,
    places: &[T::At],
) -> Result<Option<Vec<Sym>>, Memory>
    requires { All (λ p. T.IsPlace tree.now p) places.now }
    ensures names { IfOk result (λ o. (names : List (List ℕ))
        → option_map (λ v. names_of names v.items) o ≡ atom_names (map (λ p. named names (T.term tree.now p)) places.now)) }
    ensures there { IfOk result (λ o. (n : ℕ) → All (λ p. HasNames n (T.term tree.now p)) places.now
        → IfSome o (λ v. All (λ s. s.0 < n) v.items)) }
{
    let mut atoms = Vec::new(alloc);
    'atoms: for at in places {
        match atom_at(tree, at) {
            Some(name) => atoms.push(name)?,
            None => return Ok(None),
        }
    }
    Ok(Some(atoms))
}
