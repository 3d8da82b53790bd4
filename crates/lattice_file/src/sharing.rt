//! Names that stand in more than one lattice.

ghost use Rattle.std.specs.Prelude.{◌≡◌, ◌≤◌, ◌<◌, ℕ, List, length, MatchBool, MatchOption};
ghost use Rattle.lattice_file.specs.Sharing.{IsNamedBefore, IsShared, AreApart, IsFirstShared};
ghost use Rattle.lattice_file.specs.Sharing.{IsFirstSharedIn};

use lattice_core::Lattices;
use qual_base::{Elem, LatticeNo};

/// Whether one of the first lattices has an element with a name, in at most 1,024 steps.
fn is_named_before(all: &Lattices, end: u8, word: &[u8]) -> bool
    requires { end ≤ length all.now }
    ensures { MatchBool result
        (IsNamedBefore all.now end word.now) (IsNamedBefore all.now end word.now → ⊥) }
{
    for at in 0..end {
        if let Some(_) = all.get(LatticeNo::new(at)).find(word) {
            return true;
        }
    }
    false
}

/// The name of the first element of a lattice whose name an earlier lattice has.
fn shared_in(all: &Lattices, at: u8) -> Option<&[u8]>
    requires { at < length all.now }
    ensures { MatchOption result ((elem : ℕ) (name : List ℕ) → IsShared all.now at elem name → ⊥)
        (λ name. IsFirstSharedIn all.now at name.now) }
{
    let lattice = all.get(LatticeNo::new(at));
    lattice.law();
    for elem in 0..lattice.size() {
        let name = lattice.name_of(Elem::new(elem));
        if is_named_before(all, at, name) {
            return Some(name);
        }
    }
    None
}

/// The first name that an earlier lattice has, in at most 1,048,576 steps.
pub fn first_shared(all: &Lattices) -> Option<&[u8]>
    ensures { MatchOption result
        (AreApart all.now (length all.now)) (λ name. IsFirstShared all.now name.now) }
{
    for at in 0..all.len() {
        if let Some(name) = shared_in(all, at) {
            return Some(name);
        }
    }
    None
}
