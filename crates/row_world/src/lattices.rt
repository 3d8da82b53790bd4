//! What annotation words name.

ghost use Rattle.std.specs.Prelude.{◌≡◌, ◌<◌, ◌≤◌, ◌+◌, ◌^◌, MatchOption, option_map, drop, if◌then◌else◌};
ghost use Rattle.row_rules.specs.Worlds.{World};
ghost use Rattle.row_rules.specs.Annotations.{access_from, access_lattices, bounds_accesses, entry_at, is_access};
ghost use Rattle.row_world.specs.Shown.{Shows, entry_of, IsMark};

use crate::known::Known;
use lattice_core::{Deref, Entry, Lattice, Lattices};
use name_tables::name_scopes::Place;
use qual_base::{Elem, LatticeNo, Numbered};

impl<'a> Known<'a> {
    /// The lattice and the element that the annotation word at a place names. Constant time.
    pub fn mark(&self, at: &Place) -> Option<(LatticeNo, Elem)>
        ensures { (w : World) → Shows self.now w → result ≡ w.mark at.now }
    {
        self.marks.get(at)
    }

    /// The element that a mark names, with its attributes. Constant time.
    pub fn entry(&self, mark: &(LatticeNo, Elem)) -> Option<&Entry>
        ensures is { (w : World) → Shows self.now w →
            option_map (λ it. it.now) result ≡ entry_at w mark.now }
        ensures low { MatchOption result (Unit {0}) (λ it. IsMark mark.now) }
    {
        entry(self.lattices, mark)
    }
}

/// Whether an element bounds accesses.
fn is_access(entry: &Entry) -> bool
    ensures { result ≡ is_access entry.now.deref }
{
    match entry.deref {
        Deref::Access => true,
        Deref::No => false,
        Deref::Yes => false,
    }
}

/// Whether an element of a lattice bounds accesses, from one on. In at most 64 steps.
#[cycle(elements)]
#[tactic(auto, using(crate::proofs::Accessing::entry_there, crate::proofs::Accessing::no_entry_left))]
fn has_access(lattice: &Lattice, n: u8) -> bool
    ensures { result ≡ bounds_accesses (drop n lattice.now.entries) }
{
    lattice.law();
    if n >= lattice.size() {
        return false;
    }
    is_access(lattice.entry(Elem::new(n))) || has_access(lattice, n + 1)
}

/// The bit of a lattice, where an element of it bounds accesses.
fn access_bit(lattice: &Lattice, n: u8) -> u16
    requires { n < 16 }
    ensures bit { result ≡ if bounds_accesses lattice.now.entries then 2 ^ n else 0 }
    ensures room { result ≤ 2 ^ n }
{
    if has_access(lattice, 0) { 1u16 << n } else { 0 }
}

/// The lattices from one on with an element that bounds accesses, a bit for each. Linear in their elements.
#[cycle(lattices)]
#[tactic(auto, using(crate::proofs::Accessing::view_there, crate::proofs::Accessing::no_view_left, crate::proofs::Accessing::has_room))]
fn access_from(lattices: &Lattices, n: u8) -> u16
    requires { n ≤ 16 }
    ensures bits { result ≡ access_from n (drop n lattices.now) }
    ensures room { result + 2 ^ n ≤ 65536 }
{
    if n >= lattices.len() {
        return 0;
    }
    let bit = access_bit(lattices.get(LatticeNo::new(n)), n);
    let others = access_from(lattices, n + 1);
    bit + others
}

/// The lattices with an element that bounds accesses, a bit for each. Linear in their elements.
pub fn access_lattices(lattices: &Lattices) -> u16
    ensures { result ≡ access_lattices lattices.now }
{
    access_from(lattices, 0)
}

/// An element of lattices with its attributes.
fn entry<'a>(lattices: &'a Lattices, mark: &(LatticeNo, Elem)) -> Option<&'a Entry>
    ensures is { option_map (λ it. it.now) result ≡ entry_of lattices.now mark.now }
    ensures low { MatchOption result (Unit {0}) (λ it. IsMark mark.now) }
{
    if mark.0.number() >= lattices.len() {
        return None;
    }
    let lattice = lattices.get(mark.0);
    lattice.law();
    if mark.1.number() >= lattice.size() {
        return None;
    }
    Some(lattice.entry(mark.1))
}
