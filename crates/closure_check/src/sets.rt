//! Sets of elements.

ghost use Rattle.std.specs.Prelude.{◌≡◌, ◌↔◌, IsTrue, slice_index};
ghost use Rattle.lattice_core.specs.Order.{leq};
ghost use Rattle.closure_check.specs.Checking.{AllBelow, IsSubset};
ghost use Rattle.closure_check.specs.Parts.{has};

use lattice_core::Lattice;
use qual_base::{Elem, ElemSet, Numbered, VarId};

/// The set of a variable, empty past the last one.
pub fn set_at(sets: &[ElemSet], at: VarId) -> ElemSet
    ensures { result ≡ slice_index sets.now at }
{
    match sets.get(at.number() as usize) {
        Some(set) => *set,
        None => ElemSet::new(0),
    }
}

/// Whether each element of a set is in another.
pub fn is_subset(one: ElemSet, other: ElemSet) -> bool
    ensures { IsTrue result ↔ IsSubset one other }
{
    one.number() & other.number() == one.number()
}

/// Whether each element of a set is at or below an element. At most 64 steps.
pub fn all_below(lattice: &Lattice, set: ElemSet, limit: Elem) -> bool
    ensures { IsTrue result ↔ AllBelow lattice.now.order set limit }
{
    let bits = set.number();
    for n in 0..64u8 {
        if (bits >> n) & 1 == 1 && !is_at_or_below(lattice, Elem::new(n), limit) {
            return false;
        }
    }
    true
}

/// Whether a set has an element.
pub fn has_elem(set: ElemSet, elem: Elem) -> bool
    ensures { result ≡ has set elem }
{
    let bits = set.number();
    elem.number() < 64 && (bits >> elem.number()) & 1 == 1
}

/// Whether both are elements of the lattice, and the first is at or below the second.
fn is_at_or_below(lattice: &Lattice, one: Elem, other: Elem) -> bool
    ensures { result ≡ leq lattice.now.order one other }
{
    lattice.law();
    let size = lattice.size();
    one.number() < size && other.number() < size && lattice.leq(one, other)
}
