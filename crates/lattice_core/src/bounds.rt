//! Bounds of two elements by the rows of an order, and the first two elements that lack one.

ghost use Rattle.std.specs.Prelude.{◌≡◌, ℕ, ◌<◌, ◌≤◌, length, MatchOption, MatchBool};
ghost use Rattle.lattice_core.specs.Order.{IsOrder, IsLeastUpper};
ghost use Rattle.lattice_core.specs.Rows.{order_of};
ghost use Rattle.lattice_core.specs.Tables.{IsConverse};
ghost use Rattle.lattice_core.specs.Building.{LacksBound, HasBounds, AreBounded, IsNextTo};
ghost use Rattle.lattice_core.specs.Building.{IsFirstPair};

use crate::rows::find_row;

/// The least upper bound of two elements, if there is one, in at most 64 steps: the element above which stand exactly
/// those above both.
pub fn least_upper(rows: &[u64], a: usize, b: usize) -> Option<u8>
    requires few { length rows.now ≤ 64 }
    requires ordered { IsOrder (order_of rows.now) }
    requires first { a < length rows.now }
    requires second { b < length rows.now }
    ensures { MatchOption result ((c : ℕ) → IsLeastUpper (order_of rows.now) a b c → ⊥)
        (IsLeastUpper (order_of rows.now) a b) }
{
    find_row(rows, rows[a] & rows[b])
}

/// Whether two elements have a least upper and a greatest lower bound.
fn is_bounded(above: &[u64], below: &[u64], a: usize, b: usize) -> bool
    requires few { length above.now ≤ 64 }
    requires ordered { IsOrder (order_of above.now) }
    requires converse { IsConverse above.now below.now }
    requires first { a < length above.now }
    requires second { b < length above.now }
    ensures { MatchBool result
        (HasBounds (order_of above.now) a b) (LacksBound (order_of above.now) a b) }
{
    least_upper(above, a, b).is_some() && least_upper(below, a, b).is_some()
}

/// The first element behind `a` with which it lacks a bound.
fn lack_from(above: &[u64], below: &[u64], a: usize) -> Option<usize>
    requires few { length above.now ≤ 64 }
    requires ordered { IsOrder (order_of above.now) }
    requires converse { IsConverse above.now below.now }
    requires within { a < length above.now }
    ensures { MatchOption result (AreBounded (order_of above.now) a (length above.now))
        (IsNextTo (LacksBound (order_of above.now)) (length above.now) a) }
{
    for b in a + 1..above.len() {
        if !is_bounded(above, below, a, b) {
            return Some(b);
        }
    }
    None
}

/// The first two elements that lack a bound, in at most 64 steps for each two elements.
pub fn first_lack(above: &[u64], below: &[u64]) -> Option<(usize, usize)>
    requires few { length above.now ≤ 64 }
    requires ordered { IsOrder (order_of above.now) }
    requires converse { IsConverse above.now below.now }
    ensures { MatchOption result
        ((a : ℕ) → a < length above.now → AreBounded (order_of above.now) a (length above.now))
        (λ (a, b). IsFirstPair (LacksBound (order_of above.now)) (length above.now) a b) }
{
    for a in 0..above.len() {
        if let Some(b) = lack_from(above, below, a) {
            return Some((a, b));
        }
    }
    None
}
