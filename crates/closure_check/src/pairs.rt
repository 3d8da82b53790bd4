//! Pairs of variables that ascend, and whether one is among them.

ghost use Rattle.std.specs.Prelude.{◌≡◌, ◌<◌, ◌≤◌, ℕ, true, false, Some, length, slice_get};
ghost use Rattle.closure_check.specs.Parts.{AreAscending, is_among, is_below, is_that};

use qual_base::{Numbered, VarId};

/// Whether the pair of two variables is there. Logarithmic.
pub fn has_pair(pairs: &[(VarId, VarId)], from: VarId, to: VarId) -> bool
    requires { AreAscending pairs.now }
    ensures { result ≡ is_among pairs.now from to }
{
    let at = place_of(pairs, from, to);
    if at >= pairs.len() {
        return false;
    }
    is_that(pairs[at], from, to)
}

/// The place of the first pair that does not come before that of two variables. Logarithmic.
fn place_of(pairs: &[(VarId, VarId)], from: VarId, to: VarId) -> usize
    requires { AreAscending pairs.now }
    ensures within { result ≤ length pairs.now }
    ensures before { (k : ℕ) (p : ℕ × ℕ) → k < result →
        slice_get pairs.now k ≡ Some p → is_below p from to ≡ true }
    ensures behind { (k : ℕ) (p : ℕ × ℕ) → result ≤ k →
        slice_get pairs.now k ≡ Some p → is_below p from to ≡ false }
{
    let mut low = 0;
    let mut high = pairs.len();
    while low < high {
        let middle = low + (high - low) / 2;
        if is_below(pairs[middle], from, to) {
            low = middle + 1;
        } else {
            high = middle;
        }
    }
    low
}

/// Whether a pair comes before that of two variables.
pub fn is_below(one: (VarId, VarId), from: VarId, to: VarId) -> bool
    ensures { result ≡ is_below one from to }
{
    one.0.number() < from.number() || one.0 == from && one.1.number() < to.number()
}

/// Whether a pair is that of two variables.
fn is_that(one: (VarId, VarId), from: VarId, to: VarId) -> bool
    ensures { result ≡ is_that one from to }
{
    one.0 == from && one.1 == to
}
