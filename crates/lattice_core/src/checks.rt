//! The tests that entries and order lines must pass, one for each reason to refuse them.

ghost use Rattle.std.specs.Prelude.{◌≡◌, ◌≢◌, ℕ, ◌<◌, ◌≤◌, ◌↔◌, Some, None, length, vec_len, IfOk};
ghost use Rattle.std.specs.Prelude.{IfErr, MatchOption, slice_index, take};
ghost use Rattle.std.specs.Int.{bit_at};
ghost use Rattle.lattice_core.specs.Entries.{number_of, name_at, AreDistinct, IsFirstRepeated};
ghost use Rattle.lattice_core.specs.Entries.{AreOfOneLevel, IsFirstMixed};
ghost use Rattle.lattice_core.specs.Building.{IsWritten, first_unknown, IsUnknown, IsFirstUnknown};
ghost use Rattle.lattice_core.specs.Building.{IsCycle, IsFirstPair, HasNoPair, IsNextTo, HasNone};
ghost use Rattle.lattice_core.specs.Rows.{order_of};

use crate::rows::{has, with};
use crate::{Entry, LatticeFault, Name, Pair};
use std::alloc::{AllocError, Global};

/// The number of the first entry with a name, in at most as many steps as there are entries.
pub fn find_name(entries: &[Entry], name: &[u8]) -> Option<usize>
    ensures { result ≡ number_of entries.now name.now }
{
    entries.iter().position(|entry| name == entry.name.bytes())
}

/// A copy of an entry's name.
pub fn name_of(alloc: Global, entries: &[Entry], at: usize) -> Result<Name, AllocError>
    requires { at < length entries.now }
    ensures { IfOk result (λ name. name_at entries.now at ≡ Some name) }
{
    entries[at].name.copy(alloc)
}

/// The first entry whose name an earlier entry has.
pub fn first_repeated(entries: &[Entry]) -> Option<usize>
    ensures { MatchOption result
        (AreDistinct entries.now (length entries.now)) (IsFirstRepeated entries.now) }
{
    for (k, entry) in entries.iter().enumerate() {
        if find_name(&entries[..k], entry.name.bytes()).is_some() {
            return Some(k);
        }
    }
    None
}

/// The first entry whose level is not that of the first entry.
pub fn first_mixed(entries: &[Entry]) -> Option<usize>
    ensures { MatchOption result
        (AreOfOneLevel entries.now (length entries.now)) (IsFirstMixed entries.now) }
{
    for (k, entry) in entries.iter().enumerate() {
        if entry.level != entries[0].level {
            return Some(k);
        }
    }
    None
}

/// The number of an entry by a name of an order line.
fn number(alloc: Global, entries: &[Entry], name: &Name) -> Result<u8, LatticeFault>
    requires { length entries.now ≤ 64 }
    ensures number { IfOk result (λ n. number_of entries.now name.now ≡ Some n) }
    ensures within { IfOk result (λ n. n < length entries.now) }
    ensures unknown { IfErr result (IsUnknown entries.now name.now) }
{
    match find_name(entries, name.bytes()) {
        Some(n) => Ok(n as u8),
        None => Err(LatticeFault::UnknownName(name.copy(alloc)?)),
    }
}

/// The order lines as links from lower to upper entries, in one pass over them.
pub fn links(alloc: Global, entries: &[Entry], pairs: &[Pair]) -> Result<Vec<u64>, LatticeFault>
    requires { length entries.now ≤ 64 }
    ensures len { IfOk result (λ rows. vec_len rows ≡ length entries.now) }
    ensures rows { IfOk result (λ rows. (a b : ℕ) →
        (bit_at (slice_index rows.items a) b ≡ 1) ↔ IsWritten entries.now pairs.now a b) }
    ensures known { IfOk result (λ rows. first_unknown entries.now pairs.now ≡ None) }
    ensures unknown { IfErr result (IsFirstUnknown entries.now pairs.now) }
{
    let mut rows = vec![in alloc; 0u64; entries.len()]?;
    for pair in pairs {
        let low = number(alloc, entries, &pair.low)?;
        let high = number(alloc, entries, &pair.high)?;
        rows[low as usize] = with(rows[low as usize], high);
    }
    Ok(rows)
}

/// The first entry behind entry `a` in a cycle with it.
fn cycle_from(above: &[u64], a: usize) -> Option<usize>
    requires few { length above.now ≤ 64 }
    requires within { a < length above.now }
    ensures { MatchOption result (HasNone (IsCycle (order_of above.now)) a (length above.now))
        (IsNextTo (IsCycle (order_of above.now)) (length above.now) a) }
{
    for b in a + 1..above.len() {
        if has(above[a], b as u8) && has(above[b], a as u8) {
            return Some(b);
        }
    }
    None
}

/// The first two different entries each of which is below the other.
pub fn first_cycle(above: &[u64]) -> Option<(usize, usize)>
    requires { length above.now ≤ 64 }
    ensures { MatchOption result (HasNoPair (IsCycle (order_of above.now)) (length above.now))
        (λ (a, b). IsFirstPair (IsCycle (order_of above.now)) (length above.now) a b) }
{
    for a in 0..above.len() {
        if let Some(b) = cycle_from(above, a) {
            return Some((a, b));
        }
    }
    None
}
