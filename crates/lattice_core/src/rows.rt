//! Relations on at most 64 elements as rows of bits: bit b of row a says that a is related to b.

ghost use Rattle.std.specs.Prelude.{◌≡◌, ◌≢◌, ℕ, ◌<◌, ◌≤◌, ◌-◌, ◌^◌, ◌↔◌, ◌⊎◌, length, vec_len};
ghost use Rattle.std.specs.Prelude.{IfOk, IsTrue, MatchOption, slice_index, nat_eq};
ghost use Rattle.std.specs.Int.{bit_at};
ghost use Rattle.lattice_core.specs.Rows.{Leads, AreLed, IsClosed};

use std::alloc::{AllocError, Global};

/// Whether a row has an element.
pub fn has(row: u64, at: u8) -> bool
    requires { at < 64 }
    ensures value { result ≡ nat_eq (bit_at row at) 1 }
    ensures exact { IsTrue result ↔ (bit_at row at ≡ 1) }
{
    (row >> at) & 1 == 1
}

/// A row with one element more.
pub fn with(row: u64, at: u8) -> u64
    requires { at < 64 }
    ensures same { bit_at result at ≡ 1 }
    ensures others { (i : ℕ) → i ≢ at → bit_at result i ≡ bit_at row i }
{
    row | 1u64 << at
}

/// The row of all elements below a count from 1 to 64.
pub fn all_below(count: usize) -> u64
    requires some { 0 < count }
    requires few { count ≤ 64 }
    ensures { result ≡ 2 ^ count - 1 }
{
    u64::MAX >> (64 - count)
}

/// What was grown, with the row of an element where `row` has that element.
fn raised(grown: u64, row: u64, at: u8, upper: u64) -> u64
    requires { at < 64 }
    ensures more { grown ≤ result }
    ensures kept { (i : ℕ) → bit_at grown i ≡ 1 → bit_at result i ≡ 1 }
    ensures added { (i : ℕ) → bit_at row at ≡ 1 → bit_at upper i ≡ 1 → bit_at result i ≡ 1 }
    ensures only { (i : ℕ) →
        bit_at result i ≡ 1 → (bit_at grown i ≡ 1) ⊎ ((bit_at row at ≡ 1) × (bit_at upper i ≡ 1)) }
{
    if has(row, at) { grown | upper } else { grown }
}

/// A row with what its elements lead to in one step.
fn step(row: u64, links: &[u64]) -> u64
    requires { length links.now ≤ 64 }
    ensures more { row ≤ result }
    ensures kept { (i : ℕ) → bit_at row i ≡ 1 → bit_at result i ≡ 1 }
    ensures sound { (start : ℕ) → AreLed links.now start row → AreLed links.now start result }
    ensures closed { result ≡ row → IsClosed links.now row }
{
    let mut grown = row;
    for (at, upper) in links.iter().enumerate() {
        grown = raised(grown, row, at as u8, *upper);
    }
    grown
}

/// All elements to which links lead from one, itself among them, in at most 64 rounds.
pub fn reach(start: u8, links: &[u64]) -> u64
    requires start { start < 64 }
    requires few { length links.now ≤ 64 }
    ensures { (i : ℕ) → (bit_at result i ≡ 1) ↔ Leads links.now start i }
{
    let mut row = with(0, start);
    loop {
        let next = step(row, links);
        if next == row {
            return row;
        }
        row = next;
    }
}

/// The reflexive transitive closure of links.
pub fn closure(alloc: Global, links: &[u64]) -> Result<Vec<u64>, AllocError>
    requires { length links.now ≤ 64 }
    ensures len { IfOk result (λ rows. vec_len rows ≡ length links.now) }
    ensures rows { IfOk result (λ rows. (a b : ℕ) →
        a < length links.now → (bit_at (slice_index rows.items a) b ≡ 1) ↔ Leads links.now a b) }
{
    let mut rows = Vec::new(alloc);
    for start in 0..links.len() {
        rows.push(reach(start as u8, links))?;
    }
    Ok(rows)
}

/// A row, with an element more where a test held.
fn noted(row: u64, at: u8, held: bool) -> u64
    requires { at < 64 }
    ensures kept { (i : ℕ) → bit_at row i ≡ 1 → bit_at result i ≡ 1 }
    ensures added { IsTrue held → bit_at result at ≡ 1 }
    ensures only { (i : ℕ) → bit_at result i ≡ 1 → (bit_at row i ≡ 1) ⊎ ((i ≡ at) × IsTrue held) }
{
    if held { with(row, at) } else { row }
}

/// The elements that are related to one.
fn column(rows: &[u64], at: u8) -> u64
    requires at { at < 64 }
    requires few { length rows.now ≤ 64 }
    ensures { (a : ℕ) → (bit_at result a ≡ 1) ↔ (bit_at (slice_index rows.now a) at ≡ 1) }
{
    let mut met = 0;
    for (a, row) in rows.iter().enumerate() {
        met = noted(met, a as u8, has(*row, at));
    }
    met
}

/// The relation read the other way.
pub fn converse(alloc: Global, rows: &[u64]) -> Result<Vec<u64>, AllocError>
    requires { length rows.now ≤ 64 }
    ensures len { IfOk result (λ columns. vec_len columns ≡ length rows.now) }
    ensures columns { IfOk result (λ columns. (a b : ℕ) → b < length rows.now →
        (bit_at (slice_index columns.items b) a ≡ 1) ↔ (bit_at (slice_index rows.now a) b ≡ 1)) }
{
    let mut columns = Vec::new(alloc);
    for b in 0..rows.len() {
        columns.push(column(rows, b as u8))?;
    }
    Ok(columns)
}

/// The first element with a given row, in at most 64 steps.
pub fn find_row(rows: &[u64], row: u64) -> Option<u8>
    requires { length rows.now ≤ 64 }
    ensures { MatchOption result ((k : ℕ) → k < length rows.now → slice_index rows.now k ≢ row)
        (λ k. (k < length rows.now) × (slice_index rows.now k ≡ row)) }
{
    for (k, other) in rows.iter().enumerate() {
        if *other == row {
            return Some(k as u8);
        }
    }
    None
}

/// The first element with a given row that some element has, in at most 64 steps.
pub fn row_of(rows: &[u64], row: u64) -> u8
    requires few { length rows.now ≤ 64 }
    requires there { (k : ℕ) × (k < length rows.now) × (slice_index rows.now k ≡ row) }
    ensures within { result < length rows.now }
    ensures is { slice_index rows.now result ≡ row }
{
    match find_row(rows, row) {
        Some(k) => k,
        None => unreachable!(),
    }
}

/// What is left of a row behind the row of an element of a set.
fn narrowed(left: u64, set: u64, at: u8, row: u64) -> u64
    requires { at < 64 }
    ensures { (i : ℕ) →
        (bit_at result i ≡ 1) ↔ ((bit_at left i ≡ 1) × (bit_at set at ≡ 1 → bit_at row i ≡ 1)) }
{
    if has(set, at) { left & row } else { left }
}

/// What stands in `all` and in the row of each element of a set, in at most 64 steps.
pub fn common(rows: &[u64], set: u64, all: u64) -> u64
    requires { length rows.now ≤ 64 }
    ensures { (i : ℕ) → (bit_at result i ≡ 1) ↔ ((bit_at all i ≡ 1) × ((a : ℕ) →
        a < length rows.now → bit_at set a ≡ 1 → bit_at (slice_index rows.now a) i ≡ 1)) }
{
    let mut left = all;
    for (a, row) in rows.iter().enumerate() {
        left = narrowed(left, set, a as u8, *row);
    }
    left
}
