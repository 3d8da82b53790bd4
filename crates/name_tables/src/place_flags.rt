//! Flags at some places of a program: which operands of a selection may be taken.
//! Entry: `PlaceFlags`. Invariant: a place has the row that was added first.
//! It does not know what the flags say. `unit_starts` and `row_world` stand above.

ghost use Rattle.std.specs.Prelude.{◌≡◌, ℕ, None, Some, OnOk, false, is_some, if◌then◌else◌};
ghost use Rattle.name_rules.specs.Spellings.{Place};
ghost use Rattle.name_rules.specs.Scopes.{is_place};
ghost use Rattle.name_tables.specs.PlaceMap.Values.{or_else, there};
ghost use Rattle.name_tables.specs.PlaceFlags.Flags.{flag_at, flag_in, row_at};

use qual_base::{NoMemory, TokenId, UnitNo};
use std::alloc::Global;
use std::collections::HashMap;

/// Flags in order at each of few places, as for the parts of few nodes. Memory is linear in their number.
///
/// Clauses see it by the row of flags at a place, `row_at`, and by the flag of a number there, `flag_at`.
#[derive(Drop)]
pub struct PlaceFlags {
    rows: HashMap<(UnitNo, TokenId), Vec<bool>>,
}

/// The flag of a number in a row; past its end none is set.
fn flag(row: &[bool], number: usize) -> bool
    ensures { result ≡ flag_in row.now number }
{
    match row.get(number) {
        Some(is) => *is,
        None => false,
    }
}

impl PlaceFlags {
    /// No flags. Takes no memory.
    pub fn new(alloc: Global) -> Self
        ensures { (p : Place) → row_at result p ≡ None }
    {
        PlaceFlags {
            rows: HashMap::new(alloc),
        }
    }

    /// The flag of a number at a place; none is set where there is none. Constant time.
    pub fn get(&self, at: &(UnitNo, TokenId), number: usize) -> bool
        ensures { result ≡ flag_at self.now at.now number }
    {
        match self.rows.get(at) {
            Some(row) => flag(row, number),
            None => false,
        }
    }

    /// Whether a place has a row. Constant time.
    fn has(&self, at: &(UnitNo, TokenId)) -> bool
        ensures { result ≡ is_some (row_at self.now at.now) }
    {
        match self.rows.get(at) {
            Some(_) => true,
            None => false,
        }
    }

    /// Has this row be at a place. Constant time but for growth.
    fn set(&mut self, at: &(UnitNo, TokenId), row: Vec<bool>) -> Result<(), NoMemory>
        ensures { OnOk result ((p : Place)
            → row_at self.new p ≡ if is_place at.now p then Some row.items else row_at self.old p) }
    {
        match self.rows.insert(*at, row) {
            Ok(_) => Ok(()),
            Err(_) => Err(NoMemory),
        }
    }

    /// Has this row of flags be at a place that has none. Constant time but for growth.
    #[tactic(auto, using(crate::proofs::PlaceFlags::Rows::row_stays, crate::proofs::PlaceFlags::Rows::row_comes))]
    pub fn add(&mut self, at: &(UnitNo, TokenId), row: Vec<bool>) -> Result<(), NoMemory>
        ensures { OnOk result ((p : Place)
            → row_at self.new p ≡ or_else (row_at self.old p) (there at.now row.items p)) }
    {
        if self.has(at) {
            return Ok(());
        }
        self.set(at, row)
    }
}
