//! Numbers by places.

ghost use Rattle.std.specs.Prelude.{◌≡◌, ◌<◌, ℕ, None, length, OnOk, OnErr};
ghost use Rattle.name_rules.specs.Spellings.{Place};
ghost use Rattle.name_tables.specs.PlaceMap.Values.{cell_at, number_of, number_at, or_else, there, IsNumbered, AreAsBefore};

use crate::place_map::row::UnitRow;
use qual_base::{NoMemory, Numbered, TokenId, UnitNo};
use std::alloc::Global;

/// A number at each of many places, as for uses of names. Memory is four bytes a token of each unit that has any, up to the last
/// one that has, and constant for each unit up to the last one: as much for few places as for many. For what is at less than one
/// token of eight `PlaceMap` takes less memory, but each look-up is a hash.
///
/// Clauses see it by the number at a place, `number_at`.
#[derive(Drop)]
pub struct PlaceIndex {
    alloc: Global,
    units: Vec<UnitRow>,
}

/// A number that is written as one more; none where that is 0.
fn number_of(cell: u32) -> Option<u32>
    ensures { result ≡ number_of cell }
{
    cell.checked_sub(1)
}

impl PlaceIndex {
    /// No numbers. Takes no memory.
    pub fn new(alloc: Global) -> Self
        ensures { (at : Place) → number_at result at ≡ None }
    {
        PlaceIndex {
            alloc,
            units: Vec::new(alloc),
        }
    }

    /// The number at a place. Constant time.
    pub fn get(&self, at: &(UnitNo, TokenId)) -> Option<u32>
        ensures { result ≡ number_at self.now at.now }
    {
        match self.units.get(at.0.number() as usize) {
            Some(row) => number_of(row.get(at.1)),
            None => None,
        }
    }

    /// Goes on to a unit at least. Linear in the units that come to it, but for growth.
    #[tactic(auto, using(crate::proofs::PlaceMap::Cells::one_more))]
    fn grow(&mut self, unit: UnitNo) -> Result<(), NoMemory>
        ensures room { OnOk result (unit < length self.new.units.items) }
        ensures same { (p : Place)
            → cell_at self.new.units.items p ≡ cell_at self.old.units.items p }
    {
        let last = unit.number() as usize;
        while self.units.len() <= last {
            match self.units.push(UnitRow::new(self.alloc)) {
                Ok(()) => {}
                Err(_) => return Err(NoMemory),
            }
        }
        Ok(())
    }

    /// Has this number be at a place. For want of memory, and where the number is 2^32 - 1, nothing changes. Constant time but for
    /// growth.
    pub fn set(&mut self, at: &(UnitNo, TokenId), number: u32) -> Result<(), NoMemory>
        ensures set { OnOk result (IsNumbered self.old self.new at.now number) }
        ensures err { OnErr result (AreAsBefore self.old self.new) }
    {
        if number == 4_294_967_295 {
            return Err(NoMemory);
        }
        self.grow(at.0)?;
        match self.units[at.0.number() as usize].set(at.1, number + 1) {
            Ok(()) => Ok(()),
            Err(NoMemory) => Err(NoMemory),
        }
    }

    /// Has this number be at a place that has none. For want of memory, and where the number is 2^32 - 1, nothing changes. Constant
    /// time but for growth.
    #[tactic(auto, using(crate::proofs::PlaceMap::Adding::stays, crate::proofs::PlaceMap::Adding::comes))]
    pub fn add(&mut self, at: &(UnitNo, TokenId), number: u32) -> Result<(), NoMemory>
        ensures added { OnOk result ((p : Place)
            → number_at self.new p ≡ or_else (number_at self.old p) (there at.now number p)) }
        ensures err { OnErr result (AreAsBefore self.old self.new) }
    {
        if self.get(at).is_some() {
            return Ok(());
        }
        self.set(at, number)
    }
}
