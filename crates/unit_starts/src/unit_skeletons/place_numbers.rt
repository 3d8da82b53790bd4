//! Places by numbers.

ghost use Rattle.std.specs.Prelude.{◌≡◌, ◌++◌, ◌∷◌, [], OnOk, OnErr};
ghost use Rattle.row_rules.specs.Worlds.{number_among};

use name_tables::name_scopes::Place;
use name_tables::place_map::PlaceIndex;
use qual_base::{NoMemory, Numbered, TokenId, UnitNo};
use std::alloc::Global;
use std::marker::Model;

/// Places, numbered in the order in which they were added. Clauses see their list. Memory is linear in it and in the tokens.
#[derive(Drop)]
pub struct PlaceNumbers {
    all: Vec<Place>,
    numbers: PlaceIndex,
}

impl Model for PlaceNumbers {
    ghost use Rattle.std.specs.Prelude.{List, ℕ};
    ghost use Rattle.unit_starts.specs.UnitSkeletons.Numbers.{AreNumbered};

    ghost Value = { List (ℕ × ℕ) };

    ghost view = { λ s. s.all.items };

    ghost invariant = { λ s. AreNumbered s.all.items s.numbers };
}

impl PlaceNumbers {
    /// No places. Takes no memory.
    pub(crate) fn new(alloc: Global) -> Self
        ensures { result ≡ [] }
    {
        PlaceNumbers {
            all: Vec::new(alloc),
            numbers: PlaceIndex::new(alloc),
        }
    }

    /// One more. For want of memory, and where there are 2^32 - 1, they stay as they were. Constant time but for growth.
    pub(crate) fn push(&mut self, at: &Place) -> Result<(), NoMemory>
        ensures pushed { OnOk result (self.new ≡ self.old ++ at.now ∷ []) }
        ensures err { OnErr result (self.new ≡ self.old) }
    {
        let count = self.all.len();
        if count >= 4_294_967_295 {
            return Err(NoMemory);
        }
        match self.all.push(*at) {
            Ok(()) => {}
            Err(_) => return Err(NoMemory),
        }
        match self.numbers.add(at, count as u32) {
            Ok(()) => Ok(()),
            Err(NoMemory) => {
                self.all.truncate(count);
                Err(NoMemory)
            }
        }
    }

    /// The number of the first that is at a place; where there is none, how many there are. Constant time.
    pub fn number(&self, at: &Place) -> u32
        ensures { result ≡ number_among 0 self.now at.now }
    {
        match self.numbers.get(at) {
            Some(number) => number,
            None => self.all.len() as u32,
        }
    }
}
