//! The uses of names so far.

ghost use Rattle.std.specs.Prelude.{◌≡◌, ◌∷◌, ◌++◌, [], OnOk, OnErr};
ghost use Rattle.name_tables.specs.NameRecords.Found.{first_use};
ghost use Rattle.name_tables.specs.PlaceMap.Firsts.{item_of};

use crate::name_records::records::NameUse;
use crate::name_scopes::Place;
use crate::place_map::PlaceIndex;
use qual_base::NoMemory;
use std::alloc::Global;
use std::marker::Model;

/// Uses of names in the order of the text. Clauses see their list. Memory is linear in it and in the tokens.
#[derive(Drop)]
pub struct Uses {
    all: Vec<NameUse>,
    /// The number of the first at each place.
    first: PlaceIndex,
}

impl Model for Uses {
    ghost use Rattle.std.specs.Prelude.{List};
    ghost use Rattle.name_tables.specs.declared.name_records.records.NameUse.{NameUse};
    ghost use Rattle.name_tables.specs.NameRecords.Found.{use_place};
    ghost use Rattle.name_tables.specs.PlaceMap.Firsts.{AreFirst};

    ghost Value = { List NameUse };

    ghost view = { λ s. s.all.items };

    ghost invariant = { λ s. AreFirst use_place s.all.items s.first };
}

/// The use of a number. Constant time.
fn use_by(all: &[NameUse], number: Option<u32>) -> Option<NameUse>
    ensures { result ≡ item_of all.now number }
{
    match number {
        Some(number) => all.get(number as usize).copied(),
        None => None,
    }
}

impl Uses {
    /// No uses. Takes no memory.
    pub fn new(alloc: Global) -> Self
        ensures { result ≡ [] }
    {
        Uses {
            all: Vec::new(alloc),
            first: PlaceIndex::new(alloc),
        }
    }

    /// The uses in the order of the text.
    pub fn as_slice(&self) -> &[NameUse]
        ensures { result.now ≡ self.now }
    {
        self.all.as_slice()
    }

    /// The first use at a place. Takes no memory, and constant time.
    #[tactic(auto, using(crate::proofs::NameRecords::Firsts::use_found))]
    pub fn first_at(&self, at: &Place) -> Option<NameUse>
        ensures { result ≡ first_use self.now at.now }
    {
        use_by(self.all.as_slice(), self.first.get(at))
    }

    /// Adds a use. For want of memory, and where there are 2^32 - 1, they stay as they were. Constant time but for growth.
    #[tactic(auto, using(crate::proofs::NameRecords::Firsts::use_more))]
    pub fn push(&mut self, it: NameUse) -> Result<(), NoMemory>
        ensures pushed { OnOk result (self.new ≡ self.old ++ it ∷ []) }
        ensures err { OnErr result (self.new ≡ self.old) }
    {
        let count = self.all.len();
        if count >= 4_294_967_295 {
            return Err(NoMemory);
        }
        match self.all.push(it) {
            Ok(()) => {}
            Err(_) => return Err(NoMemory),
        }
        match self.first.add(&it.at, count as u32) {
            Ok(()) => Ok(()),
            Err(NoMemory) => {
                self.all.truncate(count);
                Err(NoMemory)
            }
        }
    }
}
