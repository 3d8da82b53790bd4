//! The declarations so far.

ghost use Rattle.std.specs.Prelude.{◌≡◌, ◌∷◌, ◌++◌, [], OnOk, OnErr};
ghost use Rattle.name_tables.specs.NameRecords.Records.{first_declared};
ghost use Rattle.name_tables.specs.PlaceMap.Firsts.{item_of};

use crate::name_scopes::Place;
use crate::place_map::PlaceIndex;
use qual_base::{NoMemory, StructId, TypeId};
use std::alloc::Global;
use std::marker::Model;

/// What a declaration declares.
#[derive(Clone, Copy, PartialEq, Eq, Debug, Drop)]
pub enum Role {
    Typedef,
    Object,
    Function,
    /// With its number among the parameters.
    Parameter(usize),
    /// With the number of the struct and that among its own members.
    Field(StructId, usize),
    Enumerator,
}

/// A declaration; its thing was first declared at `first`, and belongs to the function that was first declared at `owner`.
#[derive(Clone, Copy, PartialEq, Eq, Debug, Drop)]
pub struct Declared {
    pub at: Place,
    pub role: Role,
    pub first: Place,
    pub ty: TypeId,
    pub owner: Option<Place>,
}

/// Declarations in the order of the text. Clauses see their list. Memory is linear in it and in the tokens.
#[derive(Drop)]
pub struct Declarations {
    all: Vec<Declared>,
    /// The number of the first at each place.
    first: PlaceIndex,
}

impl Model for Declarations {
    ghost use Rattle.std.specs.Prelude.{List};
    ghost use Rattle.name_tables.specs.declared.name_records.declarations.Declared.{Declared};
    ghost use Rattle.name_tables.specs.NameRecords.Records.{declared_place};
    ghost use Rattle.name_tables.specs.PlaceMap.Firsts.{AreFirst};

    ghost Value = { List Declared };

    ghost view = { λ s. s.all.items };

    ghost invariant = { λ s. AreFirst declared_place s.all.items s.first };
}

/// The declaration of a number. Constant time.
fn declared_by(all: &[Declared], number: Option<u32>) -> Option<Declared>
    ensures { result ≡ item_of all.now number }
{
    match number {
        Some(number) => all.get(number as usize).copied(),
        None => None,
    }
}

impl Declarations {
    /// No declarations. Takes no memory.
    pub fn new(alloc: Global) -> Self
        ensures { result ≡ [] }
    {
        Declarations {
            all: Vec::new(alloc),
            first: PlaceIndex::new(alloc),
        }
    }

    /// The declarations in the order of the text.
    pub fn as_slice(&self) -> &[Declared]
        ensures { result.now ≡ self.now }
    {
        self.all.as_slice()
    }

    /// The first declaration at a place. Takes no memory, and constant time.
    #[tactic(auto, using(crate::proofs::NameRecords::Firsts::declared_found))]
    pub fn first_at(&self, at: &Place) -> Option<Declared>
        ensures { result ≡ first_declared self.now at.now }
    {
        declared_by(self.all.as_slice(), self.first.get(at))
    }

    /// Adds a declaration. For want of memory, and where there are 2^32 - 1, they stay as they were. Constant time but for growth.
    #[tactic(auto, using(crate::proofs::NameRecords::Firsts::one_more))]
    pub fn push(&mut self, declared: Declared) -> Result<(), NoMemory>
        ensures pushed { OnOk result (self.new ≡ self.old ++ declared ∷ []) }
        ensures err { OnErr result (self.new ≡ self.old) }
    {
        let count = self.all.len();
        if count >= 4_294_967_295 {
            return Err(NoMemory);
        }
        match self.all.push(declared) {
            Ok(()) => {}
            Err(_) => return Err(NoMemory),
        }
        match self.first.add(&declared.at, count as u32) {
            Ok(()) => Ok(()),
            Err(NoMemory) => {
                self.all.truncate(count);
                Err(NoMemory)
            }
        }
    }
}
