//! The types' names so far.

ghost use Rattle.std.specs.Prelude.{◌≡◌, ◌∷◌, ◌++◌, [], OnOk, OnErr};
ghost use Rattle.name_tables.specs.NameRecords.Found.{first_type};

use crate::name_records::records::TypeNamed;
use crate::name_scopes::Place;
use crate::place_map::PlaceMap;
use qual_base::{NoMemory, TypeId};
use std::alloc::Global;
use std::marker::Model;

/// Types' names in the order of the text. Clauses see their list. Memory is linear in it.
#[derive(Drop)]
pub struct TypeNames {
    all: Vec<TypeNamed>,
    /// The first at each place.
    first: PlaceMap<TypeId>,
}

impl Model for TypeNames {
    ghost use Rattle.std.specs.Prelude.{List};
    ghost use Rattle.name_tables.specs.declared.name_records.records.TypeNamed.{TypeNamed};
    ghost use Rattle.name_tables.specs.NameRecords.Found.{AreFirstTypes};

    ghost Value = { List TypeNamed };

    ghost view = { λ s. s.all.items };

    ghost invariant = { λ s. AreFirstTypes s.all.items s.first };
}

impl TypeNames {
    /// No types' names. Takes no memory.
    pub fn new(alloc: Global) -> Self
        ensures { result ≡ [] }
    {
        TypeNames {
            all: Vec::new(alloc),
            first: PlaceMap::new(alloc),
        }
    }

    /// The types' names in the order of the text.
    pub fn as_slice(&self) -> &[TypeNamed]
        ensures { result.now ≡ self.now }
    {
        self.all.as_slice()
    }

    /// The type whose name begins at a place, the first one. Takes no memory, and constant time.
    pub fn first_at(&self, at: &Place) -> Option<TypeId>
        ensures { result ≡ first_type self.now at.now }
    {
        self.first.get(at)
    }

    /// Adds a type's name. For want of memory they stay as they were. Constant time but for growth.
    #[tactic(auto, using(crate::proofs::NameRecords::Firsts::type_more))]
    pub fn push(&mut self, it: TypeNamed) -> Result<(), NoMemory>
        ensures pushed { OnOk result (self.new ≡ self.old ++ it ∷ []) }
        ensures err { OnErr result (self.new ≡ self.old) }
    {
        let count = self.all.len();
        match self.all.push(it) {
            Ok(()) => {}
            Err(_) => return Err(NoMemory),
        }
        match self.first.add(&it.at, &it.ty) {
            Ok(()) => Ok(()),
            Err(NoMemory) => {
                self.all.truncate(count);
                Err(NoMemory)
            }
        }
    }
}
