//! The objects and functions of files, in which each is found at once.

ghost use Rattle.std.specs.Prelude.{◌≡◌, ◌∷◌, [], reverse, OnOk, OnErr};
ghost use Rattle.name_rules.specs.Scopes.{thing_of};

use crate::name_scopes::Place;
use qual_base::{NameId, NoMemory, UnitNo};
use std::alloc::Global;
use std::collections::HashMap;
use std::marker::Model;

/// Names of objects and functions of files, each with where it was first declared in its unit. Clauses see their list, the newest
/// first. Memory is linear in it.
#[derive(Drop)]
pub struct Things {
    all: Vec<(NameId, Place)>,
    /// The newest of a unit and a name.
    newest: HashMap<(UnitNo, NameId), Place>,
}

impl Model for Things {
    ghost use Rattle.std.specs.Prelude.{List, ℕ, reverse};
    ghost use Rattle.name_rules.specs.Spellings.{Place};
    ghost use Rattle.name_tables.specs.NameRecords.Held.{AreNewest};

    ghost Value = { List (ℕ × Place) };

    ghost view = { λ s. reverse s.all.items };

    ghost invariant = { λ s. AreNewest (reverse s.all.items) s.newest };
}

impl Things {
    /// No names. Takes no memory.
    pub fn new(alloc: Global) -> Self
        ensures { result ≡ [] }
    {
        Things {
            all: Vec::new(alloc),
            newest: HashMap::new(alloc),
        }
    }

    /// The names with their places, the oldest first. Constant time.
    pub fn as_slice(&self) -> &[(NameId, Place)]
        ensures { reverse result.now ≡ self.now }
    {
        self.all.as_slice()
    }

    /// Where what has a name in a unit was first declared. Takes no memory, and constant time.
    pub fn get(&self, unit: UnitNo, name: NameId) -> Option<Place>
        ensures { result ≡ thing_of unit self.now name }
    {
        self.newest.get(&(unit, name)).copied()
    }

    /// Adds a name. For want of memory they stay as they were. Constant time but for growth.
    pub fn push(&mut self, name: NameId, at: &Place) -> Result<(), NoMemory>
        ensures pushed { OnOk result (self.new ≡ (name, at.now) ∷ self.old) }
        ensures err { OnErr result (self.new ≡ self.old) }
    {
        let count = self.all.len();
        match self.all.push((name, *at)) {
            Ok(()) => {}
            Err(_) => return Err(NoMemory),
        }
        match self.newest.insert((at.0, name), *at) {
            Ok(_) => Ok(()),
            Err(_) => {
                self.all.truncate(count);
                Err(NoMemory)
            }
        }
    }
}
