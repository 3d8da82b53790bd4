//! Bodies of functions, in which each is found at once.

ghost use Rattle.std.specs.Prelude.{◌≡◌, ◌∷◌, [], map, reverse, OnOk, OnErr};
ghost use Rattle.name_rules.specs.Declaring.{has_body_in};
ghost use Rattle.name_tables.specs.NameRecords.Held.{bodied_of};

use crate::name_scopes::Place;
use qual_base::{NoMemory, UnitNo};
use std::alloc::Global;
use std::collections::HashMap;
use std::marker::Model;

/// A body at a function's name, by where the function was first declared in this unit or in the prelude. It is plain without
/// `inline`.
#[derive(Clone, Copy, PartialEq, Eq, Debug, Drop)]
pub struct Bodied {
    pub first: Place,
    pub at: Place,
    pub is_plain: bool,
}

/// Bodies of functions. Clauses see their list, the newest first. Memory is linear in it.
#[derive(Drop)]
pub struct Bodies {
    all: Vec<Bodied>,
    /// The functions that have a body in a unit.
    known: HashMap<(Place, UnitNo), ()>,
}

impl Model for Bodies {
    ghost use Rattle.std.specs.Prelude.{List, reverse};
    ghost use Rattle.name_tables.specs.declared.name_records.bodies.Bodied.{Bodied};
    ghost use Rattle.name_tables.specs.NameRecords.Held.{AreKnown};

    ghost Value = { List Bodied };

    ghost view = { λ s. reverse s.all.items };

    ghost invariant = { λ s. AreKnown (reverse s.all.items) s.known };
}

impl Bodies {
    /// No bodies. Takes no memory.
    pub fn new(alloc: Global) -> Self
        ensures { result ≡ [] }
    {
        Bodies {
            all: Vec::new(alloc),
            known: HashMap::new(alloc),
        }
    }

    /// The bodies, the oldest first. Constant time.
    pub fn as_slice(&self) -> &[Bodied]
        ensures { reverse result.now ≡ self.now }
    {
        self.all.as_slice()
    }

    /// Whether a function has a body in a unit. Takes no memory, and constant time.
    pub fn has(&self, unit: UnitNo, first: &Place) -> bool
        ensures { result ≡ has_body_in unit (map bodied_of self.now) first.now }
    {
        self.known.contains_key(&(*first, unit))
    }

    /// Adds a body. For want of memory they stay as they were. Constant time but for growth.
    pub fn push(&mut self, body: &Bodied) -> Result<(), NoMemory>
        ensures pushed { OnOk result (self.new ≡ body.now ∷ self.old) }
        ensures err { OnErr result (self.new ≡ self.old) }
    {
        let count = self.all.len();
        match self.all.push(*body) {
            Ok(()) => {}
            Err(_) => return Err(NoMemory),
        }
        match self.known.insert((body.first, body.at.0), ()) {
            Ok(_) => Ok(()),
            Err(_) => {
                self.all.truncate(count);
                Err(NoMemory)
            }
        }
    }
}
