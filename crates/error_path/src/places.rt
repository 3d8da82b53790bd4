//! The place of each pair of variables among the sub-paths.

ghost use Rattle.std.specs.Prelude.{◌≡◌, ◌≢◌, ℕ, Some, None, OnOk, OnErr};
ghost use Rattle.error_path.specs.Places.{place_in, SamePlaces};

use qual_base::{NoMemory, VarId};
use std::alloc::Global;
use std::collections::HashMap;

/// A place for some pairs.
#[derive(Drop)]
pub struct Places {
    map: HashMap<(VarId, VarId), usize>,
}

impl Places {
    /// No places. Takes no memory.
    pub fn new(alloc: Global) -> Self
        ensures { (u v : ℕ) → place_in result.map u v ≡ None }
    {
        Places {
            map: HashMap::new(alloc),
        }
    }

    /// The place of a pair. Constant time.
    pub fn get(&self, from: VarId, to: VarId) -> Option<usize>
        ensures { result ≡ place_in self.now.map from to }
    {
        self.map.get(&(from, to)).copied()
    }

    /// Gives a pair a place. Constant time but for growth.
    pub fn insert(&mut self, from: VarId, to: VarId, at: usize) -> Result<(), NoMemory>
        ensures here { OnOk result (place_in self.new.map from to ≡ Some at) }
        ensures others { (u v : ℕ) →
            (u ≡ from → v ≢ to) → place_in self.new.map u v ≡ place_in self.old.map u v }
        ensures err { OnErr result (SamePlaces (place_in self.old.map) (place_in self.new.map)) }
    {
        match self.map.insert((from, to), at) {
            Ok(_) => Ok(()),
            Err(_) => Err(NoMemory),
        }
    }
}
