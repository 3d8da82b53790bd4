//! Values by places.

ghost use Rattle.std.specs.Prelude.{◌≡◌, None, OnOk, OnErr};
ghost use Rattle.name_rules.specs.Spellings.{Place};
ghost use Rattle.name_tables.specs.PlaceMap.Values.{value_at, or_else, there, IsSet, AreSame};

use qual_base::{NoMemory, TokenId, UnitNo};
use std::alloc::Global;
use std::collections::HashMap;

/// A value at each of few places, as for call sites. Memory is linear in their number alone, 27 to 54 bytes a value of four bytes.
/// Where over one token of eight has something, `PlaceIndex` takes less, and finds it faster.
///
/// Clauses see it by the value at a place, `value_at`.
#[derive(Drop)]
pub struct PlaceMap<V> {
    map: HashMap<(UnitNo, TokenId), V>,
}

impl<V: Copy + Drop> PlaceMap<V> {
    /// No values. Takes no memory.
    pub fn new(alloc: Global) -> Self
        ensures { (at : Place) → value_at result at ≡ None }
    {
        PlaceMap {
            map: HashMap::new(alloc),
        }
    }

    /// The value at a place. Constant time.
    pub fn get(&self, at: &(UnitNo, TokenId)) -> Option<V>
        ensures { result ≡ value_at self.now at.now }
    {
        self.map.get(at).copied()
    }

    /// Has this value be at a place. For want of memory nothing changes. Constant time but for growth.
    pub fn set(&mut self, at: &(UnitNo, TokenId), value: &V) -> Result<(), NoMemory>
        ensures set { OnOk result (IsSet self.old self.new at.now value.now) }
        ensures err { OnErr result (AreSame self.old self.new) }
    {
        match self.map.insert(*at, *value) {
            Ok(_) => Ok(()),
            Err(_) => Err(NoMemory),
        }
    }

    /// Has this value be at a place that has none. For want of memory nothing changes. Constant time but for growth.
    #[tactic(auto, using(crate::proofs::PlaceMap::Adding::stays, crate::proofs::PlaceMap::Adding::comes))]
    pub fn add(&mut self, at: &(UnitNo, TokenId), value: &V) -> Result<(), NoMemory>
        ensures added { OnOk result ((p : Place)
            → value_at self.new p ≡ or_else (value_at self.old p) (there at.now value.now p)) }
        ensures err { OnErr result (AreSame self.old self.new) }
    {
        if self.get(at).is_some() {
            return Ok(());
        }
        self.set(at, value)
    }
}
