//! Members of structs and unions, each found at once by its name.

ghost use Rattle.std.specs.Prelude.{◌≡◌, None, OnOk};
ghost use Rattle.name_rules.specs.Spellings.{Place};
ghost use Rattle.name_tables.specs.PlaceMap.Values.{or_else, there};
ghost use Rattle.name_tables.specs.NameRecords.Bodies.{lying_in};
ghost use Rattle.name_tables.specs.NameRecords.Found.{first_in, known_entry, member_there};

use crate::name_records::body::Known;
use qual_base::{NameId, NoMemory, StructId};
use std::alloc::Global;
use std::collections::HashMap;

/// The members of structs and unions, each by the number of its struct and by its name.
#[derive(Drop)]
pub(crate) struct MemberMap {
    map: HashMap<(StructId, NameId), Known>,
}

impl MemberMap {
    /// No members. Takes no memory.
    pub(crate) fn new(alloc: Global) -> Self
        ensures { (at : Place) → member_there result.map at ≡ None }
    {
        MemberMap {
            map: HashMap::new(alloc),
        }
    }

    /// The member of a struct that has a name. Constant time.
    pub(crate) fn get(&self, number: StructId, name: NameId) -> Option<Known>
        ensures { result ≡ member_there self.now.map (number, name) }
    {
        self.map.get(&(number, name)).copied()
    }

    /// Has this be the member of a name where there is none. Constant time but for growth.
    #[tactic(auto, using(crate::proofs::NameRecords::Members::stays, crate::proofs::NameRecords::Members::comes))]
    pub(crate) fn add(&mut self, number: StructId, known: &Known) -> Result<(), NoMemory>
        ensures { OnOk result ((p : Place) → member_there self.new.map p
            ≡ or_else (member_there self.old.map p) (there (number, known.now.name) known.now p)) }
    {
        let at = (number, known.name);
        if self.map.get(&at).is_some() {
            return Ok(());
        }
        match self.map.insert(at, *known) {
            Ok(_) => Ok(()),
            Err(_) => Err(NoMemory),
        }
    }

    /// Adds members that lie in an own member of a struct. Linear in them.
    pub(crate) fn add_inner(
        &mut self,
        number: StructId,
        own: usize,
        inner: &[Known],
    ) -> Result<(), NoMemory>
        ensures { OnOk result ((p : Place) → member_there self.new.map p
            ≡ or_else (member_there self.old.map p)
            (first_in (known_entry number) (lying_in own inner.now) p)) }
    {
        for known in inner {
            self.add(number, &Known { own, ..*known })?;
        }
        Ok(())
    }
}
