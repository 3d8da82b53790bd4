//! The members of structs and unions of several sources that are one.

ghost use Rattle.std.specs.Prelude.{◌≡◌, ◌+◌, ℕ, Some, None, IfOk, OnOk, if◌then◌else◌};
ghost use Rattle.type_table.specs.Types.{CType};
ghost use Rattle.name_rules.specs.Spellings.{Place};
ghost use Rattle.name_rules.specs.Scopes as rules;
ghost use Rattle.name_rules.specs.Linking.{member_link};
ghost use Rattle.name_tables.specs.PlaceMap.Values.{value_at, or_else, there};
ghost use Rattle.name_state.specs.UnitNames.Shown.{names_of};
ghost use Rattle.name_state.specs.NameLinks.Tables.{keyed, with_unit, key_held, is_keyed_by, AreKeyed, shared_by, member_there, known_in, first_known, own_members, key_members, first_own, first_among, link_in, first_link, shared_links, all_links};

use crate::name_links::keys::{Keys, Shared};
use crate::unit_names::Names;
use name_tables::name_records::{Aggregate, Known, StructKey};
use name_tables::name_scopes::Place;
use name_tables::place_map::PlaceMap;
use qual_base::{NameId, NoMemory, Numbered, StructId};
use std::alloc::Global;
use std::collections::HashMap;

/// What a definition of a source is known by. Constant time.
fn key_held(it: &Aggregate) -> Option<StructKey>
    ensures { result ≡ key_held it.now }
{
    if it.body.is_some() && it.at.0.number() != 0 {
        it.key
    } else {
        None
    }
}

/// The number behind this one.
fn next(number: u32) -> Result<u32, NoMemory>
    ensures { IfOk result (λ n. n ≡ number + 1) }
{
    match number.checked_add(1) {
        Some(next) => Ok(next),
        None => Err(NoMemory),
    }
}

/// One more definition, where it is one of a source that is known by something. Constant time but for growth.
fn add_key(keys: &mut Keys, number: StructId, it: &Aggregate) -> Result<(), NoMemory>
    ensures { OnOk result ((key : rules.StructKey) → keyed keys.new key
        ≡ (if is_keyed_by key (key_held it.now)
        then Some (with_unit (keyed keys.old key) number it.now.at.0) else keyed keys.old key)) }
{
    match key_held(it) {
        Some(key) => keys.add(&key, number, it.at.0),
        None => Ok(()),
    }
}

/// The definitions of sources by what they are known by. Linear in the structs, but for growth.
fn find_keys(alloc: Global, all: &[Aggregate]) -> Result<Keys, NoMemory>
    ensures { IfOk result (λ keys. AreKeyed all.now keys) }
{
    let mut keys = Keys::new(alloc);
    let mut number = 0u32;
    for it in all {
        add_key(&mut keys, StructId::new(number), it)?;
        number = next(number)?;
    }
    Ok(keys)
}

/// Places of members by structs and by names, the first of each.
#[derive(Drop)]
struct MemberPlaces {
    map: HashMap<(StructId, NameId), Place>,
}

impl MemberPlaces {
    /// None. Takes no memory.
    fn new(alloc: Global) -> Self
        ensures { (at : Place) → member_there result.map at ≡ None }
    {
        MemberPlaces {
            map: HashMap::new(alloc),
        }
    }

    /// The first of a struct and a name. Constant time.
    fn get(&self, number: StructId, name: NameId) -> Option<Place>
        ensures { result ≡ member_there self.now.map (number, name) }
    {
        self.map.get(&(number, name)).copied()
    }

    /// Has this be the first of a struct and a name that have none. Constant time but for growth.
    #[tactic(auto, using(crate::proofs::NameLinks::Adding::stays, crate::proofs::NameLinks::Adding::comes))]
    fn add(&mut self, number: StructId, name: NameId, at: &Place) -> Result<(), NoMemory>
        ensures { OnOk result ((p : Place) → member_there self.new.map p
            ≡ or_else (member_there self.old.map p) (there (number, name) at.now p)) }
    {
        if self.map.get(&(number, name)).is_some() {
            return Ok(());
        }
        match self.map.insert((number, name), *at) {
            Ok(_) => Ok(()),
            Err(_) => Err(NoMemory),
        }
    }
}

/// The members of definitions that several sources have: those that a struct finds by its names, and by the number of the first
/// definition that is known by the same those that any of these finds.
#[derive(Drop)]
struct Members {
    own: MemberPlaces,
    among: MemberPlaces,
}

impl Members {
    /// None. Takes no memory.
    fn new(alloc: Global) -> Self
        ensures own { (at : Place) → member_there result.own.map at ≡ None }
        ensures among { (at : Place) → member_there result.among.map at ≡ None }
    {
        Members {
            own: MemberPlaces::new(alloc),
            among: MemberPlaces::new(alloc),
        }
    }

    /// Adds the members of a definition. Linear in them, but for growth.
    fn add(&mut self, number: StructId, shared: &Shared, known: &[Known]) -> Result<(), NoMemory>
        ensures own { OnOk result ((p : Place) → member_there self.new.own.map p
            ≡ or_else (member_there self.old.own.map p) (first_known number known.now p)) }
        ensures among { OnOk result ((p : Place) → member_there self.new.among.map p
            ≡ or_else (member_there self.old.among.map p)
            (first_known shared.now.first known.now p)) }
    {
        for it in known {
            self.own.add(number, it.name, &it.at)?;
            self.among.add(shared.first, it.name, &it.at)?;
        }
        Ok(())
    }

    /// The link of a member of a definition: the first of its name, where the struct finds this one by it. Constant time.
    fn link(&self, number: StructId, shared: &Shared, it: &Known) -> Option<Place>
        ensures { result ≡ link_in self.now.own.map self.now.among.map number shared.now it.now }
    {
        let found = self.own.get(number, it.name)?;
        if found == it.at {
            self.among.get(shared.first, it.name)
        } else {
            None
        }
    }

    /// Adds the links of the members of a definition. Linear in them, but for growth.
    fn add_links(
        &self,
        links: &mut PlaceMap<Place>,
        number: StructId,
        shared: &Shared,
        known: &[Known],
    ) -> Result<(), NoMemory>
        ensures { OnOk result ((p : Place) → value_at links.new p
            ≡ or_else (value_at links.old p)
            (first_link self.now.own.map self.now.among.map number shared.now known.now p)) }
    {
        for it in known {
            if let Some(first) = self.link(number, shared, it) {
                links.add(&it.at, &first)?;
            }
        }
        Ok(())
    }
}

/// What several sources know a definition by. Constant time.
fn shared_by(keys: &Keys, it: &Aggregate) -> Option<Shared>
    ensures { result ≡ shared_by keys.now it.now }
{
    let key = key_held(it)?;
    let shared = keys.get(&key)?;
    if shared.is_elsewhere {
        Some(shared)
    } else {
        None
    }
}

/// The members that a struct has by names, where it has a body. Constant time.
fn known_in(it: &Aggregate) -> &[Known]
    ensures { result.now ≡ known_in it.now.body }
{
    match &it.body {
        Some(body) => body.known(),
        None => &[],
    }
}

impl Members {
    /// Adds the members of a definition, where several sources have it. Linear in them, but for growth.
    fn add_shared(&mut self, keys: &Keys, number: StructId, it: &Aggregate) -> Result<(), NoMemory>
        ensures own { OnOk result ((p : Place) → member_there self.new.own.map p
            ≡ or_else (member_there self.old.own.map p)
            (own_members (shared_by keys.now it.now) number (known_in it.now.body) p)) }
        ensures among { OnOk result ((p : Place) → member_there self.new.among.map p
            ≡ or_else (member_there self.old.among.map p)
            (key_members (shared_by keys.now it.now) (known_in it.now.body) p)) }
    {
        match shared_by(keys, it) {
            Some(shared) => self.add(number, &shared, known_in(it)),
            None => Ok(()),
        }
    }

    /// Adds the links of the members of a definition, where several sources have it. Linear in them, but for growth.
    fn link_shared(
        &self,
        links: &mut PlaceMap<Place>,
        keys: &Keys,
        number: StructId,
        it: &Aggregate,
    ) -> Result<(), NoMemory>
        ensures { OnOk result ((p : Place) → value_at links.new p
            ≡ or_else (value_at links.old p)
            (shared_links self.now.own.map self.now.among.map number (shared_by keys.now it.now)
            (known_in it.now.body) p)) }
    {
        match shared_by(keys, it) {
            Some(shared) => self.add_links(links, number, &shared, known_in(it)),
            None => Ok(()),
        }
    }

    /// Adds the links of members of structs and unions that several sources have. Linear in the structs and in these members, but for
    /// growth.
    fn link_all(
        &self,
        links: &mut PlaceMap<Place>,
        keys: &Keys,
        all: &[Aggregate],
    ) -> Result<(), NoMemory>
        ensures { OnOk result ((p : Place) → value_at links.new p
            ≡ or_else (value_at links.old p)
            (all_links self.now.own.map self.now.among.map keys.now 0 all.now p)) }
    {
        let mut number = 0u32;
        for it in all {
            self.link_shared(links, keys, StructId::new(number), it)?;
            number = next(number)?;
        }
        Ok(())
    }
}

/// The members of definitions that several sources have. Linear in the structs and in these members, but for growth.
fn find_members(alloc: Global, keys: &Keys, all: &[Aggregate]) -> Result<Members, NoMemory>
    ensures own { IfOk result
        (λ it. (p : Place) → member_there it.own.map p ≡ first_own keys.now 0 all.now p) }
    ensures among { IfOk result
        (λ it. (p : Place) → member_there it.among.map p ≡ first_among keys.now all.now p) }
{
    let mut members = Members::new(alloc);
    let mut number = 0u32;
    for it in all {
        members.add_shared(keys, StructId::new(number), it)?;
        number = next(number)?;
    }
    Ok(members)
}

/// Adds the links of members of structs and unions of sources, at places that have none. Linear in the structs and in the members of
/// those that several sources have, but for growth.
pub(crate) fn link_members(
    alloc: Global,
    links: &mut PlaceMap<Place>,
    names: &Names,
) -> Result<(), NoMemory>
    ensures { OnOk result ((t : ℕ → CType) (p : Place) → value_at links.new p
        ≡ or_else (value_at links.old p)
        (member_link (names_of t names.now).aggregates (names_of t names.now).aggregates p)) }
{
    let all = names.aggregates();
    let keys = find_keys(alloc, all)?;
    let members = find_members(alloc, &keys, all)?;
    members.link_all(links, &keys, all)
}
