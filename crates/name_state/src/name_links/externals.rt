//! The objects and functions of several sources that are one.

ghost use Rattle.std.specs.Prelude.{◌≡◌, ◌&&◌, ℕ, nat_eq, List, reverse, IfOk, OnOk};
ghost use Rattle.type_table.specs.Types.{CType};
ghost use Rattle.name_rules.specs.Spellings.{Place};
ghost use Rattle.name_rules.specs.Linking.{is_external, place_where, thing_linked, thing_link};
ghost use Rattle.name_rules.specs.Scopes.{or_place};
ghost use Rattle.name_tables.specs.PlaceMap.Values.{value_at, or_else};
ghost use Rattle.name_state.specs.UnitNames.Shown.{names_of};
ghost use Rattle.name_state.specs.NameLinks.Tables.{AreStatics, AreFirsts, first_by, name_there};

use crate::unit_names::Names;
use name_tables::name_scopes::Place;
use name_tables::place_map::PlaceMap;
use qual_base::{NameId, NoMemory, Numbered, UnitNo};
use std::alloc::Global;
use std::collections::HashMap;

/// The units, and the names that a declaration there has `static` with.
#[derive(Drop)]
struct Statics {
    known: HashMap<(UnitNo, NameId), ()>,
}

impl Statics {
    /// Whether what has a name, and was first declared at a place, is an external one of a source. Constant time.
    fn is_external(&self, name: NameId, at: &Place) -> bool
        ensures { (all : List (ℕ × ℕ)) → AreStatics all self.now.known
            → result ≡ is_external all name at.now }
    {
        at.0.number() != 0 && !self.known.contains_key(&(at.0, name))
    }
}

/// Finds them. Linear in them, but for growth.
fn find_statics(alloc: Global, statics: &[(UnitNo, NameId)]) -> Result<Statics, NoMemory>
    ensures { IfOk result (λ it. AreStatics (reverse statics.now) it.known) }
{
    let mut known = HashMap::new(alloc);
    for it in statics {
        match known.insert(*it, ()) {
            Ok(_) => {}
            Err(_) => return Err(NoMemory),
        }
    }
    Ok(Statics { known })
}

/// Of the external things of each name the oldest one.
#[derive(Drop)]
struct Firsts {
    map: HashMap<NameId, Place>,
}

impl Firsts {
    /// Has this be the one of a name that has none. Constant time but for growth.
    #[tactic(auto, using(crate::proofs::NameLinks::Adding::name_stays, crate::proofs::NameLinks::Adding::name_comes))]
    fn add(&mut self, name: NameId, at: &Place) -> Result<(), NoMemory>
        ensures { OnOk result ((n : ℕ) → name_there self.new.map n
            ≡ or_else (name_there self.old.map n) (first_by name at.now n)) }
    {
        if self.map.get(&name).is_some() {
            return Ok(());
        }
        match self.map.insert(name, *at) {
            Ok(_) => Ok(()),
            Err(_) => Err(NoMemory),
        }
    }

    /// Has a thing be the one of its name, where it is external and the name has none. Constant time but for growth.
    fn add_external(&mut self, statics: &Statics, thing: &(NameId, Place)) -> Result<(), NoMemory>
        ensures { (all : List (ℕ × ℕ)) → AreStatics all statics.now.known →
            OnOk result ((n : ℕ) → name_there self.new.map n ≡ or_place (name_there self.old.map n)
            (place_where (nat_eq thing.now.0 n && is_external all thing.now.0 thing.now.1)
            thing.now.1)) }
    {
        if statics.is_external(thing.0, &thing.1) {
            self.add(thing.0, &thing.1)
        } else {
            Ok(())
        }
    }
}

/// Finds them. Linear in the things, which are the oldest first, but for growth.
fn find_firsts(
    alloc: Global,
    statics: &Statics,
    things: &[(NameId, Place)],
) -> Result<Firsts, NoMemory>
    ensures { (all : List (ℕ × ℕ)) → AreStatics all statics.now.known
        → IfOk result (λ it. AreFirsts all (reverse things.now) it.map) }
{
    let mut found = Firsts {
        map: HashMap::new(alloc),
    };
    for it in things {
        found.add_external(statics, it)?;
    }
    Ok(found)
}

/// The link of one thing, where it is external; of several at one place the last one counts. Constant time but for growth.
fn add_thing(
    links: &mut PlaceMap<Place>,
    statics: &Statics,
    firsts: &Firsts,
    thing: &(NameId, Place),
) -> Result<(), NoMemory>
    ensures { (all : List (ℕ × ℕ)) (things : List (ℕ × Place)) →
        AreStatics all statics.now.known → AreFirsts all things firsts.now.map →
        OnOk result ((p : Place) → value_at links.new p
        ≡ or_place (thing_linked all things p thing.now) (value_at links.old p)) }
{
    if !statics.is_external(thing.0, &thing.1) {
        return Ok(());
    }
    match firsts.map.get(&thing.0) {
        Some(first) => links.set(&thing.1, first),
        None => Ok(()),
    }
}

/// The links of things, which are the oldest first. Linear in them, but for growth.
fn add_things(
    alloc: Global,
    statics: &Statics,
    firsts: &Firsts,
    things: &[(NameId, Place)],
) -> Result<PlaceMap<Place>, NoMemory>
    ensures { (all : List (ℕ × ℕ)) (others : List (ℕ × Place)) →
        AreStatics all statics.now.known → AreFirsts all others firsts.now.map →
        IfOk result (λ it. (p : Place) → value_at it p
        ≡ thing_link all others (reverse things.now) p) }
{
    let mut links = PlaceMap::new(alloc);
    for it in things {
        add_thing(&mut links, statics, firsts, it)?;
    }
    Ok(links)
}

/// The links of objects and functions of sources. Linear in them, but for growth.
pub(crate) fn link_things(alloc: Global, names: &Names) -> Result<PlaceMap<Place>, NoMemory>
    ensures { IfOk result (λ it. (t : ℕ → CType) (p : Place) → value_at it p
        ≡ thing_link (names_of t names.now).statics (names_of t names.now).things
        (names_of t names.now).things p) }
{
    let things = names.things();
    let statics = find_statics(alloc, names.statics())?;
    let firsts = find_firsts(alloc, &statics, things)?;
    add_things(alloc, &statics, &firsts, things)
}
