//! Second bodies of functions in several sources (C99, 6.9).

ghost use Rattle.std.specs.Prelude.{◌≡◌, ◌++◌, ℕ, map, reverse, IfOk, OnOk};
ghost use Rattle.type_table.specs.Types.{CType};
ghost use Rattle.name_rules.specs.Spellings.{Place};
ghost use Rattle.name_rules.specs.Faults.{defined_twice, fault_where};
ghost use Rattle.name_rules.specs.Linking.{link_of, body_faults};
ghost use Rattle.name_tables.specs.PlaceMap.Values.{value_at, there};
ghost use Rattle.name_state.specs.NameLinks.Tables.{linked_by, earlier_unit, plain_there, earliest_plain, is_second, second_faults};
ghost use Rattle.name_state.specs.UnitNames.Shown.{names_of, fault_of};

use crate::name_links::linking::link;
use crate::unit_names::Names;
use name_tables::name_records::{Bodied, Fault, Rule};
use name_tables::name_scopes::Place;
use name_tables::place_map::PlaceMap;
use qual_base::{NoMemory, Numbered, UnitNo};
use std::alloc::Global;

/// Has a unit be the earliest at a place where no earlier one is. Constant time but for growth.
fn keep_earliest(units: &mut PlaceMap<UnitNo>, at: &Place, unit: UnitNo) -> Result<(), NoMemory>
    ensures { OnOk result ((p : Place) → value_at units.new p
        ≡ earlier_unit (value_at units.old p) (there at.now unit p)) }
{
    match units.get(at) {
        Some(known) => {
            if unit.number() < known.number() {
                units.set(at, &unit)
            } else {
                Ok(())
            }
        }
        None => units.set(at, &unit),
    }
}

/// Has the unit of a body without `inline` be the earliest of its function where no earlier one is. Constant time but for growth.
fn add_plain(
    units: &mut PlaceMap<UnitNo>,
    links: &PlaceMap<Place>,
    it: &Bodied,
) -> Result<(), NoMemory>
    ensures { OnOk result ((p : Place) → value_at units.new p
        ≡ earlier_unit (value_at units.old p) (plain_there links.now it.now p)) }
{
    if it.is_plain {
        keep_earliest(units, &link(links, &it.first), it.at.0)
    } else {
        Ok(())
    }
}

/// The earliest unit that has a body without `inline` of each function, by its link. Linear in the bodies, but for growth.
fn plain_units(
    alloc: Global,
    links: &PlaceMap<Place>,
    bodies: &[Bodied],
) -> Result<PlaceMap<UnitNo>, NoMemory>
    ensures { IfOk result (λ it. (p : Place) → value_at it p
        ≡ earliest_plain links.now (reverse bodies.now) p) }
{
    let mut units = PlaceMap::new(alloc);
    for it in bodies {
        add_plain(&mut units, links, it)?;
    }
    Ok(units)
}

/// Whether this is a second body: one without `inline`, where an earlier unit has one. Constant time.
fn is_second(links: &PlaceMap<Place>, units: &PlaceMap<UnitNo>, it: &Bodied) -> bool
    ensures { result ≡ is_second links.now units.now it.now }
{
    if !it.is_plain {
        return false;
    }
    match units.get(&link(links, &it.first)) {
        Some(earliest) => earliest.number() < it.at.0.number(),
        None => false,
    }
}

/// Adds a fault where this is a second body. Constant time but for growth.
fn note_second(
    faults: &mut Vec<Fault>,
    links: &PlaceMap<Place>,
    units: &PlaceMap<UnitNo>,
    it: &Bodied,
) -> Result<(), NoMemory>
    ensures { OnOk result (map fault_of faults.new.items ≡ map fault_of faults.old.items
        ++ fault_where (is_second links.now units.now it.now) it.now.at defined_twice) }
{
    if is_second(links, units, it) {
        faults.push(Fault {
            at: it.at,
            rule: Rule::DefinedTwice,
        })?;
    }
    Ok(())
}

/// The second bodies, in the order of the text. Linear in the bodies, but for growth.
fn second_bodies(
    alloc: Global,
    links: &PlaceMap<Place>,
    units: &PlaceMap<UnitNo>,
    bodies: &[Bodied],
) -> Result<Vec<Fault>, NoMemory>
    ensures { IfOk result (λ it. map fault_of it.items
        ≡ second_faults links.now units.now (reverse bodies.now)) }
{
    let mut faults = Vec::new(alloc);
    for it in bodies {
        note_second(&mut faults, links, units, it)?;
    }
    Ok(faults)
}

/// The bodies without `inline` of functions of which an earlier unit has a body without `inline`, by links of places, in the order of
/// the text. Linear in the bodies, but for growth.
pub fn body_faults(
    alloc: Global,
    links: &PlaceMap<Place>,
    names: &Names,
) -> Result<Vec<Fault>, NoMemory>
    ensures { IfOk result (λ it. (t : ℕ → CType) →
        ((p : Place) → linked_by links.now p ≡ link_of (names_of t names.now) p)
        → map fault_of it.items ≡ body_faults (names_of t names.now)) }
{
    let bodies = names.bodies();
    let units = plain_units(alloc, links, bodies)?;
    second_bodies(alloc, links, &units, bodies)
}
