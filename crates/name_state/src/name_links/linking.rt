//! The link of each place.

ghost use Rattle.std.specs.Prelude.{◌≡◌, ℕ, IfOk};
ghost use Rattle.type_table.specs.Types.{CType};
ghost use Rattle.name_rules.specs.Spellings.{Place};
ghost use Rattle.name_rules.specs.Linking.{link_of};
ghost use Rattle.name_state.specs.UnitNames.Shown.{names_of};
ghost use Rattle.name_state.specs.NameLinks.Tables.{linked_by};

use crate::name_links::externals::link_things;
use crate::name_links::members::link_members;
use crate::unit_names::Names;
use name_tables::name_scopes::Place;
use name_tables::place_map::PlaceMap;
use qual_base::NoMemory;
use std::alloc::Global;

/// Where what was first declared at a place in its unit was first declared in all units, of external objects and functions of
/// sources, and of members of structs and unions that several sources have; other places have none. Linear in the names and in the
/// members, but for growth. Memory is linear in them.
pub fn links(alloc: Global, names: &Names) -> Result<PlaceMap<Place>, NoMemory>
    ensures { IfOk result (λ it. (t : ℕ → CType) (p : Place) →
        linked_by it p ≡ link_of (names_of t names.now) p) }
{
    let mut links = link_things(alloc, names)?;
    link_members(alloc, &mut links, names)?;
    Ok(links)
}

/// The link of a place: itself where there is none. Constant time.
pub fn link(links: &PlaceMap<Place>, at: &Place) -> Place
    ensures { result ≡ linked_by links.now at.now }
{
    match links.get(at) {
        Some(first) => first,
        None => *at,
    }
}
