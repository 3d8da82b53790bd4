//! Functions by numbers.

ghost use Rattle.std.specs.Prelude.{◌≡◌, ◌++◌, ◌∷◌, [], List, map, reverse, IfOk};
ghost use Rattle.type_table.specs.Rows.{type_of};
ghost use Rattle.name_rules.specs.Scopes as rules;
ghost use Rattle.row_rules.specs.Sites as sites;
ghost use Rattle.name_tables.specs.NameRecords.Held.{bodied_of};
ghost use Rattle.name_state.specs.UnitNames.Shown.{declared_of};
ghost use Rattle.unit_starts.specs.UnitSkeletons.Bodies.{AreFirsts};
ghost use Rattle.unit_shapes.specs.Views.{names_in};

use crate::is_function;
use crate::unit_skeletons::place_numbers::PlaceNumbers;
use name_state::found_names::FoundNames;
use name_tables::name_records::{Bodied, Declared};
use name_tables::name_scopes::Place;
use name_tables::place_map::PlaceMap;
use qual_base::{FuncId, NoMemory, Numbered, Owner};
use std::alloc::Global;
use type_table::TypeTable;

/// Whether two places are one.
fn is_place(one: &Place, other: &Place) -> bool
    ensures { result ≡ rules.is_place one.now other.now }
{
    one.0.number() == other.0.number() && one.1.number() == other.1.number()
}

/// Where what has a body was first declared. Linear in the bodies, but for growth.
fn first_bodies(alloc: Global, bodies: &[Bodied]) -> Result<PlaceMap<()>, NoMemory>
    ensures { IfOk result (λ it. AreFirsts (map bodied_of (reverse bodies.now)) it) }
{
    let mut firsts = PlaceMap::new(alloc);
    for it in bodies {
        firsts.add(&it.first, &())?;
    }
    Ok(firsts)
}

/// Whether a declaration is the first of a function, or of what has a body. Constant time.
fn is_first_function(types: &TypeTable, bodies: &PlaceMap<()>, declared: &Declared) -> bool
    ensures { (all : List rules.Bodied) → AreFirsts all bodies.now
        → result ≡ sites.is_first_function (map sites.first_place all)
        (declared_of (type_of types.now) declared.now) }
{
    let _ = types;
    if is_place(&declared.at, &declared.first) {
        if is_function(declared.role) {
            true
        } else {
            bodies.get(&declared.at).is_some()
        }
    } else {
        false
    }
}

impl PlaceNumbers {
    /// The owner that a function is, by its link, among all functions. Constant time.
    pub fn owner(&self, function: &Option<Place>) -> Owner
        ensures { result ≡ sites.owner_by self.now function.now }
    {
        match function {
            Some(at) => Owner::Function(FuncId::new(self.number(at))),
            None => Owner::Nobody,
        }
    }
}

/// The functions of units, by the links of their first declarations: linked ones have one number. Linear in the declarations and in the
/// bodies.
pub fn functions_of(
    alloc: Global,
    types: &TypeTable,
    names: &FoundNames,
) -> Result<PlaceNumbers, NoMemory>
    ensures { IfOk result (λ it. it ≡ sites.functions_of (names_in types.now names.now)) }
{
    let mut found = PlaceNumbers::new(alloc);
    let bodies = first_bodies(alloc, names.names().bodies())?;
    let all = names.names().declared();
    for declared in all {
        if is_first_function(types, &bodies, declared) {
            found.push(&names.link(&declared.at))?;
        }
    }
    Ok(found)
}
