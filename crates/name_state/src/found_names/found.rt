//! Names, with what is one thing in several units.

ghost use Rattle.std.specs.Prelude.{◌≡◌, ℕ, IfOk, map, option_map, slice_get};
ghost use Rattle.type_table.specs.Types.{CType};
ghost use Rattle.name_rules.specs.Scopes.{declared_at, body_of};
ghost use Rattle.name_rules.specs.Uses.{use_at, type_named_at};
ghost use Rattle.name_rules.specs.Values.{member_in};
ghost use Rattle.name_rules.specs.Linking.{link_of, body_faults};
ghost use Rattle.name_rules.specs.Values as rules;
ghost use Rattle.name_state.specs.UnitNames.Shown as shown;
ghost use Rattle.name_state.specs.UnitNames.Shown.{names_of, use_of, declared_of, own_of, known_of, aggregate_of, fault_of};

use crate::name_links::{body_faults, link, links};
use crate::unit_names::Names;
use name_tables::name_records::{Aggregate, Body, Declared, Fault, Known, Own, Use};
use name_tables::name_scopes::Place;
use name_tables::place_map::PlaceMap;
use qual_base::{NameId, NoMemory, StructId, TypeId};
use std::alloc::Global;
use std::marker::Model;

/// The names of units, with what is one thing in several of them. Clauses see the names. Memory is linear in them.
#[derive(Drop)]
pub struct FoundNames {
    names: Names,
    /// Where what is one thing in several units was first declared.
    links: PlaceMap<Place>,
}

impl Model for FoundNames {
    ghost use Rattle.name_state.specs.declared.unit_names.names.Names as known;
    ghost use Rattle.name_state.specs.FoundNames.Held.{AreFound};

    ghost Value = { known.Names };

    ghost view = { λ s. s.names };

    ghost invariant = { AreFound };
}

impl FoundNames {
    /// Finds what is one thing in several units. Linear in the names, but for growth.
    pub fn new(alloc: Global, names: Names) -> Result<Self, NoMemory>
        ensures { IfOk result (λ it. it ≡ names) }
    {
        let links = links(alloc, &names)?;
        Ok(FoundNames { names, links })
    }

    /// The names.
    pub fn names(&self) -> &Names
        ensures { result.now ≡ self.now }
    {
        &self.names
    }

    /// What the name at a place stands for. Constant time.
    pub fn use_at(&self, at: &Place) -> Use
        ensures { (t : ℕ → CType) → use_of result ≡ use_at (names_of t self.now).uses at.now }
    {
        self.names.use_at(at)
    }

    /// The type whose name begins at a place. Constant time.
    pub fn type_at(&self, at: &Place) -> Option<TypeId>
        ensures { (t : ℕ → CType) → option_map t result
            ≡ type_named_at (names_of t self.now).type_names at.now }
    {
        self.names.type_at(at)
    }

    /// The first declaration at a place. Constant time.
    pub fn declared_at(&self, at: &Place) -> Option<Declared>
        ensures { (t : ℕ → CType) → option_map (declared_of t) result
            ≡ declared_at (names_of t self.now).declared at.now }
    {
        self.names.declared_at(at)
    }

    /// Where what was first declared at a place in its unit was first declared in all units. Constant time.
    pub fn link(&self, at: &Place) -> Place
        ensures { (t : ℕ → CType) → result ≡ link_of (names_of t self.now) at.now }
    {
        link(&self.links, at)
    }

    /// Second bodies of functions in several units, in the order of the text. Linear in the bodies, but for growth.
    pub fn body_faults(&self, alloc: Global) -> Result<Vec<Fault>, NoMemory>
        ensures { IfOk result (λ it. (t : ℕ → CType) → map fault_of it.items
            ≡ body_faults (names_of t self.now)) }
    {
        body_faults(alloc, &self.links, &self.names)
    }

    /// A member of a struct by its name. Constant time.
    pub fn member_at(&self, number: StructId, name: NameId) -> Option<Known>
        ensures { (t : ℕ → CType) → option_map (known_of t) result
            ≡ member_in (body_of (names_of t self.now).aggregates number) name }
    {
        self.names.member_at(number, name)
    }

    /// A struct, union or enum by its number. Constant time.
    pub fn aggregate(&self, number: StructId) -> Option<&Aggregate>
        ensures { (t : ℕ → CType) → option_map (λ it. aggregate_of t it.now) result
            ≡ slice_get (names_of t self.now).aggregates number }
    {
        self.names.aggregate(number)
    }

    /// The members of a struct, where it has a body. Constant time.
    pub fn body(&self, number: StructId) -> Option<&Body>
        ensures { (t : ℕ → CType) → option_map (λ it. shown.body_of t it.now) result
            ≡ body_of (names_of t self.now).aggregates number }
    {
        self.names.body(number)
    }

    /// Whether a struct, union or enum is a union. Constant time.
    pub fn is_union(&self, number: StructId) -> bool
        ensures { (t : ℕ → CType) → result
            ≡ rules.is_union_at (slice_get (names_of t self.now).aggregates number) }
    {
        self.names.is_union(number)
    }

    /// The own member of a struct with a number. Constant time.
    pub fn own_at(&self, number: StructId, own: usize) -> Option<Own>
        ensures { (t : ℕ → CType) → option_map (own_of t) result
            ≡ slice_get (rules.own_of (names_of t self.now).aggregates number) own }
    {
        self.names.own_at(number, own)
    }

    /// The own member of a struct that an item without designators initialises, by the number of the next one. Constant time.
    pub fn next_own(&self, number: StructId, next: usize) -> Option<Own>
        ensures { (t : ℕ → CType) → option_map (own_of t) result
            ≡ slice_get (rules.own_of (names_of t self.now).aggregates number)
            (rules.own_number (names_of t self.now).aggregates number next) }
    {
        self.names.next_own(number, next)
    }
}
