//! What was found.

ghost use Rattle.std.specs.Prelude.{◌≡◌, ℕ, map, reverse, option_map};
ghost use Rattle.type_table.specs.Types.{CType};
ghost use Rattle.name_rules.specs.Scopes.{declared_at};
ghost use Rattle.name_rules.specs.Uses.{use_at, type_named_at};
ghost use Rattle.name_tables.specs.NameRecords.Held.{bodied_of};
ghost use Rattle.name_state.specs.UnitNames.Shown.{names_of, use_of, declared_of, aggregate_of, name_use_of, type_named_of, fault_of};

use crate::unit_names::names::Names;
use name_tables::name_records::{Aggregate, Bodied, Declared, Fault, NameUse, TypeNamed, Use};
use name_tables::name_scopes::Place;
use qual_base::{NameId, TypeId, UnitNo};

impl Names {
    /// The declarations, in the order of the text.
    #[tactic(auto, unfolding(crate::specs::UnitNames::Shown::names_of))]
    pub fn declared(&self) -> &[Declared]
        ensures { (t : ℕ → CType) → map (declared_of t) result.now
            ≡ (names_of t self.now).declared }
    {
        self.declared.as_slice()
    }

    /// The first declaration at a place. Constant time.
    #[tactic(auto, using(crate::proofs::UnitNames::Views::views), unfolding(crate::specs::UnitNames::Shown::names_of))]
    pub fn declared_at(&self, at: &Place) -> Option<Declared>
        ensures { (t : ℕ → CType) → option_map (declared_of t) result
            ≡ declared_at (names_of t self.now).declared at.now }
    {
        self.declared.first_at(at)
    }

    /// What the name at a place stands for. Constant time.
    #[tactic(auto, using(crate::proofs::UnitNames::Finding::use_found), unfolding(crate::specs::UnitNames::Shown::names_of))]
    pub fn use_at(&self, at: &Place) -> Use
        ensures { (t : ℕ → CType) → use_of result ≡ use_at (names_of t self.now).uses at.now }
    {
        match self.uses.first_at(at) {
            Some(it) => it.use_of,
            None => Use::Missing,
        }
    }

    /// The type whose name begins at a place. Constant time.
    #[tactic(auto, using(crate::proofs::UnitNames::Finding::type_found), unfolding(crate::specs::UnitNames::Shown::names_of))]
    pub fn type_at(&self, at: &Place) -> Option<TypeId>
        ensures { (t : ℕ → CType) → option_map t result
            ≡ type_named_at (names_of t self.now).type_names at.now }
    {
        self.type_names.first_at(at)
    }

    /// The structs, unions and enums, by their numbers.
    #[tactic(auto, unfolding(crate::specs::UnitNames::Shown::names_of))]
    pub fn aggregates(&self) -> &[Aggregate]
        ensures { (t : ℕ → CType) → map (aggregate_of t) result.now
            ≡ (names_of t self.now).aggregates }
    {
        self.aggregates.as_slice()
    }

    /// The objects and functions of files, the oldest first, each with where it was first declared in its unit or in the prelude.
    #[tactic(auto, unfolding(crate::specs::UnitNames::Shown::names_of))]
    pub fn things(&self) -> &[(NameId, Place)]
        ensures { (t : ℕ → CType) → reverse result.now ≡ (names_of t self.now).things }
    {
        self.things.as_slice()
    }

    /// The units, and the names of objects and functions that a declaration there has `static` with, the oldest first.
    #[tactic(auto, unfolding(crate::specs::UnitNames::Shown::names_of))]
    pub fn statics(&self) -> &[(UnitNo, NameId)]
        ensures { (t : ℕ → CType) → reverse result.now ≡ (names_of t self.now).statics }
    {
        self.statics.as_slice()
    }

    /// The bodies of functions, the oldest first.
    #[tactic(auto, unfolding(crate::specs::UnitNames::Shown::names_of))]
    pub fn bodies(&self) -> &[Bodied]
        ensures { (t : ℕ → CType) → map bodied_of (reverse result.now)
            ≡ (names_of t self.now).bodies }
    {
        self.bodies.as_slice()
    }

    /// The uses of names, in the order of the text.
    #[tactic(auto, unfolding(crate::specs::UnitNames::Shown::names_of))]
    pub fn uses(&self) -> &[NameUse]
        ensures { (t : ℕ → CType) → map name_use_of result.now ≡ (names_of t self.now).uses }
    {
        self.uses.as_slice()
    }

    /// The types' names, in the order of the text.
    #[tactic(auto, unfolding(crate::specs::UnitNames::Shown::names_of))]
    pub fn type_names(&self) -> &[TypeNamed]
        ensures { (t : ℕ → CType) → map (type_named_of t) result.now
            ≡ (names_of t self.now).type_names }
    {
        self.type_names.as_slice()
    }

    /// The faults of names and of declared types, in the order in which they were met.
    #[tactic(auto, unfolding(crate::specs::UnitNames::Shown::names_of))]
    pub fn faults(&self) -> &[Fault]
        ensures { (t : ℕ → CType) → map fault_of result.now ≡ (names_of t self.now).faults }
    {
        self.faults.as_slice()
    }
}
