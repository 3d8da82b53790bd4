//! Members of structs and unions.

ghost use Rattle.std.specs.Prelude.{◌≡◌, ℕ, Option, option_map, slice_get};
ghost use Rattle.type_table.specs.Types.{CType};
ghost use Rattle.name_rules.specs.Scopes.{body_of};
ghost use Rattle.name_rules.specs.Values as rules;
ghost use Rattle.name_state.specs.UnitNames.Shown as shown;
ghost use Rattle.name_state.specs.UnitNames.Shown.{names_of, own_of, known_of, aggregate_of};

use crate::unit_names::names::Names;
use name_tables::name_records::{Aggregate, Body, Known, Own};
use qual_base::{NameId, Numbered, StructId};
use tape_ops::TagKind;

impl Names {
    /// A struct, union or enum by its number. Constant time.
    #[tactic(auto, using(crate::proofs::UnitNames::Knowing::there_at, crate::proofs::UnitNames::Knowing::none_at, crate::proofs::UnitNames::Knowing::map_get))]
    pub fn aggregate(&self, number: StructId) -> Option<&Aggregate>
        ensures { (t : ℕ → CType) → option_map (λ it. aggregate_of t it.now) result
            ≡ slice_get (names_of t self.now).aggregates number }
    {
        self.aggregates().get(number.number() as usize)
    }

    /// The members of a struct, where it has a body. Constant time.
    pub fn body(&self, number: StructId) -> Option<&Body>
        ensures { (t : ℕ → CType) → option_map (λ it. shown.body_of t it.now) result
            ≡ body_of (names_of t self.now).aggregates number }
    {
        match self.aggregate(number) {
            Some(it) => match &it.body {
                Some(body) => Some(body),
                None => None,
            },
            None => None,
        }
    }

    /// Whether a struct, union or enum is a union. Constant time.
    pub fn is_union(&self, number: StructId) -> bool
        ensures { (t : ℕ → CType) → result
            ≡ rules.is_union_at (slice_get (names_of t self.now).aggregates number) }
    {
        match self.aggregate(number) {
            Some(it) => match it.kind {
                TagKind::Struct => false,
                TagKind::Union => true,
                TagKind::Enum => false,
            },
            None => false,
        }
    }

    /// The own member of a struct with a number. Constant time.
    #[tactic(auto, using(crate::proofs::UnitNames::Knowing::there_at, crate::proofs::UnitNames::Knowing::none_at, crate::proofs::UnitNames::Knowing::map_get))]
    pub fn own_at(&self, number: StructId, own: usize) -> Option<Own>
        ensures { (t : ℕ → CType) → option_map (own_of t) result
            ≡ slice_get (rules.own_of (names_of t self.now).aggregates number) own }
    {
        match self.body(number) {
            Some(body) => body.own().get(own).copied(),
            None => None,
        }
    }

    /// The own member of a struct that an item without designators initialises, by the number of the next one. Constant time.
    pub fn next_own(&self, number: StructId, next: usize) -> Option<Own>
        ensures { (t : ℕ → CType) → option_map (own_of t) result
            ≡ slice_get (rules.own_of (names_of t self.now).aggregates number)
            (rules.own_number (names_of t self.now).aggregates number next) }
    {
        let next = if self.is_union(number) { 0 } else { next };
        self.own_at(number, next)
    }

    /// A member of a struct by its name, of those so far. Constant time.
    #[tactic(auto, using(crate::proofs::UnitNames::Finding::member_found), unfolding(crate::specs::UnitNames::Shown::names_of))]
    pub fn member_at(&self, number: StructId, name: NameId) -> Option<Known>
        ensures { (t : ℕ → CType) → option_map (known_of t) result
            ≡ rules.member_in (body_of (names_of t self.now).aggregates number) name }
    {
        self.aggregates.member_at(number, name)
    }
}
