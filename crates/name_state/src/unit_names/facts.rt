//! Facts that are added one by one.

ghost use Rattle.std.specs.Prelude.{◌≡◌, ◌∷◌, ◌++◌, [], ℕ, Option, IfOk, OnOk, option_map, length};
ghost use Rattle.std.specs.List.{last_or};
ghost use Rattle.type_table.specs.Types.{CType};
ghost use Rattle.name_rules.specs.Faults.{fault_where};
ghost use Rattle.name_rules.specs.Scopes.{with_faults, with_declared, with_aggregate, with_body, with_key, with_member, with_unnamed, or_no_body, body_of, has_body, owner_at};
ghost use Rattle.name_rules.specs.Declaring.{opened, has_body_in, linked, or_at, body_begun};
ghost use Rattle.name_tables.specs.NameRecords.Held.{bodied_of};
ghost use Rattle.name_state.specs.UnitNames.Shown.{names_of, meaning_of, declared_of, rule_of, use_of};

use crate::unit_names::names::Names;
use name_tables::name_records::{Bodied, Declared, Fault, NameUse, Rule, TypeNamed, Use};
use name_tables::name_scopes::Place;
use qual_base::{NameId, NoMemory, Numbered, StructId, TypeId, UnitNo};
use tape_ops::TagKind;

impl Names {
    /// A rule may fail at a place. Constant time but for growth.
    #[tactic(auto, using(crate::proofs::UnitNames::Views::views), unfolding(crate::specs::UnitNames::Shown::names_of))]
    pub fn blame(&mut self, fails: bool, at: &Place, rule: Rule) -> Result<(), NoMemory>
        ensures { OnOk result
            ((t : ℕ → CType) → names_of t self.new
            ≡ with_faults (fault_where fails at.now (rule_of rule)) (names_of t self.old)) }
    {
        if fails {
            self.faults.push(Fault { at: *at, rule })?;
        }
        Ok(())
    }

    /// One more declaration. Constant time but for growth.
    #[tactic(auto, using(crate::proofs::UnitNames::Views::views), unfolding(crate::specs::UnitNames::Shown::names_of))]
    pub fn push_declared(&mut self, declared: Declared) -> Result<(), NoMemory>
        ensures { OnOk result
            ((t : ℕ → CType) → names_of t self.new
            ≡ with_declared (declared_of t declared) (names_of t self.old)) }
    {
        self.declared.push(declared)?;
        Ok(())
    }

    /// The owner of the first declaration at a place. Constant time.
    #[tactic(auto, using(crate::proofs::UnitNames::Views::views), unfolding(crate::specs::UnitNames::Shown::names_of))]
    pub fn owner_at(&self, at: &Place) -> Option<Place>
        ensures { (t : ℕ → CType) → result ≡ owner_at (names_of t self.now) at.now }
    {
        match self.declared.first_at(at) {
            Some(declared) => declared.owner,
            None => None,
        }
    }

    /// The newest declaration. Constant time.
    #[tactic(auto, using(crate::proofs::UnitNames::Views::views), unfolding(crate::specs::UnitNames::Shown::names_of))]
    pub fn last_declared(&self) -> Option<Declared>
        ensures { (t : ℕ → CType) → option_map (declared_of t) result
            ≡ last_or None (names_of t self.now).declared }
    {
        self.declared.as_slice().last().copied()
    }

    /// One more struct, union or enum. Constant time but for growth.
    #[tactic(auto, using(crate::proofs::UnitNames::Views::views), unfolding(crate::specs::UnitNames::Shown::names_of))]
    pub fn push_aggregate(&mut self, kind: TagKind, at: &Place) -> Result<StructId, NoMemory>
        ensures number { IfOk result
            (λ n. (t : ℕ → CType) → n ≡ length (names_of t self.old).aggregates) }
        ensures pushed { OnOk result
            ((t : ℕ → CType) → names_of t self.new
            ≡ with_aggregate kind at.now (names_of t self.old)) }
    {
        let number = self.aggregates.push(kind, at)?;
        Ok(number)
    }

    /// The body of a struct begins. Constant time.
    #[tactic(auto, using(crate::proofs::UnitNames::Views::views), unfolding(crate::specs::UnitNames::Shown::names_of))]
    pub fn open_body(&mut self, number: StructId)
        ensures { (t : ℕ → CType) → names_of t self.new ≡ opened number (names_of t self.old) }
    {
        self.aggregates.open(self.alloc, number);
    }

    /// What a struct is known by in other sources. Constant time.
    #[tactic(auto, using(crate::proofs::UnitNames::Views::views), unfolding(crate::specs::UnitNames::Shown::names_of))]
    pub fn set_key(&mut self, number: StructId, by_typedef: bool, name: NameId)
        ensures { (t : ℕ → CType) → names_of t self.new
            ≡ with_key number by_typedef name (names_of t self.old) }
    {
        self.aggregates.set_key(number, by_typedef, name);
    }

    /// Whether a struct has a body. Constant time.
    #[tactic(auto, using(crate::proofs::UnitNames::Views::views), unfolding(crate::specs::UnitNames::Shown::names_of))]
    pub fn has_body(&self, number: StructId) -> bool
        ensures { (t : ℕ → CType) → result
            ≡ has_body (body_of (names_of t self.now).aggregates number) }
    {
        self.aggregates.has_body(number)
    }

    /// How many own members a struct has. Constant time.
    #[tactic(auto, using(crate::proofs::UnitNames::Views::views), unfolding(crate::specs::UnitNames::Shown::names_of))]
    pub fn count_own(&self, number: StructId) -> usize
        ensures { (t : ℕ → CType) → result
            ≡ length (or_no_body (body_of (names_of t self.now).aggregates number)).own }
    {
        self.aggregates.count(number)
    }

    /// A struct has one more own member, which has a name. Constant time but for growth.
    #[tactic(auto, using(crate::proofs::UnitNames::Views::views), unfolding(crate::specs::UnitNames::Shown::names_of))]
    pub fn push_member(
        &mut self,
        number: StructId,
        name: NameId,
        at: &Place,
        ty: TypeId,
    ) -> Result<(), NoMemory>
        ensures { OnOk result
            ((t : ℕ → CType) → names_of t self.new
            ≡ with_body number (with_member name at.now (t ty)) (names_of t self.old)) }
    {
        self.aggregates
            .push_member(self.alloc, number, name, at, ty)?;
        Ok(())
    }

    /// A struct has one more own member without a name, in which lie the members of `inner`. Linear in their number.
    #[tactic(auto, using(crate::proofs::UnitNames::Views::views), unfolding(crate::specs::UnitNames::Shown::names_of))]
    pub fn push_unnamed(
        &mut self,
        number: StructId,
        at: &Place,
        ty: TypeId,
        inner: StructId,
    ) -> Result<(), NoMemory>
        ensures { OnOk result ((t : ℕ → CType) → names_of t self.new
            ≡ with_body number (with_unnamed at.now (t ty) (or_no_body
            (body_of (names_of t self.old).aggregates inner)).known) (names_of t self.old)) }
    {
        self.aggregates
            .push_unnamed(self.alloc, number, at, ty, inner)?;
        Ok(())
    }

    /// One more object or function of the file. Constant time but for growth.
    #[tactic(auto, unfolding(crate::specs::UnitNames::Shown::names_of))]
    pub fn push_thing(&mut self, name: NameId, at: &Place) -> Result<(), NoMemory>
        ensures { OnOk result ((t : ℕ → CType) → names_of t self.new
            ≡ record (names_of t self.old)
            { things = (name, at.now) ∷ (names_of t self.old).things }) }
    {
        self.things.push(name, at)?;
        Ok(())
    }

    /// A declaration of an object or function of the file has `static` in a unit. Constant time but for growth.
    #[tactic(auto, unfolding(crate::specs::UnitNames::Shown::names_of))]
    pub fn push_static(&mut self, unit: UnitNo, name: NameId) -> Result<(), NoMemory>
        ensures { OnOk result ((t : ℕ → CType) → names_of t self.new
            ≡ record (names_of t self.old)
            { statics = (unit, name) ∷ (names_of t self.old).statics }) }
    {
        self.statics.push((unit, name))?;
        Ok(())
    }

    /// Where the object or function of the file that has a name was first declared in this unit, or else in the prelude; here, where
    /// that is new. Constant time.
    #[tactic(auto, using(crate::proofs::UnitNames::Views::views), unfolding(crate::specs::UnitNames::Shown::names_of))]
    pub fn linked(&self, name: NameId, at: &Place) -> Place
        ensures { (t : ℕ → CType) → result ≡ linked name at.now (names_of t self.now) }
    {
        match self.things.get(at.0, name) {
            Some(first) => first,
            None => match self.things.get(UnitNo::new(0), name) {
                Some(first) => first,
                None => *at,
            },
        }
    }

    /// One more use of a name. Constant time but for growth.
    #[tactic(auto, using(crate::proofs::UnitNames::Views::views), unfolding(crate::specs::UnitNames::Shown::names_of))]
    pub fn push_use(&mut self, at: &Place, found: &Use) -> Result<(), NoMemory>
        ensures { OnOk result ((t : ℕ → CType) → names_of t self.new
            ≡ record (names_of t self.old) {
              uses = (names_of t self.old).uses
                  ++ record { at = at.now; use_of = use_of found.now } ∷ [];
            }) }
    {
        self.uses.push(NameUse {
            at: *at,
            use_of: *found,
        })?;
        Ok(())
    }

    /// One more type's name. Constant time but for growth.
    #[tactic(auto, using(crate::proofs::UnitNames::Views::views), unfolding(crate::specs::UnitNames::Shown::names_of))]
    pub fn push_type_name(&mut self, at: &Place, ty: TypeId) -> Result<(), NoMemory>
        ensures { OnOk result ((t : ℕ → CType) → names_of t self.new
            ≡ record (names_of t self.old) {
              type_names = (names_of t self.old).type_names
                  ++ record { at = at.now; type = t ty } ∷ [];
            }) }
    {
        self.type_names.push(TypeNamed { at: *at, ty })?;
        Ok(())
    }

    /// Whether a function has a body in a unit. Constant time.
    #[tactic(auto, unfolding(crate::specs::UnitNames::Shown::names_of))]
    pub fn is_entered(&self, unit: UnitNo, first: &Place) -> bool
        ensures { (t : ℕ → CType) → result
            ≡ has_body_in unit (names_of t self.now).bodies first.now }
    {
        self.bodies.has(unit, first)
    }

    /// A function has a body. Constant time but for growth.
    #[tactic(auto, using(crate::proofs::UnitNames::Views::views), unfolding(crate::specs::UnitNames::Shown::names_of))]
    pub fn push_body(&mut self, body: &Bodied) -> Result<(), NoMemory>
        ensures { OnOk result ((t : ℕ → CType) → names_of t self.new
            ≡ record (names_of t self.old)
            { bodies = bodied_of body.now ∷ (names_of t self.old).bodies }) }
    {
        self.bodies.push(body)
    }

    /// The body goes on of the function that was first declared at this place, in the scope that is kept. Constant time but for growth.
    #[tactic(auto, using(crate::proofs::UnitNames::Views::views), unfolding(crate::specs::UnitNames::Shown::names_of))]
    pub fn begin_body(&mut self, first: &Place) -> Result<(), NoMemory>
        ensures { OnOk result ((t : ℕ → CType) → names_of t self.new
            ≡ body_begun first.now (names_of t self.old)) }
    {
        self.enclosing = Some(*first);
        match self.kept.take() {
            Some(scope) => self.scopes.reopen(scope)?,
            None => {}
        }
        Ok(())
    }
}
