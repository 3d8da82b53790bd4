//! Scopes that open and close, and what names and tags stand for in them (C99, 6.2.1 and 6.2.3).

ghost use Rattle.std.specs.Prelude.{◌≡◌, ℕ, List, Option, OnOk, option_map, length};
ghost use Rattle.type_table.specs.Types.{CType};
ghost use Rattle.name_rules.specs.Scopes.{enter, leave, bound, tag_bound, meaning, inner_meaning, tag_in, tag_through, innermost, is_at_file};
ghost use Rattle.name_rules.specs.Declaring.{keep, body_left};
ghost use Rattle.name_rules.specs.Units.{shared, unit_begun};
ghost use Rattle.name_state.specs.UnitNames.Shown.{names_of, meaning_of};

use crate::unit_names::names::Names;
use crate::unit_names::shared::share_all;
use name_lists::NameList;
use name_tables::name_scopes::{Meant, Place, Scopes};
use qual_base::{NameId, NoMemory, Numbered, StructId, UnitNo};
use tape_ops::TagKind;

impl Names {
    /// A scope begins. Constant time but for growth.
    #[tactic(auto, using(crate::proofs::UnitNames::Views::views), unfolding(crate::specs::UnitNames::Shown::names_of))]
    pub fn enter(&mut self) -> Result<(), NoMemory>
        ensures { OnOk result
            ((t : ℕ → CType) → names_of t self.new ≡ enter (names_of t self.old)) }
    {
        self.scopes.enter()?;
        Ok(())
    }

    /// The innermost scope ends. Takes no memory, and time linear in its declarations.
    #[tactic(auto, using(crate::proofs::UnitNames::Views::views), unfolding(crate::specs::UnitNames::Shown::names_of))]
    pub fn leave(&mut self)
        ensures { (t : ℕ → CType) → names_of t self.new ≡ leave (names_of t self.old) }
    {
        self.scopes.leave();
    }

    /// The scope of parameters ends, and is kept where they are a function's own. Takes no memory.
    #[tactic(auto, using(crate::proofs::UnitNames::Views::views), unfolding(crate::specs::UnitNames::Shown::names_of))]
    pub fn keep(&mut self, own: &Option<Place>)
        ensures { (t : ℕ → CType) → names_of t self.new ≡ keep own.now (names_of t self.old) }
    {
        match own {
            Some(_) => {
                let scope = self.scopes.close();
                self.kept = Some(scope);
            }
            None => self.scopes.leave(),
        }
    }

    /// The innermost scope says what a name stands for. Constant time but for growth.
    #[tactic(auto, using(crate::proofs::UnitNames::Views::views), unfolding(crate::specs::UnitNames::Shown::names_of))]
    pub fn bind(&mut self, name: NameId, meant: Meant) -> Result<(), NoMemory>
        ensures { OnOk result
            ((t : ℕ → CType) → names_of t self.new
            ≡ bound name (meaning_of t meant) (names_of t self.old)) }
    {
        self.scopes.bind(name, meant)?;
        Ok(())
    }

    /// The innermost scope says what a tag stands for. Constant time but for growth.
    #[tactic(auto, using(crate::proofs::UnitNames::Views::views), unfolding(crate::specs::UnitNames::Shown::names_of))]
    pub fn bind_tag(&mut self, kind: TagKind, tag: NameId, number: StructId) -> Result<(), NoMemory>
        ensures { OnOk result
            ((t : ℕ → CType) → names_of t self.new
            ≡ tag_bound kind tag number (names_of t self.old)) }
    {
        self.scopes.bind_tag(kind, tag, number)?;
        Ok(())
    }

    /// What a name stands for. Takes no memory, and constant time.
    #[tactic(auto, using(crate::proofs::UnitNames::Views::views), unfolding(crate::specs::UnitNames::Shown::names_of))]
    pub fn meaning(&self, name: NameId) -> Option<Meant>
        ensures { (t : ℕ → CType) → option_map (meaning_of t) result
            ≡ meaning (names_of t self.now) name }
    {
        match self.scopes.meaning(name) {
            Some(meant) => Some(meant),
            None => match self.round.get(name) {
                Some(at) => Some(Meant::Thing(at)),
                None => None,
            },
        }
    }

    /// What the innermost scope says of a name. Takes no memory, and constant time.
    #[tactic(auto, using(crate::proofs::UnitNames::Views::views), unfolding(crate::specs::UnitNames::Shown::names_of))]
    pub fn meaning_here(&self, name: NameId) -> Option<Meant>
        ensures { (t : ℕ → CType) → option_map (meaning_of t) result
            ≡ inner_meaning (names_of t self.now) name }
    {
        self.scopes.meaning_here(name)
    }

    /// What the innermost scope says of a tag. Takes no memory, and constant time.
    #[tactic(auto, using(crate::proofs::UnitNames::Views::views), unfolding(crate::specs::UnitNames::Shown::names_of))]
    pub fn tag_here(&self, kind: TagKind, tag: NameId) -> Option<StructId>
        ensures { (t : ℕ → CType) → result
            ≡ tag_in (innermost (names_of t self.now).scopes).tags kind tag }
    {
        self.scopes.tag_here(kind, tag)
    }

    /// What a tag stands for. Takes no memory, and constant time.
    #[tactic(auto, using(crate::proofs::UnitNames::Views::views), unfolding(crate::specs::UnitNames::Shown::names_of))]
    pub fn tag(&self, kind: TagKind, tag: NameId) -> Option<StructId>
        ensures { (t : ℕ → CType) → result ≡ tag_through (names_of t self.now).scopes kind tag }
    {
        self.scopes.tag(kind, tag)
    }

    /// Whether the file scope is the innermost. Constant time.
    #[tactic(auto, using(crate::proofs::UnitNames::Views::views), unfolding(crate::specs::UnitNames::Shown::names_of))]
    pub fn is_at_file(&self) -> bool
        ensures { (t : ℕ → CType) → result ≡ is_at_file (names_of t self.now) }
    {
        self.scopes.len() < 2
    }

    /// The function in whose body this is. Constant time.
    #[tactic(auto, unfolding(crate::specs::UnitNames::Shown::names_of))]
    pub fn enclosing(&self) -> Option<Place>
        ensures { (t : ℕ → CType) → result ≡ (names_of t self.now).enclosing }
    {
        self.enclosing
    }

    /// The body of a function ends, and its scope. Takes no memory.
    #[tactic(auto, using(crate::proofs::UnitNames::Views::views), unfolding(crate::specs::UnitNames::Shown::names_of))]
    pub fn leave_body(&mut self)
        ensures { (t : ℕ → CType) → names_of t self.new ≡ body_left (names_of t self.old) }
    {
        self.enclosing = None;
        self.scopes.leave();
    }

    /// What of the prelude is visible round the file scope of each source: the objects and functions of the innermost scope, behind a
    /// whole prelude that of its file. The scope ends. Linear in its declarations.
    fn share(&mut self) -> Result<(), NoMemory>
        ensures { OnOk result ((t : ℕ → CType) → names_of t self.new
            ≡ record (leave (names_of t self.old)) {
              round = shared (names_of t self.old)
                  (innermost (names_of t self.old).scopes).names;
            }) }
    {
        let file = self.scopes.close();
        self.round = NameList::new(self.alloc);
        share_all(&mut self.round, &self.declared, file.names())?;
        Ok(())
    }

    /// A unit begins, with a file scope of its own: the first source sees the objects and functions of the scope that is innermost
    /// then, behind a whole prelude that of its file, and so do the later ones. The scopes that are open are let go. Linear in their
    /// declarations.
    pub fn begin_unit(&mut self, unit: UnitNo) -> Result<(), NoMemory>
        ensures { OnOk result ((t : ℕ → CType) → names_of t self.new
            ≡ unit_begun unit (names_of t self.old)) }
    {
        if unit.number() == 1 {
            self.share()?;
        }
        self.scopes = Scopes::new(self.alloc);
        self.scopes.enter()?;
        Ok(())
    }
}
