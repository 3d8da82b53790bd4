//! The members of a struct or union (C99, 6.7.2.1).

ghost use Rattle.std.specs.Prelude.{◌≡◌, OnOk, length};
ghost use Rattle.name_tables.specs.NameRecords.Bodies.{empty_body, with_member, with_inner, with_unnamed};

use crate::name_scopes::Place;
use qual_base::{NameId, NoMemory, TypeId};
use std::alloc::Global;
use std::marker::Model;

/// A member of a struct's own, at its name, or at the word `struct` or `union` where it has none.
#[derive(Clone, Copy, PartialEq, Eq, Debug, Drop)]
pub struct Own {
    pub at: Place,
    pub ty: TypeId,
}

/// A member that a struct has by a name, its own or one of an unnamed member, with the number of the own member that it is or
/// lies in.
#[derive(Clone, Copy, PartialEq, Eq, Debug, Drop)]
pub struct Known {
    pub name: NameId,
    pub at: Place,
    pub ty: TypeId,
    pub own: usize,
}

/// The members of a struct, in the order of the text. Clauses see the two lists. Memory is linear in them.
#[derive(Drop)]
pub struct Body {
    own: Vec<Own>,
    known: Vec<Known>,
}

impl Model for Body {
    ghost use Rattle.name_tables.specs.NameRecords.Bodies.{OneBody};

    ghost Value = { OneBody };

    ghost view = { λ s. record { own = s.own.items; known = s.known.items } };
}

impl Body {
    /// No members. Takes no memory.
    pub(crate) fn new(alloc: Global) -> Self
        ensures { result ≡ empty_body }
    {
        Body {
            own: Vec::new(alloc),
            known: Vec::new(alloc),
        }
    }

    /// How many own members there are. Constant time.
    pub(crate) fn count(&self) -> usize
        ensures { result ≡ length self.now.own }
    {
        self.own.len()
    }

    /// The own members, in the order of the text.
    pub fn own(&self) -> &[Own]
        ensures { result.now ≡ self.now.own }
    {
        self.own.as_slice()
    }

    /// The members that have names, in the order of the text.
    pub fn known(&self) -> &[Known]
        ensures { result.now ≡ self.now.known }
    {
        self.known.as_slice()
    }

    /// One more own member, which has a name. Constant time but for growth.
    pub(crate) fn push(&mut self, name: NameId, at: &Place, ty: TypeId) -> Result<(), NoMemory>
        ensures { OnOk result (self.new ≡ with_member name at.now ty self.old) }
    {
        let own = self.own.len();
        self.own.push(Own { at: *at, ty })?;
        let at = *at;
        self.known.push(Known { name, at, ty, own })?;
        Ok(())
    }

    /// Members that lie in an own member.
    fn push_inner(&mut self, own: usize, inner: &[Known]) -> Result<(), NoMemory>
        ensures { OnOk result (self.new ≡ with_inner own inner.now self.old) }
    {
        for known in inner {
            self.known.push(Known { own, ..*known })?;
        }
        Ok(())
    }

    /// One more own member without a name, whose members are members of this struct too. Linear in their number.
    pub(crate) fn push_unnamed(
        &mut self,
        at: &Place,
        ty: TypeId,
        inner: &[Known],
    ) -> Result<(), NoMemory>
        ensures { OnOk result (self.new ≡ with_unnamed at.now ty inner.now self.old) }
    {
        let own = self.own.len();
        self.own.push(Own { at: *at, ty })?;
        self.push_inner(own, inner)
    }
}
