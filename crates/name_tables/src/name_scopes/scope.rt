//! One scope.

ghost use Rattle.std.specs.Prelude.{◌≡◌, drop, reverse, OnOk, OnErr};
ghost use Rattle.name_tables.specs.NameScopes.Meanings.{no_scope, with_name, with_tag};

use crate::name_scopes::meant::Meant;
use crate::name_scopes::tags::Tag;
use qual_base::{NameId, NoMemory, StructId};
use std::alloc::Global;
use std::marker::Model;
use tape_ops::TagKind;

/// A scope: its names and tags with what they stand for. Memory is linear in its declarations.
#[derive(Drop)]
pub struct Scope {
    names: Vec<(NameId, Meant)>,
    tags: Vec<Tag>,
}

impl Model for Scope {
    ghost use Rattle.std.specs.Prelude.{reverse};
    ghost use Rattle.name_tables.specs.NameScopes.Meanings.{OneScope};

    ghost Value = { OneScope };

    ghost view = { λ s. record { names = reverse s.names.items; tags = reverse s.tags.items } };
}

impl Scope {
    /// A scope without names and tags. Takes no memory.
    pub(crate) fn new(alloc: Global) -> Self
        ensures { result ≡ no_scope }
    {
        Scope {
            names: Vec::new(alloc),
            tags: Vec::new(alloc),
        }
    }

    /// The names with what they stand for, the oldest first. Constant time.
    pub fn names(&self) -> &[(NameId, Meant)]
        ensures { reverse result.now ≡ self.now.names }
    {
        self.names.as_slice()
    }

    /// The tags with what they stand for, the oldest first. Constant time.
    pub(crate) fn tags(&self) -> &[Tag]
        ensures { reverse result.now ≡ self.now.tags }
    {
        self.tags.as_slice()
    }

    /// One more name. For want of memory the scope stays as it was.
    pub(crate) fn push(&mut self, name: NameId, meant: Meant) -> Result<(), NoMemory>
        ensures bound { OnOk result (self.new ≡ with_name name meant self.old) }
        ensures err { OnErr result (self.new ≡ self.old) }
    {
        self.names.push((name, meant))?;
        Ok(())
    }

    /// Takes the newest name back, if there is one. Takes no memory.
    pub(crate) fn pop(&mut self)
        ensures { self.new ≡ record self.old { names = drop 1 self.old.names } }
    {
        let _newest = self.names.pop();
    }

    /// One more tag. For want of memory the scope stays as it was.
    pub(crate) fn push_tag(
        &mut self,
        kind: TagKind,
        tag: NameId,
        number: StructId,
    ) -> Result<(), NoMemory>
        ensures bound { OnOk result (self.new ≡ with_tag kind tag number self.old) }
        ensures err { OnErr result (self.new ≡ self.old) }
    {
        self.tags.push(Tag { kind, tag, number })?;
        Ok(())
    }

    /// Takes the newest tag back, if there is one. Takes no memory.
    pub(crate) fn pop_tag(&mut self)
        ensures { self.new ≡ record self.old { tags = drop 1 self.old.tags } }
    {
        let _newest = self.tags.pop();
    }
}
