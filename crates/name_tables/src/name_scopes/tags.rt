//! Tags, and the scopes of tags by their kind.

ghost use Rattle.std.specs.Prelude.{◌≡◌, ◌∷◌, ◌++◌, [], reverse, OnOk, OnErr};
ghost use Rattle.tape_ops.specs.declared.specifier.TagKind.{TagKind};
ghost use Rattle.name_lists.specs.Newest.{innermost, outer_scopes};
ghost use Rattle.name_tables.specs.NameScopes.Tabled.{scopes_in, in_kind, IsBound, AreSame};

use name_lists::NameScopes;
use qual_base::{NameId, NoMemory, StructId};
use std::alloc::Global;
use tape_ops::TagKind;

/// A tag, with the number of what it stands for.
#[derive(Clone, Copy, PartialEq, Eq, Debug, Drop)]
pub struct Tag {
    pub kind: TagKind,
    pub tag: NameId,
    pub number: StructId,
}

/// The scopes that are open with their tags, a table a kind.
#[derive(Drop)]
pub struct TagScopes {
    structs: NameScopes<StructId>,
    unions: NameScopes<StructId>,
    enums: NameScopes<StructId>,
}

/// Opens a scope in two tables. For want of memory both stay as they were.
fn enter_both(
    first: &mut NameScopes<StructId>,
    second: &mut NameScopes<StructId>,
) -> Result<(), NoMemory>
    ensures entered { OnOk result
        ((first.new ≡ [] ∷ first.old) × (second.new ≡ [] ∷ second.old)) }
    ensures err { OnErr result ((first.new ≡ first.old) × (second.new ≡ second.old)) }
{
    first.enter()?;
    match second.enter() {
        Ok(()) => Ok(()),
        Err(NoMemory) => {
            first.leave();
            Err(NoMemory)
        }
    }
}

impl TagScopes {
    /// No open scope. Takes no memory.
    pub fn new(alloc: Global) -> Self
        ensures { (kind : TagKind) → scopes_in result kind ≡ [] }
    {
        TagScopes {
            structs: NameScopes::new(alloc),
            unions: NameScopes::new(alloc),
            enums: NameScopes::new(alloc),
        }
    }

    /// The scopes with their tags of a kind. Constant time.
    pub fn of_kind(&self, kind: TagKind) -> &NameScopes<StructId>
        ensures { result.now ≡ scopes_in self.now kind }
    {
        match kind {
            TagKind::Struct => &self.structs,
            TagKind::Union => &self.unions,
            TagKind::Enum => &self.enums,
        }
    }

    /// Has the innermost scope say what a tag stands for. For want of memory the tags stay as they were. Constant time
    /// but for growth.
    pub fn bind(&mut self, kind: TagKind, tag: NameId, number: StructId) -> Result<(), NoMemory>
        ensures bound { OnOk result (IsBound self.old self.new kind tag number) }
        ensures err { OnErr result (AreSame self.old self.new) }
    {
        match kind {
            TagKind::Struct => self.structs.bind(tag, number),
            TagKind::Union => self.unions.bind(tag, number),
            TagKind::Enum => self.enums.bind(tag, number),
        }
    }

    /// Opens a scope without tags inside the innermost. For want of memory the tags stay as they were. Constant time
    /// but for growth.
    fn enter(&mut self) -> Result<(), NoMemory>
        ensures entered { OnOk result
            ((kind : TagKind) → scopes_in self.new kind ≡ [] ∷ scopes_in self.old kind) }
        ensures err { OnErr result (AreSame self.old self.new) }
    {
        self.structs.enter()?;
        match enter_both(&mut self.unions, &mut self.enums) {
            Ok(()) => Ok(()),
            Err(NoMemory) => {
                self.structs.leave();
                Err(NoMemory)
            }
        }
    }

    /// Closes the innermost scope, if one is open. Takes no memory, and time linear in its tags.
    pub fn leave(&mut self)
        ensures { (kind : TagKind) →
            scopes_in self.new kind ≡ outer_scopes (scopes_in self.old kind) }
    {
        self.structs.leave();
        self.unions.leave();
        self.enums.leave();
    }

    /// Has the innermost scope say what tags stand for, one after the other. Want of memory may leave it with some of
    /// them.
    fn bind_all(&mut self, tags: &[Tag]) -> Result<(), NoMemory>
        requires { (kind : TagKind) → scopes_in self.old kind
            ≡ innermost (scopes_in self.old kind) ∷ outer_scopes (scopes_in self.old kind) }
        ensures bound { OnOk result ((kind : TagKind) → scopes_in self.new kind
            ≡ (in_kind kind (reverse tags.now) ++ innermost (scopes_in self.old kind))
            ∷ outer_scopes (scopes_in self.old kind)) }
        ensures err { OnErr result ((kind : TagKind) →
            outer_scopes (scopes_in self.new kind) ≡ outer_scopes (scopes_in self.old kind)) }
    {
        for it in tags {
            self.bind(it.kind, it.tag, it.number)?;
        }
        Ok(())
    }

    /// Opens a scope inside the innermost, with these tags, the oldest first. For want of memory the tags stay as they
    /// were. Linear in them.
    pub fn reopen(&mut self, tags: &[Tag]) -> Result<(), NoMemory>
        ensures reopened { OnOk result ((kind : TagKind) →
            scopes_in self.new kind ≡ in_kind kind (reverse tags.now) ∷ scopes_in self.old kind) }
        ensures err { OnErr result (AreSame self.old self.new) }
    {
        self.enter()?;
        match self.bind_all(tags) {
            Ok(()) => Ok(()),
            Err(NoMemory) => {
                self.leave();
                Err(NoMemory)
            }
        }
    }
}
