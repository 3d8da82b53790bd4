//! The scopes that are open.

ghost use Rattle.std.specs.Prelude.{◌≡◌, ◌∷◌, [], length, OnOk, OnErr};
ghost use Rattle.name_lists.specs.Newest as lists;
ghost use Rattle.name_lists.specs.Newest.{newest};
ghost use Rattle.name_tables.specs.NameScopes.Meanings.{no_scope, innermost, outer_scopes, with_name, with_tag};
ghost use Rattle.name_tables.specs.NameScopes.Meanings.{tag_found, meant_through, tag_through};
ghost use Rattle.name_tables.specs.NameScopes.Tabled.{IsBound, AreSame};

use crate::name_scopes::meant::Meant;
use crate::name_scopes::scope::Scope;
use crate::name_scopes::tags::TagScopes;
use name_lists::NameScopes;
use qual_base::{NameId, NoMemory, StructId};
use std::alloc::Global;
use std::marker::Model;
use tape_ops::TagKind;

/// The scopes that are open, each with its names and tags.
///
/// Clauses see the list of the scopes, the innermost first. Memory is linear in the declarations and scopes that are
/// open, with 4 bytes for each number of a name up to the highest that was declared, and for tags of each kind.
#[derive(Drop)]
pub struct Scopes {
    open: Vec<Scope>,
    names: NameScopes<Meant>,
    tags: TagScopes,
}

impl Model for Scopes {
    ghost use Rattle.std.specs.Prelude.{List, reverse};
    ghost use Rattle.name_tables.specs.NameScopes.Meanings.{OneScope};
    ghost use Rattle.name_tables.specs.NameScopes.Tabled.{AreTabled};

    ghost Value = { List OneScope };

    ghost view = { λ s. reverse s.open.items };

    ghost invariant = { λ s. AreTabled (reverse s.open.items) s.names s.tags };
}

/// Has a scope, which is the innermost of some, say what a name stands for, and the table of their names. For want of
/// memory both stay as they were. Constant time but for growth.
fn bind_in(
    scope: &mut Scope,
    names: &mut NameScopes<Meant>,
    name: NameId,
    meant: &Meant,
) -> Result<(), NoMemory>
    ensures bound { OnOk result (scope.new ≡ with_name name meant.now scope.old) }
    ensures named { OnOk result (names.new
        ≡ ((name, meant.now) ∷ lists.innermost names.old) ∷ lists.outer_scopes names.old) }
    ensures err { OnErr result (scope.new ≡ scope.old) }
    ensures same { OnErr result (names.new ≡ names.old) }
{
    scope.push(name, *meant)?;
    match names.bind(name, *meant) {
        Ok(()) => Ok(()),
        Err(NoMemory) => {
            scope.pop();
            Err(NoMemory)
        }
    }
}

/// Has a scope, which is the innermost of some, say what a tag stands for, and the tables of their tags. For want of
/// memory all stay as they were. Constant time but for growth.
fn bind_tag_in(
    scope: &mut Scope,
    tags: &mut TagScopes,
    kind: TagKind,
    tag: NameId,
    number: StructId,
) -> Result<(), NoMemory>
    ensures bound { OnOk result (scope.new ≡ with_tag kind tag number scope.old) }
    ensures tagged { OnOk result (IsBound tags.old tags.new kind tag number) }
    ensures err { OnErr result (scope.new ≡ scope.old) }
    ensures same { OnErr result (AreSame tags.old tags.new) }
{
    scope.push_tag(kind, tag, number)?;
    match tags.bind(kind, tag, number) {
        Ok(()) => Ok(()),
        Err(NoMemory) => {
            scope.pop_tag();
            Err(NoMemory)
        }
    }
}

impl Scopes {
    /// No open scope. Takes no memory.
    pub fn new(alloc: Global) -> Self
        ensures { result ≡ [] }
    {
        Scopes {
            open: Vec::new(alloc),
            names: NameScopes::new(alloc),
            tags: TagScopes::new(alloc),
        }
    }

    /// How many scopes are open. Constant time.
    pub fn len(&self) -> usize
        ensures { result ≡ length self.now }
    {
        self.open.len()
    }

    /// Opens a scope without names inside the innermost. For want of memory the scopes stay as they were. Constant time
    /// but for growth.
    pub fn enter(&mut self) -> Result<(), NoMemory>
        ensures entered { OnOk result (self.new ≡ no_scope ∷ self.old) }
        ensures err { OnErr result (self.new ≡ self.old) }
    {
        let alloc = *self.open.allocator();
        self.reopen(Scope::new(alloc))
    }

    /// Opens a scope that was closed, inside the innermost. For want of memory the scopes stay as they were, and the
    /// closed one is let go. Linear in its declarations.
    pub fn reopen(&mut self, scope: Scope) -> Result<(), NoMemory>
        ensures reopened { OnOk result (self.new ≡ scope ∷ self.old) }
        ensures err { OnErr result (self.new ≡ self.old) }
    {
        self.names.reopen(scope.names())?;
        match self.tags.reopen(scope.tags()) {
            Ok(()) => {}
            Err(NoMemory) => {
                self.names.leave();
                return Err(NoMemory);
            }
        }
        match self.open.push(scope) {
            Ok(()) => Ok(()),
            Err(_) => {
                self.names.leave();
                self.tags.leave();
                Err(NoMemory)
            }
        }
    }

    /// Closes the innermost scope, if one is open, and lets its names go. Takes no memory, and time linear in them.
    pub fn leave(&mut self)
        ensures { self.new ≡ outer_scopes self.old }
    {
        let _closed = self.close();
    }

    /// Closes the innermost scope and answers it; where none is open, one without names. Takes no memory, and time
    /// linear in its declarations.
    pub fn close(&mut self) -> Scope
        ensures closed { result ≡ innermost self.old }
        ensures left { self.new ≡ outer_scopes self.old }
    {
        match self.open.pop() {
            Some(scope) => {
                self.names.leave();
                self.tags.leave();
                scope
            }
            None => Scope::new(*self.open.allocator()),
        }
    }

    /// Has the innermost scope say what a name stands for; where none is open, one is opened. For want of memory the
    /// scopes stay as they were. Constant time but for growth.
    pub fn bind(&mut self, name: NameId, meant: Meant) -> Result<(), NoMemory>
        ensures bound { OnOk result
            (self.new ≡ with_name name meant (innermost self.old) ∷ outer_scopes self.old) }
    {
        match self.open.last_mut() {
            Some(scope) => {
                bind_in(scope, &mut self.names, name, &meant)?;
                Ok(())
            }
            None => {
                let mut scope = Scope::new(*self.open.allocator());
                scope.push(name, meant)?;
                self.reopen(scope)
            }
        }
    }

    /// Has the innermost scope say what a tag stands for; where none is open, one is opened. For want of memory the
    /// scopes stay as they were. Constant time but for growth.
    pub fn bind_tag(&mut self, kind: TagKind, tag: NameId, number: StructId) -> Result<(), NoMemory>
        ensures bound { OnOk result
            (self.new ≡ with_tag kind tag number (innermost self.old) ∷ outer_scopes self.old) }
    {
        match self.open.last_mut() {
            Some(scope) => {
                bind_tag_in(scope, &mut self.tags, kind, tag, number)?;
                Ok(())
            }
            None => {
                let mut scope = Scope::new(*self.open.allocator());
                scope.push_tag(kind, tag, number)?;
                self.reopen(scope)
            }
        }
    }

    /// What the innermost scope says of a name. Takes no memory, and constant time.
    pub fn meaning_here(&self, name: NameId) -> Option<Meant>
        ensures { result ≡ newest (innermost self.now).names name }
    {
        self.names.newest_here(name)
    }

    /// What the innermost scope says of a tag. Takes no memory, and constant time.
    pub fn tag_here(&self, kind: TagKind, tag: NameId) -> Option<StructId>
        ensures { result ≡ tag_found (innermost self.now).tags kind tag }
    {
        self.tags.of_kind(kind).newest_here(tag)
    }

    /// What a name stands for in the innermost scope that says so. Takes no memory, and constant time.
    pub fn meaning(&self, name: NameId) -> Option<Meant>
        ensures { result ≡ meant_through self.now name }
    {
        self.names.newest(name)
    }

    /// What a tag stands for in the innermost scope that says so. Takes no memory, and constant time.
    pub fn tag(&self, kind: TagKind, tag: NameId) -> Option<StructId>
        ensures { result ≡ tag_through self.now kind tag }
    {
        self.tags.of_kind(kind).newest(tag)
    }
}
