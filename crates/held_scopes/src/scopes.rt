//! The scopes that are open, the innermost of which holds the name of a declarator.

ghost use Rattle.std.specs.Prelude.{◌≡◌, ◌∷◌, IfOk, OnOk, OnErr, false, []};
ghost use Rattle.typedef_scope.specs.Scopes.{kind_in};
ghost use Rattle.c_units.specs.HeldScopes as held;
ghost use Rattle.name_lists.specs.Newest as lists;
ghost use Rattle.held_scopes.specs.Changed.{bound, holding, without_held};
ghost use Rattle.held_scopes.specs.Outcomes.{Makes};

use crate::scope::Closed;
use name_lists::NameScopes;
use qual_base::{NameId, NoMemory};
use std::alloc::Global;
use std::marker::Model;
use typedef_scope::Kind;

/// The scopes that are open, each with the names that it declares, their kinds, and the name that
/// it holds.
///
/// A name's scope begins behind its declarator (C99, 6.2.1, 7): until then the name is held, and
/// has no kind of its own. Clauses see the list of the scopes, the innermost first. Memory is
/// linear in the names and scopes that are open, with 4 bytes for each number of a name up to the
/// highest that was declared.
#[derive(Drop)]
pub struct TypedefScopes {
    open: Vec<Closed>,
    names: NameScopes<Kind>,
}

impl Model for TypedefScopes {
    ghost use Rattle.std.specs.Prelude.{◌≡◌, reverse};
    ghost use Rattle.c_units.specs.HeldScopes.{HeldScopes};
    ghost use Rattle.held_scopes.specs.Named.{names_of};

    ghost Value = { HeldScopes };

    ghost view = { λ s. reverse s.open.items };

    ghost invariant = { λ s. s.names ≡ names_of (reverse s.open.items) };
}

/// Has a scope, which is the innermost of some, give a name a kind, and the table of their names.
/// For want of memory both stay as they were. Constant time but for growth.
fn bind_in(
    scope: &mut Closed,
    names: &mut NameScopes<Kind>,
    name: NameId,
    kind: Kind,
) -> Result<(), NoMemory>
    ensures bound { OnOk result (scope.new ≡ bound name kind scope.old) }
    ensures named { OnOk result (names.new
        ≡ ((name, kind) ∷ lists.innermost names.old) ∷ lists.outer_scopes names.old) }
    ensures err { OnErr result (scope.new ≡ scope.old) }
    ensures same { OnErr result (names.new ≡ names.old) }
{
    scope.push(name, kind)?;
    match names.bind(name, kind) {
        Ok(()) => Ok(()),
        Err(NoMemory) => {
            scope.pop();
            Err(NoMemory)
        }
    }
}

impl TypedefScopes {
    /// One open scope, without names, of a unit that is read as wider C or not.
    pub fn new(alloc: Global, wide: bool) -> Result<Self, NoMemory>
        ensures { IfOk result (λ s. s ≡ held.file_scope wide) }
    {
        let mut scopes = TypedefScopes {
            open: Vec::new(alloc),
            names: NameScopes::new(alloc),
        };
        scopes.reopen(Closed::new(alloc, wide))?;
        Ok(scopes)
    }

    /// Whether the unit is read as wider C. Takes no memory, and constant time.
    pub fn is_wide(&self) -> bool
        ensures { result ≡ held.is_wide self.now }
    {
        match self.open.last() {
            Some(scope) => scope.is_wide(),
            None => false,
        }
    }

    /// Opens a scope without names inside the innermost. For want of memory the scopes stay as
    /// they were. Constant time but for growth.
    pub fn enter(&mut self) -> Result<(), NoMemory>
        ensures entered { OnOk result (self.new ≡ held.enter self.old) }
        ensures err { OnErr result (self.new ≡ self.old) }
    {
        let alloc = *self.open.allocator();
        let wide = self.is_wide();
        self.reopen(Closed::new(alloc, wide))
    }

    /// Opens a scope that was closed, inside the innermost. For want of memory the scopes stay as
    /// they were, and the closed one is let go. Linear in its names.
    pub fn reopen(&mut self, scope: Closed) -> Result<(), NoMemory>
        ensures reopened { OnOk result (self.new ≡ held.reopen scope self.old) }
        ensures err { OnErr result (self.new ≡ self.old) }
    {
        self.names.reopen(scope.names())?;
        match self.open.push(scope) {
            Ok(()) => Ok(()),
            Err(_) => {
                self.names.leave();
                Err(NoMemory)
            }
        }
    }

    /// Closes the innermost scope, if one is open, and lets its names go. Takes no memory, and time
    /// linear in them.
    pub fn leave(&mut self)
        ensures { self.new ≡ held.leave self.old }
    {
        let _closed = self.close();
    }

    /// Closes the innermost scope and answers it; where none is open, one without names. Takes no
    /// memory, and time linear in its names.
    pub fn close(&mut self) -> Closed
        ensures closed { result ≡ held.innermost self.old }
        ensures left { self.new ≡ held.leave self.old }
    {
        match self.open.pop() {
            Some(scope) => {
                self.names.leave();
                scope
            }
            None => Closed::new(*self.open.allocator(), false),
        }
    }

    /// The kind that the innermost scope gives a name. Takes no memory, and constant time.
    fn kind_here(&self, name: NameId) -> Option<Kind>
        ensures { result ≡ kind_in (held.innermost self.now).names name }
    {
        self.names.newest_here(name)
    }

    /// Whether the innermost scope gives a name no other kind than this (C99, 6.7, 3). Takes no
    /// memory, and constant time.
    pub fn may_declare(&self, name: NameId, kind: Kind) -> bool
        ensures { result ≡ held.may_declare (held.innermost self.now) name kind }
    {
        match self.kind_here(name) {
            Some(known) => known.is_same(kind),
            None => true,
        }
    }

    /// Has the innermost scope hold a name; where none is open, one is opened. Memory is wanted only
    /// there, and the scopes stay as they were without it.
    fn hold_here(&mut self, name: NameId) -> Result<(), NoMemory>
        ensures held { OnOk result
            (self.new ≡ holding name (held.innermost self.old) ∷ held.leave self.old) }
        ensures err { OnErr result (self.new ≡ self.old) }
        ensures memory { OnErr result (self.old ≡ []) }
    {
        match self.open.last_mut() {
            Some(scope) => {
                scope.hold(name);
                Ok(())
            }
            None => {
                let mut scope = Closed::new(*self.open.allocator(), false);
                scope.hold(name);
                self.reopen(scope)
            }
        }
    }

    /// Has the innermost scope hold a name, in the place of one that it holds, for a declarator of
    /// a kind, and answers whether: it is refused where that scope gives the name another kind. A
    /// refusal and want of memory leave the scopes as they were, and memory is wanted only where no
    /// scope is open. Constant time.
    pub fn hold(&mut self, name: NameId, kind: Kind) -> Result<bool, NoMemory>
        ensures held { Makes result (held.hold name kind self.old) self.new }
        ensures refused { IfOk result (λ done. done ≡ false → self.new ≡ self.old) }
        ensures err { OnErr result (self.new ≡ self.old) }
        ensures memory { OnErr result (self.old ≡ []) }
    {
        if !self.may_declare(name, kind) {
            return Ok(false);
        }
        self.hold_here(name)?;
        Ok(true)
    }

    /// Has the innermost scope give a name a kind; where none is open, one is opened. For want of
    /// memory the scopes stay as they were. Constant time but for growth.
    fn bind(&mut self, name: NameId, kind: Kind) -> Result<(), NoMemory>
        ensures bound { OnOk result
            (self.new ≡ bound name kind (held.innermost self.old) ∷ held.leave self.old) }
        ensures err { OnErr result (self.new ≡ self.old) }
    {
        match self.open.last_mut() {
            Some(scope) => {
                bind_in(scope, &mut self.names, name, kind)?;
                Ok(())
            }
            None => {
                let mut scope = Closed::new(*self.open.allocator(), false);
                scope.push(name, kind)?;
                self.reopen(scope)
            }
        }
    }

    /// Has the innermost scope give a name a kind, where it gives it none; where no scope is open,
    /// one is opened. For want of memory the scopes stay as they were. Constant time but for growth.
    fn add(&mut self, name: NameId, kind: Kind) -> Result<(), NoMemory>
        ensures added { OnOk result
            (self.new ≡ held.with_name (held.innermost self.old) name kind ∷ held.leave self.old) }
        ensures err { OnErr result (self.new ≡ self.old) }
    {
        match self.kind_here(name) {
            Some(_) => Ok(()),
            None => self.bind(name, kind),
        }
    }

    /// Has the innermost scope, if one is open, hold no name. Takes no memory, and constant time.
    fn let_go(&mut self)
        ensures { self.new ≡ without_held self.old }
    {
        let Some(scope) = self.open.last_mut() else {
            return;
        };
        scope.let_go();
    }

    /// Has the innermost scope let go the name that it holds, and declare it with a kind where it
    /// has none in that scope. Where no name is held nothing is done. For want of memory the scopes
    /// stay as they were. Constant time but for growth.
    pub fn release(&mut self, kind: Kind) -> Result<(), NoMemory>
        ensures released { OnOk result (self.new ≡ held.release kind self.old) }
        ensures err { OnErr result (self.new ≡ self.old) }
    {
        let Some(name) = self.held() else {
            return Ok(());
        };
        self.add(name, kind)?;
        self.let_go();
        Ok(())
    }

    /// Declares a name at once in the innermost scope, as an enumerator is (C99, 6.2.1, 7), and
    /// answers whether: it is refused where that scope holds the name or gives it another kind. A
    /// refusal and want of memory leave the scopes as they were. Constant time but for growth.
    pub fn declare(&mut self, name: NameId, kind: Kind) -> Result<bool, NoMemory>
        ensures declared { Makes result (held.declare name kind self.old) self.new }
        ensures refused { IfOk result (λ done. done ≡ false → self.new ≡ self.old) }
        ensures err { OnErr result (self.new ≡ self.old) }
    {
        if self.holds(name) || !self.may_declare(name, kind) {
            return Ok(false);
        }
        self.add(name, kind)?;
        Ok(true)
    }

    /// The name that the innermost scope holds. Takes no memory, and constant time.
    fn held(&self) -> Option<NameId>
        ensures { result ≡ (held.innermost self.now).held }
    {
        match self.open.last() {
            Some(scope) => scope.held(),
            None => None,
        }
    }

    /// Whether the innermost scope holds this name. Takes no memory, and constant time.
    pub fn holds(&self, name: NameId) -> bool
        ensures { result ≡ held.is_name (held.innermost self.now).held name }
    {
        match self.held() {
            Some(held) => held == name,
            None => false,
        }
    }

    /// The kind of a name, that of the innermost scope which declares it, or none where no open
    /// scope does. Takes no memory, and constant time.
    pub fn kind_of(&self, name: NameId) -> Option<Kind>
        ensures { result ≡ held.kind_of self.now name }
    {
        self.names.newest(name)
    }

    /// Whether a name is a typedef's (C99, 6.7.7). Takes no memory, and constant time.
    pub fn names_type(&self, name: NameId) -> bool
        ensures { result ≡ held.names_type self.now name }
    {
        match self.kind_of(name) {
            Some(Kind::Typedef) => true,
            Some(Kind::Value | Kind::Constant) | None => false,
        }
    }
}
