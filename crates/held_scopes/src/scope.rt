//! One scope: the names that it declares, and the name that it holds.

ghost use Rattle.std.specs.Prelude.{◌≡◌, drop, reverse, None, OnOk, OnErr};
ghost use Rattle.c_units.specs.HeldScopes.{new_scope};
ghost use Rattle.held_scopes.specs.Changed.{bound, holding};

use qual_base::{NameId, NoMemory};
use std::alloc::Global;
use std::marker::Model;
use typedef_scope::Kind;

/// A scope that was closed, and can be opened again: its names with their kinds, and the name that
/// it holds.
///
/// Memory is linear in its names.
#[derive(Drop)]
pub struct Closed {
    names: Vec<(NameId, Kind)>,
    held: Option<NameId>,
    wide: bool,
}

impl Model for Closed {
    ghost use Rattle.std.specs.Prelude.{reverse};
    ghost use Rattle.c_units.specs.HeldScopes.{HeldScope};

    ghost Value = { HeldScope };

    ghost view = { λ s. record {
      names = reverse s.names.items;
      held = s.held;
      wide = s.wide;
    } };
}

impl Closed {
    /// A scope without names, of a unit that is read as wider C or not. Takes no memory.
    pub(crate) fn new(alloc: Global, wide: bool) -> Self
        ensures { result ≡ new_scope wide }
    {
        Closed {
            names: Vec::new(alloc),
            held: None,
            wide,
        }
    }

    /// The names with their kinds, the oldest first. Constant time.
    pub(crate) fn names(&self) -> &[(NameId, Kind)]
        ensures { reverse result.now ≡ self.now.names }
    {
        self.names.as_slice()
    }

    /// Whether its unit is read as wider C.
    pub(crate) fn is_wide(&self) -> bool
        ensures { result ≡ self.now.wide }
    {
        self.wide
    }

    /// The name that the scope holds.
    pub(crate) fn held(&self) -> Option<NameId>
        ensures { result ≡ self.now.held }
    {
        self.held
    }

    /// Has the scope hold this name alone.
    pub(crate) fn hold(&mut self, name: NameId)
        ensures { self.new ≡ holding name self.old }
    {
        self.held = Some(name);
    }

    /// Has the scope hold no name.
    pub(crate) fn let_go(&mut self)
        ensures { self.new ≡ record self.old { held = None } }
    {
        self.held = None;
    }

    /// Gives one more name a kind. For want of memory the scope stays as it was. Constant time but
    /// for growth.
    pub(crate) fn push(&mut self, name: NameId, kind: Kind) -> Result<(), NoMemory>
        ensures bound { OnOk result (self.new ≡ bound name kind self.old) }
        ensures err { OnErr result (self.new ≡ self.old) }
    {
        self.names.push((name, kind))?;
        Ok(())
    }

    /// Takes the newest name back, if there is one. Takes no memory, and constant time.
    pub(crate) fn pop(&mut self)
        ensures { self.new ≡ record self.old { names = drop 1 self.old.names } }
    {
        let _newest = self.names.pop();
    }
}
