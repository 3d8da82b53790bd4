//! Scopes of names, one inside the other.

ghost use Rattle.std.specs.Prelude.{◌≡◌, ◌∷◌, [], ◌++◌, reverse, OnOk, OnErr};
ghost use Rattle.name_lists.specs.Newest.{newest, newest_through, innermost, outer_scopes};

use crate::list::NameList;
use qual_base::{NameId, NoMemory};
use std::alloc::Global;
use std::marker::Model;

/// The scopes that are open, each with names and what they stand for.
///
/// Clauses see the list of the scopes, the innermost first, each the list of its entries, the newest first. Memory is
/// linear in the entries and scopes that are open, with 4 bytes for each number of a name up to the highest that was
/// put there.
#[derive(Drop)]
pub struct NameScopes<V> {
    names: NameList<V>,
    counts: Vec<usize>,
}

impl<V> Model for NameScopes<V> {
    ghost use Rattle.std.specs.Prelude.{◌≡◌, List, ℕ, reverse, length};
    ghost use Rattle.name_lists.specs.Cut.{cut, total};

    ghost Value = { List (List (ℕ × V)) };

    ghost view = { λ s. cut (reverse s.counts.items) s.names };

    ghost invariant = { λ s. total (reverse s.counts.items) ≡ length s.names };
}

impl<V: Copy + Drop> NameScopes<V> {
    /// No open scope. Takes no memory.
    pub fn new(alloc: Global) -> Self
        ensures { result ≡ [] }
    {
        NameScopes {
            names: NameList::new(alloc),
            counts: Vec::new(alloc),
        }
    }

    /// Opens a scope without names inside the innermost. For want of memory the scopes stay as they were. Constant time
    /// but for growth.
    pub fn enter(&mut self) -> Result<(), NoMemory>
        ensures entered { OnOk result (self.new ≡ [] ∷ self.old) }
        ensures err { OnErr result (self.new ≡ self.old) }
    {
        self.counts.push(0)?;
        Ok(())
    }

    /// Closes the innermost scope, if one is open, and lets its names go. Takes no memory, and time linear in them.
    pub fn leave(&mut self)
        ensures { self.new ≡ outer_scopes self.old }
    {
        if let Some(count) = self.counts.pop() {
            self.names.take_back(count);
        }
    }

    /// Has the innermost scope say what a name stands for; where none is open, one is opened. For want of memory the
    /// scopes stay as they were. Constant time but for growth.
    pub fn bind(&mut self, name: NameId, value: V) -> Result<(), NoMemory>
        ensures bound { OnOk result
            (self.new ≡ ((name, value) ∷ innermost self.old) ∷ outer_scopes self.old) }
        ensures err { OnErr result (self.new ≡ self.old) }
    {
        self.names.push(name, value)?;
        let _all = self.names.len();
        match self.counts.last_mut() {
            Some(count) => {
                *count += 1;
                Ok(())
            }
            None => match self.counts.push(1) {
                Ok(()) => Ok(()),
                Err(_) => {
                    self.names.pop();
                    Err(NoMemory)
                }
            },
        }
    }

    /// Has the innermost scope say what names stand for, one after the other. Want of memory may leave it with some of
    /// them.
    fn bind_all(&mut self, entries: &[(NameId, V)]) -> Result<(), NoMemory>
        requires { self.old ≡ innermost self.old ∷ outer_scopes self.old }
        ensures bound { OnOk result
            (self.new ≡ (reverse entries.now ++ innermost self.old) ∷ outer_scopes self.old) }
        ensures err { OnErr result (outer_scopes self.new ≡ outer_scopes self.old) }
    {
        for it in entries {
            self.bind(it.0, it.1)?;
        }
        Ok(())
    }

    /// Opens a scope inside the innermost, with these names, the oldest first. For want of memory the scopes stay as
    /// they were. Linear in the names.
    pub fn reopen(&mut self, entries: &[(NameId, V)]) -> Result<(), NoMemory>
        ensures reopened { OnOk result (self.new ≡ reverse entries.now ∷ self.old) }
        ensures err { OnErr result (self.new ≡ self.old) }
    {
        self.enter()?;
        match self.bind_all(entries) {
            Ok(()) => Ok(()),
            Err(NoMemory) => {
                self.leave();
                Err(NoMemory)
            }
        }
    }

    /// What the innermost scope says of a name. Takes no memory, and constant time.
    pub fn newest_here(&self, name: NameId) -> Option<V>
        ensures { result ≡ newest (innermost self.now) name }
    {
        match self.counts.last() {
            Some(count) => self.names.get_among(*count, name),
            None => None,
        }
    }

    /// What a name stands for in the innermost scope that says so. Takes no memory, and constant time.
    pub fn newest(&self, name: NameId) -> Option<V>
        ensures { result ≡ newest_through self.now name }
    {
        self.names.get(name)
    }
}
