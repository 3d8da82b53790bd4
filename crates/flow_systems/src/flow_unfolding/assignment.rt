//! Assignments of elements to copies of variables.

ghost use Rattle.std.specs.Prelude.{◌≡◌, ℕ, ◌<◌, List, true, [], IfOk, OnOk, MatchBool, cond};
ghost use Rattle.lattice_core.specs.Order.{size, leq};
ghost use Rattle.flow_systems.specs.FlowUnfolding.Assignment.{map_of, changed, is_same, Raises};

use crate::flow_unfolding::strings::{CallString, string_of};
use lattice_core::Lattice;
use qual_base::{Elem, NoMemory, SiteId, VarId};
use std::alloc::Global;

/// An element that a copy of a variable was given.
#[derive(Drop)]
pub struct Change {
    pub at: VarId,
    pub sites: CallString,
    pub elem: Elem,
}

impl Change {
    /// The element that was given, at its own copy, and another one elsewhere.
    fn element_or(&self, at: VarId, sites: &[SiteId], other: Elem) -> Elem
        ensures { result
            ≡ cond (is_same self.now.at self.now.sites at sites.now) self.now.elem other }
    {
        if self.at == at && self.sites.sites() == sites {
            self.elem
        } else {
            other
        }
    }
}

/// An element for each copy of each variable: the one that it was given last, or else the one at the start.
#[derive(Drop)]
pub struct Assignment {
    pub start: Elem,
    pub changes: Vec<Change>,
}

impl Assignment {
    /// One element everywhere. Takes no memory.
    pub fn new(alloc: Global, start: Elem) -> Self
        ensures { (v : ℕ) (w : List ℕ) → map_of result v w ≡ start }
    {
        Assignment {
            start,
            changes: Vec::new(alloc),
        }
    }

    /// The element of a copy of a variable. Takes a step for each change.
    pub fn get(&self, at: VarId, sites: &[SiteId]) -> Elem
        ensures { result ≡ map_of self.now at sites.now }
    {
        let mut elem = self.start;
        for change in &self.changes {
            elem = change.element_or(at, sites, elem);
        }
        elem
    }

    /// Gives an element to a copy of a variable.
    fn set(
        &mut self,
        alloc: Global,
        at: VarId,
        sites: &[SiteId],
        elem: Elem,
    ) -> Result<(), NoMemory>
        ensures { OnOk result ((v : ℕ) (w : List ℕ) →
            map_of self.new v w ≡ changed (map_of self.old) at sites.now elem v w) }
    {
        let sites = string_of(alloc, sites)?;
        self.changes.push(Change { at, sites, elem })?;
        Ok(())
    }

    /// Raises a copy of a variable to an element, and says whether it was not at or above it.
    pub fn raise(
        &mut self,
        alloc: Global,
        lattice: &Lattice,
        at: VarId,
        sites: &[SiteId],
        elem: Elem,
    ) -> Result<bool, NoMemory>
        requires elem { elem < size lattice.now.order }
        requires held { map_of self.old at sites.now < size lattice.now.order }
        ensures { IfOk result (λ grew. MatchBool grew (Raises lattice.now.order
            (map_of self.old) (map_of self.new) at sites.now elem) ((self.new ≡ self.old)
            × (leq lattice.now.order elem (map_of self.old at sites.now) ≡ true))) }
    {
        let held = self.get(at, sites);
        if lattice.leq(elem, held) {
            return Ok(false);
        }
        self.set(alloc, at, sites, lattice.join(held, elem))?;
        Ok(true)
    }
}
