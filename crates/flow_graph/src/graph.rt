//! The list of constraints, the call sites, and who owns each variable.

ghost use Rattle.std.specs.Prelude.{◌≡◌, ◌<◌, ◌≤◌, ◌-◌, ◌^◌, [], ◌∷◌, ◌++◌, Some, length};
ghost use Rattle.std.specs.Prelude.{slice_get, IfOk, OnErr, OnOk, IsErrOf, ◌↔◌};
ghost use Rattle.flow_graph.specs.System.{owner_of, vars_of, AllBelow, AllWithin, IsWithin};
ghost use Rattle.flow_graph.specs.System.{SetsOwner};

use crate::constraint::{Constraint, Link, Site};
use crate::owners::Owners;
use qual_base::{EdgeId, NoMemory, Numbered, Owner, SiteId, VarId};
use std::alloc::Global;
use std::marker::Model;
use thiserror::Error;

/// Want of memory, or as many constraints as a graph may hold.
#[derive(Clone, Copy, PartialEq, Eq, Debug, Error)]
pub enum GraphFault {
    #[error("too many constraints")]
    TooMany,
    #[error("no memory")]
    NoMemory,
}

/// The number of constraints that a graph may hold.
pub const MOST_CONSTRAINTS: u32 = 67_108_864;

/// Constraints in the order in which they were added, call sites likewise, and the owner of each variable.
#[derive(Drop)]
pub struct FlowGraph {
    constraints: Vec<Constraint>,
    sites: Vec<Site>,
    owners: Owners,
    highest: u32,
}

impl Model for FlowGraph {
    ghost use Rattle.std.specs.Prelude.{◌≡◌, ◌≤◌, ◌-◌, ◌^◌, length};
    ghost use Rattle.flow_graph.specs.System.{System, highest};

    ghost Value = { System };

    ghost use Rattle.flow_graph.specs.Held.{IsHeld, system_of};

    ghost view = { system_of };

    ghost invariant = { IsHeld };
}

impl FlowGraph {
    /// An empty graph. Takes no memory.
    pub fn new(alloc: Global) -> Self
        ensures constraints { result.constraints ≡ [] }
        ensures sites { result.sites ≡ [] }
        ensures owners { result.owners ≡ [] }
    {
        FlowGraph {
            constraints: Vec::new(alloc),
            sites: Vec::new(alloc),
            owners: Owners::new(alloc),
            highest: 0,
        }
    }

    /// Makes room for so many constraints more, where there is memory for them; where there is none, each takes its own as it
    /// comes. Constant time, and no page of the room is touched.
    pub fn reserve(&mut self, constraints: u32)
        ensures { self.new ≡ self.old }
    {
        let _ = self.constraints.reserve(constraints as usize);
    }

    /// Adds a call site. Constant time but for growth.
    pub fn add_site(&mut self, site: Site) -> Result<SiteId, NoMemory>
        requires { length self.old.sites < 2 ^ 32 - 1 }
        ensures number { IfOk result (λ at. at ≡ length self.old.sites) }
        ensures ok { OnOk result
            (self.new ≡ record self.old { sites = self.old.sites ++ site ∷ [] }) }
        ensures err { OnErr result (self.new ≡ self.old) }
    {
        let at = self.sites.len() as u32;
        // The borrow checker has to see the type of the owner.
        let owner = site.owner;
        match self.sites.push(Site { owner, ..site }) {
            Ok(()) => {}
            Err(_) => return Err(NoMemory),
        }
        Ok(SiteId::new(at))
    }

    /// Sets the owner of a variable. Constant time but for growth: the table of owners has as many places as the highest
    /// variable whose owner was set, of four bytes each. A function's number is below 2^32 - 1, or there is no memory for it.
    pub fn set_owner(&mut self, at: VarId, owner: Owner) -> Result<(), NoMemory>
        requires { at < 2 ^ 24 }
        ensures ok { OnOk result (SetsOwner self.old self.new at owner) }
        ensures err { OnErr result (self.new ≡ self.old) }
    {
        self.owners.set(at.number() as usize, owner)
    }

    /// Adds a constraint. Constant time but for growth.
    pub fn add(&mut self, constraint: Constraint) -> Result<EdgeId, GraphFault>
        requires { IsWithin (length self.old.sites) constraint.link }
        ensures number { IfOk result (λ at. at ≡ length self.old.constraints) }
        ensures ok { OnOk result
            (self.new ≡ record self.old { constraints = self.old.constraints ++ constraint ∷ [] }) }
        ensures err { OnErr result (self.new ≡ self.old) }
        ensures too_many { IsErrOf result GraphFault.TooMany
            ↔ (length self.old.constraints ≡ MOST_CONSTRAINTS) }
    {
        let at = self.constraints.len() as u32;
        if at == MOST_CONSTRAINTS {
            return Err(GraphFault::TooMany);
        }
        let highest = self.highest.max(vars_of_link(constraint.link));
        match self.constraints.push(constraint) {
            Ok(()) => {
                self.highest = highest;
                Ok(EdgeId::new(at))
            }
            Err(_) => Err(GraphFault::NoMemory),
        }
    }

    /// What is true of every graph. It does nothing.
    pub fn law(&self)
        ensures few { length self.now.constraints ≤ MOST_CONSTRAINTS }
        ensures within { AllWithin self.now }
    {
        let _ = &self.constraints;
    }

    /// How many constraints there are.
    pub fn len(&self) -> u32
        ensures length { result ≡ length self.now.constraints }
        ensures within { AllWithin self.now }
    {
        self.constraints.len() as u32
    }

    pub fn constraint(&self, at: EdgeId) -> Constraint
        requires { at < length self.now.constraints }
        ensures there { slice_get self.now.constraints at ≡ Some result }
        ensures within { IsWithin (length self.now.sites) result.link }
    {
        self.constraints[at.number() as usize]
    }

    /// How many call sites there are.
    pub fn sites(&self) -> u32
        ensures { result ≡ length self.now.sites }
    {
        self.sites.len() as u32
    }

    pub fn site(&self, at: SiteId) -> Site
        requires { at < length self.now.sites }
        ensures { slice_get self.now.sites at ≡ Some result }
    {
        self.sites[at.number() as usize]
    }

    /// The owner that was set last, else nobody. Any variable is taken.
    pub fn owner(&self, at: VarId) -> Owner
        ensures { result ≡ owner_of self.now at }
    {
        self.owners.get(at.number() as usize)
    }

    /// One more than the highest variable number in a constraint or in a `set_owner`, and 0 where there is none.
    pub fn vars(&self) -> u32
        ensures value { result ≡ vars_of self.now }
        ensures above { AllBelow self.now result }
        ensures limit { result ≤ 2 ^ 24 }
    {
        self.highest.max(self.owners.len() as u32)
    }
}

/// One more than the highest variable number of a link.
fn vars_of_link(link: Link) -> u32
    requires { Rattle.flow_graph.specs.System.vars_of_link link ≤ 2 ^ 24 }
    ensures { result ≡ Rattle.flow_graph.specs.System.vars_of_link link }
{
    match link {
        Link::Le(from, to) => from.number().max(to.number()) + 1,
        Link::Const(_, _, at) => at.number() + 1,
        Link::Bound(at, _, _) => at.number() + 1,
        Link::Enter(_, from, to) => from.number().max(to.number()) + 1,
        Link::Leave(_, from, to) => from.number().max(to.number()) + 1,
    }
}
