//! Where the constraints of a graph begin and end.

ghost use Rattle.std.specs.Prelude.{◌≡◌, IfOk};
ghost use Rattle.flow_graph.specs.Index.{AreBeginnings, IsIndexOf};
ghost use Rattle.flow_graph.specs.Rows.{row_in};

use crate::graph::FlowGraph;
use crate::rows::{Key, Rows};
use qual_base::{EdgeId, NoMemory, Numbered, SiteId, VarId};
use std::alloc::Global;
use std::marker::Model;

/// For each variable the constraints that begin at it and those that lead to it, for each call site its calls and returns.
#[derive(Drop)]
pub struct Adjacency {
    out: Rows,
    into: Rows,
    of_site: Rows,
}

impl Model for Adjacency {
    ghost use Rattle.flow_graph.specs.Index.{Lists};

    ghost Value = { Lists };

    ghost view = { λ a. record { out = a.out; into = a.into; of_site = a.of_site } };
}

impl Adjacency {
    /// Counting sorts, stable and linear in the constraints, the variables and the sites. Memory: at most 12 bytes a
    /// constraint, 8 a variable and 4 a site, and while one list is made 4 more a variable or a site.
    pub fn build(alloc: Global, graph: &FlowGraph) -> Result<Adjacency, NoMemory>
        ensures { IfOk result (IsIndexOf graph.now) }
    {
        let out = Rows::by_key(alloc, graph, Key::Begin)?;
        let into = Rows::by_key(alloc, graph, Key::LeadsTo)?;
        let of_site = Rows::by_key(alloc, graph, Key::AtSite)?;
        Ok(Adjacency { out, into, of_site })
    }

    /// The constraints that begin at a variable, ascending; a bound begins at its variable, a constant nowhere. Constant time.
    pub fn out(&self, at: VarId) -> &[EdgeId]
        ensures { result.now ≡ row_in self.now.out at }
    {
        self.out.get(at.number())
    }

    /// The constraints that lead to a variable, ascending; a constant leads to its variable, a bound nowhere. Constant time.
    pub fn into(&self, at: VarId) -> &[EdgeId]
        ensures { result.now ≡ row_in self.now.into at }
    {
        self.into.get(at.number())
    }

    /// The `Enter`s and `Leave`s of a site, ascending. Constant time.
    pub fn of_site(&self, at: SiteId) -> &[EdgeId]
        ensures { result.now ≡ row_in self.now.of_site at }
    {
        self.of_site.get(at.number())
    }
}

/// For each variable the constraints that begin at it: what a check of a certificate asks of an `Adjacency`, at a third of its cost.
#[derive(Drop)]
pub struct Beginnings {
    out: Rows,
}

impl Model for Beginnings {
    ghost use Rattle.flow_graph.specs.Rows.{Table};

    ghost Value = { Table };

    ghost view = { λ b. b.out };
}

impl Beginnings {
    /// A counting sort, stable and linear in the constraints and the variables. Memory: at most 4 bytes a constraint and 4 a
    /// variable, and while the list is made 4 more a variable.
    pub fn build(alloc: Global, graph: &FlowGraph) -> Result<Beginnings, NoMemory>
        ensures { IfOk result (AreBeginnings graph.now) }
    {
        let out = Rows::by_key(alloc, graph, Key::Begin)?;
        Ok(Beginnings { out })
    }

    /// The constraints that begin at a variable, ascending; a bound begins at its variable, a constant nowhere. Constant time.
    pub fn out(&self, at: VarId) -> &[EdgeId]
        ensures { result.now ≡ row_in self.now at }
    {
        self.out.get(at.number())
    }
}
