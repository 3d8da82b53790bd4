//! The `Enter`s and `Leave`s of a graph, found by their site and the variable at their inner end.

ghost use Rattle.std.specs.Prelude.{◌≡◌, ◌↔◌, ◌<◌, ◌^◌, ℕ, IsTrue, IfOk, length};
ghost use Rattle.match_summary.specs.declared.crossings.Way.TheVariants.{In, Out};
ghost use Rattle.match_summary.specs.Chained.{IsLink, link_of};
ghost use Rattle.match_summary.specs.Crossings.{AreCrossings, Crosses, HasEnd, IsLastCrossing};
ghost use Rattle.match_summary.specs.Crossings.{bucket_at, bucket_in, buckets_in};

use crate::buckets::hash;
use crate::chains::Chains;
use flow_graph::{FlowGraph, Link};
use qual_base::{EdgeId, NoMemory, Numbered, SiteId, VarId};
use std::alloc::Global;

/// Into a function, by an `Enter`, or out of it, by a `Leave`.
#[derive(Clone, Copy, PartialEq, Eq, Debug)]
pub enum Way {
    In,
    Out,
}

/// The inner end of a call or a return: its site, and the variable of the function that is called there.
#[derive(Clone, Copy, PartialEq, Eq, Debug)]
pub struct InnerEnd {
    pub way: Way,
    pub site: SiteId,
    pub at: VarId,
}

/// For each bucket the chain of the constraints whose inner end has its hash: two buckets for two constraints.
#[derive(Drop)]
pub struct Crossings {
    count: u32,
    chains: Chains,
}

impl Crossings {
    /// The `Enter`s and `Leave`s of a graph. Linear in the constraints, 8 bytes for each.
    pub fn build(alloc: Global, graph: &FlowGraph) -> Result<Crossings, NoMemory>
        ensures { IfOk result (AreCrossings graph.now) }
    {
        graph.law();
        let count = graph.len() / 2 + 1;
        let mut chains = Chains::sized(alloc, 2 * count + 1, graph.len())?;
        for n in 0..graph.len() {
            let constraint = graph.constraint(EdgeId::new(n));
            chains.push(bucket(count, constraint.link))?;
        }
        Ok(Crossings { count, chains })
    }

    /// The last constraint with an inner end. Takes no memory, and constant time but for inner ends with one hash.
    pub fn newest(&self, graph: &FlowGraph, end: &InnerEnd) -> Option<EdgeId>
        requires { AreCrossings graph.now self.now }
        ensures { IsLastCrossing graph.now end.now (length graph.now.constraints) (link_of result) }
    {
        let bucket = bucket_of(self.count, end);
        self.walk(graph, end, self.chains.newest(bucket))
    }

    /// The last constraint before another that has the same inner end. Takes no memory, and constant time but for inner
    /// ends with one hash.
    pub fn before(&self, graph: &FlowGraph, end: &InnerEnd, at: EdgeId) -> Option<EdgeId>
        requires crossings { AreCrossings graph.now self.now }
        requires at { Crosses graph.now end.now at }
        ensures { IsLastCrossing graph.now end.now at (link_of result) }
    {
        self.walk(graph, end, self.chains.before(at.number() as usize))
    }

    /// The first constraint of a chain, from a place on, that has an inner end.
    fn walk(&self, graph: &FlowGraph, end: &InnerEnd, from: Option<usize>) -> Option<EdgeId>
        requires crossings { AreCrossings graph.now self.now }
        requires from { (bound : ℕ) × IsLink (buckets_in self.now.count graph.now.constraints)
            (bucket_at self.now.count end.now.way end.now.site end.now.at) bound (link_of from) }
        ensures { (bound : ℕ) → IsLink (buckets_in self.now.count graph.now.constraints)
            (bucket_at self.now.count end.now.way end.now.site end.now.at) bound (link_of from) →
            IsLastCrossing graph.now end.now bound (link_of result) }
    {
        graph.law();
        let mut next = from;
        while let Some(at) = next {
            let edge = EdgeId::new(at as u32);
            let constraint = graph.constraint(edge);
            if has_end(constraint.link, end) {
                return Some(edge);
            }
            next = self.chains.before(at);
        }
        None
    }
}

/// Whether a link has an inner end.
fn has_end(link: Link, end: &InnerEnd) -> bool
    ensures { IsTrue result ↔ HasEnd end.now.way end.now.site end.now.at link }
{
    let way = end.way;
    match way {
        Way::In => enters(link, end.site, end.at),
        Way::Out => leaves(link, end.site, end.at),
    }
}

/// Whether a link enters a site to a variable.
fn enters(link: Link, site: SiteId, at: VarId) -> bool
    ensures { IsTrue result ↔ HasEnd In site at link }
{
    match link {
        Link::Le(_, _) => false,
        Link::Const(_, _, _) => false,
        Link::Bound(_, _, _) => false,
        Link::Enter(one, _, to) => one == site && to == at,
        Link::Leave(_, _, _) => false,
    }
}

/// Whether a link leaves a site from a variable.
fn leaves(link: Link, site: SiteId, at: VarId) -> bool
    ensures { IsTrue result ↔ HasEnd Out site at link }
{
    match link {
        Link::Le(_, _) => false,
        Link::Const(_, _, _) => false,
        Link::Bound(_, _, _) => false,
        Link::Enter(_, _, _) => false,
        Link::Leave(one, from, _) => one == site && from == at,
    }
}

/// The bucket of an inner end.
fn bucket_of(count: u32, end: &InnerEnd) -> u32
    requires some { 0 < count }
    requires few { count < 2 ^ 31 }
    ensures { result ≡ bucket_at count end.now.way end.now.site end.now.at }
{
    let way = end.way;
    let place = hash(end.site.number(), end.at.number()) % count;
    match way {
        Way::In => place,
        Way::Out => count + place,
    }
}

/// The bucket of a link.
fn bucket(count: u32, link: Link) -> u32
    requires some { 0 < count }
    requires few { count < 2 ^ 31 }
    ensures { result ≡ bucket_in count link }
{
    match link {
        Link::Le(_, _) => 2 * count,
        Link::Const(_, _, _) => 2 * count,
        Link::Bound(_, _, _) => 2 * count,
        Link::Enter(site, _, to) => hash(site.number(), to.number()) % count,
        Link::Leave(site, from, _) => count + hash(site.number(), from.number()) % count,
    }
}
