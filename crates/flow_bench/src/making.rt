//! Systems of constraints of the kinds that there are.

ghost use Rattle.std.specs.Prelude.{◌<◌, ◌^◌, ◌↔◌, IsTrue, IfOk};
ghost use Rattle.flow_graph.specs.System.{IsWithin};

use crate::calls::{add_chain, add_reversed, add_ring};
use crate::failure::Failure;
use crate::fan::add_fan;
use crate::random::add_random;
use crate::wide::add_wide;
use crate::words::Kind;
use flow_graph::{Constraint, FlowGraph, Link, Site};
use qual_base::{Elem, FuncId, LatticeNo, Numbered, Owner, SiteId, Span, TokenId, UnitNo, VarId};
use std::alloc::Global;

/// The greatest size.
pub const MOST: u32 = 1_000_000;

/// A system of a kind and a size. Time and memory are linear in its constraints: about two for each call of a chain or a
/// ring, a hundred for each caller of a fan, four for each parameter of a wide call, and as many as the size in a random
/// system.
pub fn make(alloc: Global, kind: Kind, size: u32) -> Result<FlowGraph, Failure> {
    if size > MOST {
        return Err(Failure::Unfit);
    }
    let mut graph = FlowGraph::new(alloc);
    match kind {
        Kind::Chain => add_chain(&mut graph, size)?,
        Kind::Reversed => add_reversed(&mut graph, size)?,
        Kind::Ring => add_ring(&mut graph, size)?,
        Kind::Fan => add_fan(&mut graph, size)?,
        Kind::Wide => add_wide(&mut graph, size)?,
        Kind::Random => add_random(&mut graph, size)?,
    }
    Ok(graph)
}

/// Whether a variable is below the limit.
fn is_var(at: VarId) -> bool
    ensures { IsTrue result ↔ (at < 2 ^ 24) }
{
    at.number() < 16_777_216
}

/// Whether an element of a lattice is below the limits.
fn is_elem(lattice: LatticeNo, elem: Elem) -> bool
    ensures { IsTrue result ↔ ((lattice < 16) × (elem < 64)) }
{
    lattice.number() < 16 && elem.number() < 64
}

/// The link, where its numbers are below their limits.
fn within(sites: u32, link: Link) -> Result<Link, Failure>
    ensures { IfOk result (IsWithin sites) }
{
    match link {
        Link::Le(from, to) if is_var(from) && is_var(to) => Ok(link),
        Link::Const(lattice, elem, at) if is_elem(lattice, elem) && is_var(at) => Ok(link),
        Link::Bound(at, lattice, elem) if is_elem(lattice, elem) && is_var(at) => Ok(link),
        Link::Enter(site, from, to) if site.number() < sites && (is_var(from) && is_var(to)) => {
            Ok(link)
        }
        Link::Leave(site, from, to) if site.number() < sites && (is_var(from) && is_var(to)) => {
            Ok(link)
        }
        _ => Err(Failure::Unfit),
    }
}

/// Adds a constraint of the first lattice.
pub fn add(graph: &mut FlowGraph, link: Link) -> Result<(), Failure> {
    let link = within(graph.sites(), link)?;
    graph.add(Constraint {
        link,
        lattices: 1,
        span: Span {
            unit: UnitNo::new(1),
            from: TokenId::new(0),
            to: TokenId::new(0),
        },
    })?;
    Ok(())
}

/// Adds a call site.
pub fn add_site(graph: &mut FlowGraph, owner: u32, target: u32) -> Result<(), Failure> {
    if graph.sites() > MOST {
        return Err(Failure::Unfit);
    }
    graph.add_site(Site {
        unit: UnitNo::new(1),
        token: TokenId::new(0),
        target: FuncId::new(target),
        owner: Owner::Function(FuncId::new(owner)),
    })?;
    Ok(())
}

/// Gives variables to a function: so many, from one on.
pub fn own(graph: &mut FlowGraph, function: u32, from: u32, count: u32) -> Result<(), Failure> {
    for n in 0..count {
        let at = VarId::new(from.wrapping_add(n));
        if !is_var(at) {
            return Err(Failure::Unfit);
        }
        graph.set_owner(at, Owner::Function(FuncId::new(function)))?;
    }
    Ok(())
}

pub fn le(from: u32, to: u32) -> Link {
    Link::Le(VarId::new(from), VarId::new(to))
}

pub fn enter(site: u32, from: u32, to: u32) -> Link {
    Link::Enter(SiteId::new(site), VarId::new(from), VarId::new(to))
}

pub fn leave(site: u32, from: u32, to: u32) -> Link {
    Link::Leave(SiteId::new(site), VarId::new(from), VarId::new(to))
}

/// The greater element at a variable.
pub fn constant(at: u32) -> Link {
    Link::Const(LatticeNo::new(0), Elem::new(1), VarId::new(at))
}

/// The lesser element above a variable.
pub fn bound(at: u32) -> Link {
    Link::Bound(VarId::new(at), LatticeNo::new(0), Elem::new(0))
}
