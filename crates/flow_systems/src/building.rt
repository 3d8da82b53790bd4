//! The graph and the lattices of a system.

ghost use Rattle.std.specs.Prelude.{◌<◌, ℕ};
ghost use Rattle.flow_graph.specs.System.{IsWithin};

use crate::case::{Case, PlainLink, Shape};
use flow_graph::{Constraint, FlowGraph, Link, Site};
use lattice_core::{Deref, Entry, Lattice, Lattices, Level, Name, Pair, Sign};
use qual_base::{Elem, FuncId, LatticeNo, Numbered, Owner, SiteId, Span, TokenId, UnitNo, VarId};
use std::alloc::{AllocError, Global};
use std::process::Abort;
use std::test::Fail;

/// The owner of a number.
fn owner_of(number: Option<u32>) -> Owner {
    match number {
        Some(f) => Owner::Function(FuncId::new(f)),
        None => Owner::Nobody,
    }
}

/// A variable, of which there are few.
fn var(rt: &impl Abort, number: u32) -> VarId
    ensures { result < 1000 }
{
    assert!(rt; number < 1000);
    VarId::new(number)
}

/// An element of one of the lattices that there may be.
fn elem(rt: &impl Abort, lattice: u8, elem: u8) -> (LatticeNo, Elem)
    ensures lattice { result.0 < 16 }
    ensures elem { result.1 < 64 }
{
    assert!(rt; lattice < 16);
    assert!(rt; elem < 64);
    (LatticeNo::new(lattice), Elem::new(elem))
}

/// A constant.
fn const_of(rt: &impl Abort, lattice: u8, e: u8, v: u32) -> Link
    ensures { (sites : ℕ) → IsWithin sites result }
{
    let (lattice, e) = elem(rt, lattice, e);
    Link::Const(lattice, e, var(rt, v))
}

/// A bound.
fn bound_of(rt: &impl Abort, v: u32, lattice: u8, e: u8) -> Link
    ensures { (sites : ℕ) → IsWithin sites result }
{
    let (lattice, e) = elem(rt, lattice, e);
    Link::Bound(var(rt, v), lattice, e)
}

/// The link of a row.
fn link_of(rt: &impl Abort, row: PlainLink, sites: u32) -> Link
    ensures { IsWithin sites result }
{
    match row {
        PlainLink::Le(u, v) => Link::Le(var(rt, u), var(rt, v)),
        PlainLink::Const(e, v) => const_of(rt, 0, e, v),
        PlainLink::ConstIn(lattice, e, v) => const_of(rt, lattice, e, v),
        PlainLink::Bound(v, e) => bound_of(rt, v, 0, e),
        PlainLink::BoundIn(v, lattice, e) => bound_of(rt, v, lattice, e),
        PlainLink::Enter(s, u, v) => {
            assert!(rt; s < sites);
            Link::Enter(SiteId::new(s), var(rt, u), var(rt, v))
        }
        PlainLink::Leave(s, u, v) => {
            assert!(rt; s < sites);
            Link::Leave(SiteId::new(s), var(rt, u), var(rt, v))
        }
    }
}

/// The graph of a system.
pub fn graph_of(rt: &impl Abort, alloc: Global, case: &Case) -> Result<FlowGraph, Fail> {
    let mut graph = FlowGraph::new(alloc);
    for (v, owner) in case.owners.iter().enumerate() {
        assert!(rt; v < 1000);
        graph.set_owner(VarId::new(v as u32), owner_of(*owner))?;
    }
    for (target, owner) in case.sites {
        assert!(rt; graph.sites() < 1000);
        graph.add_site(Site {
            unit: UnitNo::new(1),
            token: TokenId::new(0),
            target: FuncId::new(*target),
            owner: owner_of(*owner),
        })?;
    }
    for (n, row) in case.rows.iter().enumerate() {
        let link = link_of(rt, *row, graph.sites());
        graph.add(Constraint {
            link,
            lattices: case.masks.get(n).copied().unwrap_or(1),
            span: Span {
                unit: UnitNo::new(1),
                from: TokenId::new(0),
                to: TokenId::new(0),
            },
        })?;
    }
    Ok(graph)
}

/// A name of one letter.
fn letter(alloc: Global, number: u8) -> Result<Name, AllocError> {
    Ok(Name::new(vec![in alloc; number]?))
}

/// The lattice of a shape.
fn lattice_of(rt: &impl Abort, alloc: Global, shape: &Shape) -> Result<Lattice, Fail> {
    let mut entries = Vec::new(alloc);
    for n in 0..shape.count {
        entries.push(Entry {
            name: letter(alloc, n)?,
            level: Level::Value,
            sign: Sign::Eq,
            write: false,
            deref: Deref::No,
        })?;
    }
    let mut pairs = Vec::new(alloc);
    for (low, high) in shape.pairs {
        pairs.push(Pair {
            low: letter(alloc, *low)?,
            high: letter(alloc, *high)?,
        })?;
    }
    assert!(rt; !entries.is_empty());
    Ok(Lattice::build(alloc, entries, pairs.as_slice())?)
}

/// The lattices of a system.
pub fn lattices_of(rt: &impl Abort, alloc: Global, case: &Case) -> Result<Lattices, Fail> {
    let mut lattices = Lattices::new(alloc);
    for shape in case.shapes {
        assert!(rt; lattices.len() < 16);
        lattices.push(lattice_of(rt, alloc, shape)?)?;
    }
    Ok(lattices)
}
