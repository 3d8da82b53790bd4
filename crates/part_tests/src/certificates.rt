//! Worked systems, each with certificates that hold and that do not.

ghost use Rattle.std.specs.Prelude.{◌<◌, ◌^◌};
ghost use Rattle.flow_graph.specs.System.{IsWithin};

use crate::needed_parts::{Case, NEEDED, PlainLink, Sets};
use certificate_laws::CertRule;
use closure_check::{CheckIndex, Part, check_part, is_part};
use flow_graph::{Constraint, FlowGraph, Link, Site, names_elements};
use lattice_core::{Deref, Entry, Lattice, Level, Name, Pair, Sign};
use qual_base::{
    Elem, ElemSet, FuncId, LatticeNo, Numbered, Owner, SiteId, Span, TokenId, UnitNo, VarId,
};
use std::alloc::{AllocError, Global};
use std::process::Abort;
use std::test::Fail;

#[test]
fn each_rule_is_asked(rt: HostRuntime) -> Result<(), Fail> {
    let alloc = rt.alloc();
    for case in &NEEDED {
        let name = case.name;
        assert!(rt;
            judged(&rt, alloc, case, 0, &case.without)? == Err(case.rule),
            "{name}"
        );
        assert!(rt;
            judged(&rt, alloc, case, 0, &case.whole)? == Err(CertRule::A9),
            "{name}"
        );
        assert!(rt; judged(&rt, alloc, case, 1, &case.whole)?.is_ok(), "{name}");
    }
    Ok(())
}

/// What is found of a certificate of a system whose bounds are an element.
fn judged(
    rt: &impl Abort,
    alloc: Global,
    case: &Case,
    limit: u8,
    sets: &Sets,
) -> Result<Result<(), CertRule>, Fail> {
    let graph = graph_of(rt, alloc, case, limit)?;
    let index = CheckIndex::build(alloc, &graph)?;
    let lattice = two(rt, alloc)?;
    let part = part_of(alloc, sets)?;
    let at = LatticeNo::new(0);
    assert!(rt; names_elements(&graph, at, &lattice));
    assert!(rt; is_part(&graph, &lattice, &part));
    Ok(check_part(&graph, &index, &lattice, at, &part))
}

/// A variable, of which there are few.
fn var(rt: &impl Abort, number: u32) -> VarId
    ensures { result < 2 ^ 24 }
{
    assert!(rt; number < 1000);
    VarId::new(number)
}

/// The owner of a number.
fn owner_of(number: Option<u32>) -> Owner {
    match number {
        Some(f) => Owner::Function(FuncId::new(f)),
        None => Owner::Nobody,
    }
}

/// The link of a row.
fn link_of(rt: &impl Abort, row: PlainLink, limit: u8, sites: u32) -> Link
    ensures { IsWithin sites result }
{
    let lattice = LatticeNo::new(0);
    match row {
        PlainLink::Le(u, v) => Link::Le(var(rt, u), var(rt, v)),
        PlainLink::Const(v) => Link::Const(lattice, Elem::new(1), var(rt, v)),
        PlainLink::Bound(v) => {
            assert!(rt; limit < 2);
            Link::Bound(var(rt, v), lattice, Elem::new(limit))
        }
        PlainLink::Enter(s, u, v) => {
            assert!(rt; s < sites);
            Link::Enter(SiteId::new(s), var(rt, u), var(rt, v))
        }
        PlainLink::Leave(s, u, v) => {
            assert!(rt; s < sites);
            Link::Leave(SiteId::new(s), var(rt, u), var(rt, v))
        }
    }
}

/// The graph of a system.
fn graph_of(rt: &impl Abort, alloc: Global, case: &Case, limit: u8) -> Result<FlowGraph, Fail> {
    let mut graph = FlowGraph::new(alloc);
    for (v, owner) in case.owners.iter().enumerate() {
        assert!(rt; v < 1000);
        graph.set_owner(VarId::new(v as u32), owner_of(*owner))?;
    }
    for (target, owner) in case.sites {
        assert!(rt; graph.sites() < 1000);
        graph.add_site(Site {
            unit: UnitNo::new(1),
            token: TokenId::new(0),
            target: FuncId::new(*target),
            owner: owner_of(*owner),
        })?;
    }
    for row in case.rows {
        let link = link_of(rt, *row, limit, graph.sites());
        graph.add(Constraint {
            link,
            lattices: 1,
            span: Span {
                unit: UnitNo::new(1),
                from: TokenId::new(0),
                to: TokenId::new(0),
            },
        })?;
    }
    Ok(graph)
}

/// A name of one letter.
fn letter(alloc: Global, byte: u8) -> Result<Name, AllocError> {
    Ok(Name::new(vec![in alloc; byte]?))
}

/// Two elements, the second above.
fn two(rt: &impl Abort, alloc: Global) -> Result<Lattice, Fail> {
    let mut entries = Vec::new(alloc);
    for byte in [b'a', b'b'] {
        entries.push(Entry {
            name: letter(alloc, byte)?,
            level: Level::Value,
            sign: Sign::Eq,
            write: false,
            deref: Deref::No,
        })?;
    }
    let line = Pair {
        low: letter(alloc, b'a')?,
        high: letter(alloc, b'b')?,
    };
    assert!(rt; !entries.is_empty());
    Ok(Lattice::build(alloc, entries, &[line])?)
}

/// Sets as a certificate has them.
fn part_of(alloc: Global, sets: &Sets) -> Result<Part, Fail> {
    let mut pairs = Vec::new(alloc);
    for (from, to) in sets.pairs {
        pairs.push((VarId::new(*from), VarId::new(*to)))?;
    }
    Ok(Part {
        pairs,
        first: list_of(alloc, sets.first)?,
        second: list_of(alloc, sets.second)?,
    })
}

/// Sets of elements.
fn list_of(alloc: Global, bits: &[u64]) -> Result<Vec<ElemSet>, Fail> {
    let mut list = Vec::new(alloc);
    for set in bits {
        list.push(ElemSet::new(*set))?;
    }
    Ok(list)
}
