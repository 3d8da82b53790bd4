//! What no clause says: that calls succeed where there is memory, and worked values.

ghost use Rattle.std.specs.Prelude.{◌≡◌, length};
ghost use Rattle.flow_graph.specs.System.{IsWithin};

use flow_graph::{Adjacency, Constraint, FlowGraph, Link, Site};
use qual_base::{
    EdgeId, Elem, FuncId, LatticeNo, Numbered, Owner, SiteId, Span, TokenId, UnitNo, VarId,
};
use std::alloc::Global;
use std::process::Abort;
use std::test::Fail;

/// A site of function 3 in function 4.
fn site() -> Site {
    Site {
        unit: UnitNo::new(1),
        token: TokenId::new(5),
        target: FuncId::new(3),
        owner: Owner::Function(FuncId::new(4)),
    }
}

#[test]
fn owners_are_those_set_last(rt: HostRuntime) -> Result<(), Fail> {
    let mut graph = FlowGraph::new(rt.alloc());
    assert_eq!(rt; graph.vars(), 0);
    let three = Owner::Function(FuncId::new(3));
    graph.set_owner(VarId::new(7), three)?;
    assert_eq!(rt; graph.vars(), 8);
    let rows = [
        (7, three),
        (2, Owner::Nobody),
        (8, Owner::Nobody),
        (4_000_000_000, Owner::Nobody),
    ];
    for (v, owner) in rows {
        assert_eq!(rt; graph.owner(VarId::new(v)), owner, "variable {v}");
    }
    graph.set_owner(VarId::new(2), three)?;
    graph.set_owner(VarId::new(7), Owner::Nobody)?;
    assert_eq!(rt; graph.vars(), 8);
    assert_eq!(rt; graph.owner(VarId::new(2)), three);
    assert_eq!(rt; graph.owner(VarId::new(7)), Owner::Nobody);
    Ok(())
}

#[test]
fn sites_and_constraints_are_those_added(rt: HostRuntime) -> Result<(), Fail> {
    let mut graph = FlowGraph::new(rt.alloc());
    let at = graph.add_site(site())?;
    assert_eq!(rt; at.number(), 0);
    assert_eq!(rt; graph.sites(), 1);
    assert_eq!(rt; graph.site(at), site());
    let constraint = Constraint {
        link: Link::Enter(SiteId::new(0), VarId::new(9), VarId::new(4)),
        lattices: 0b101,
        span: Span {
            unit: UnitNo::new(1),
            from: TokenId::new(5),
            to: TokenId::new(6),
        },
    };
    let edge = graph.add(constraint)?;
    assert_eq!(rt; edge.number(), 0);
    assert_eq!(rt; graph.len(), 1);
    assert_eq!(rt; graph.vars(), 10);
    assert_eq!(rt;
        graph.constraint(edge).link,
        Link::Enter(SiteId::new(0), VarId::new(9), VarId::new(4))
    );
    for (lattice, is_in) in [(0, true), (1, false), (2, true), (15, false)] {
        assert_eq!(rt;
            graph.constraint(edge).is_in(LatticeNo::new(lattice)),
            is_in
        );
    }
    Ok(())
}

/// Adds a constraint of the first lattice.
fn put(graph: &mut FlowGraph, link: Link) -> Result<(), Fail>
    requires { IsWithin (length graph.old.sites) link }
    ensures { graph.new.sites ≡ graph.old.sites }
{
    graph.add(Constraint {
        link,
        lattices: 1,
        span: Span {
            unit: UnitNo::new(1),
            from: TokenId::new(0),
            to: TokenId::new(0),
        },
    })?;
    Ok(())
}

/// Links of each kind at variables 1, 3 and 4, with two sites.
fn of_each_kind(rt: &impl Abort, alloc: Global) -> Result<FlowGraph, Fail> {
    let mut graph = FlowGraph::new(alloc);
    graph.add_site(site())?;
    graph.add_site(site())?;
    assert!(rt; graph.sites() == 2);
    let (one, three, four) = (VarId::new(1), VarId::new(3), VarId::new(4));
    put(&mut graph, Link::Le(one, three))?;
    put(
        &mut graph,
        Link::Const(LatticeNo::new(0), Elem::new(1), one),
    )?;
    put(&mut graph, Link::Enter(SiteId::new(0), three, four))?;
    put(&mut graph, Link::Leave(SiteId::new(0), four, one))?;
    put(
        &mut graph,
        Link::Bound(three, LatticeNo::new(0), Elem::new(2)),
    )?;
    put(&mut graph, Link::Enter(SiteId::new(1), one, four))?;
    put(&mut graph, Link::Le(three, three))?;
    Ok(graph)
}

/// Whether a list is these constraints.
fn are(list: &[EdgeId], numbers: &[u32]) -> bool {
    list.len() == numbers.len() && list.iter().zip(numbers).all(|(at, n)| at.number() == *n)
}

/// Whether the constraints that begin at a variable and those that lead to it are these.
fn lists(index: &Adjacency, at: u32, out: &[u32], into: &[u32]) -> bool {
    let at = VarId::new(at);
    are(index.out(at), out) && are(index.into(at), into)
}

#[test]
fn each_constraint_is_listed_where_it_begins_leads_and_calls(rt: HostRuntime) -> Result<(), Fail> {
    let graph = of_each_kind(&rt, rt.alloc())?;
    let index = Adjacency::build(rt.alloc(), &graph)?;
    assert!(rt; lists(&index, 0, &[], &[]));
    assert!(rt; lists(&index, 1, &[0, 5], &[1, 3]));
    assert!(rt; lists(&index, 2, &[], &[]));
    assert!(rt; lists(&index, 3, &[2, 4, 6], &[0, 6]));
    assert!(rt; lists(&index, 4, &[3], &[2, 5]));
    assert!(rt; lists(&index, 4_000_000_000, &[], &[]));
    assert!(rt; are(index.of_site(SiteId::new(0)), &[2, 3]));
    assert!(rt; are(index.of_site(SiteId::new(1)), &[5]));
    assert!(rt; are(index.of_site(SiteId::new(2)), &[]));
    Ok(())
}
