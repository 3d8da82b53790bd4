//! What no clause says: that the sets are found where there is memory, and worked values.

ghost use Rattle.std.specs.Prelude.{◌≡◌, length};
ghost use Rattle.flow_graph.specs.System.{IsWithin};

use bounds_below::bounds_below;
use flow_graph::{Constraint, FlowGraph, Link, Site};
use match_summary::summarise;
use qual_base::{Elem, FuncId, LatticeNo, Numbered, Owner, SiteId, Span, TokenId, UnitNo, VarId};
use std::alloc::Global;
use std::process::Abort;
use std::test::Fail;

/// Adds a call of a function in another, or at file scope.
fn call(rt: &impl Abort, graph: &mut FlowGraph, target: u32, owner: Owner) -> Result<(), Fail> {
    assert!(rt; graph.sites() < 1_000_000);
    graph.add_site(Site {
        unit: UnitNo::new(1),
        token: TokenId::new(0),
        target: FuncId::new(target),
        owner,
    })?;
    Ok(())
}

/// Adds a constraint of the second lattice.
fn put(graph: &mut FlowGraph, link: Link) -> Result<(), Fail>
    requires { IsWithin (length graph.old.sites) link }
    ensures { graph.new.sites ≡ graph.old.sites }
{
    graph.add(Constraint {
        link,
        lattices: 2,
        span: Span {
            unit: UnitNo::new(1),
            from: TokenId::new(0),
            to: TokenId::new(0),
        },
    })?;
    Ok(())
}

/// Adds a flow inside function 1, a call of it at each site, a return at the first, and three bounds.
fn put_all(graph: &mut FlowGraph) -> Result<(), Fail>
    requires { length graph.old.sites ≡ 2 }
{
    let (first, second) = (SiteId::new(0), SiteId::new(1));
    put(graph, Link::Enter(first, VarId::new(0), VarId::new(2)))?;
    put(graph, Link::Le(VarId::new(2), VarId::new(3)))?;
    put(graph, Link::Leave(first, VarId::new(3), VarId::new(1)))?;
    put(graph, Link::Enter(second, VarId::new(4), VarId::new(0)))?;
    let (one, other) = (LatticeNo::new(1), LatticeNo::new(0));
    put(graph, Link::Bound(VarId::new(1), one, Elem::new(3)))?;
    put(graph, Link::Bound(VarId::new(3), one, Elem::new(5)))?;
    put(graph, Link::Bound(VarId::new(2), other, Elem::new(7)))?;
    Ok(())
}

/// Function 0 owns variables 0 and 1 and calls function 1, which owns 2 and 3. Nobody calls function 0 from variable 4.
fn two_functions(rt: &impl Abort, alloc: Global) -> Result<FlowGraph, Fail> {
    let mut graph = FlowGraph::new(alloc);
    for (v, f) in [(0, 0), (1, 0), (2, 1), (3, 1)] {
        assert!(rt; v < 1000);
        graph.set_owner(VarId::new(v), Owner::Function(FuncId::new(f)))?;
    }
    call(rt, &mut graph, 1, Owner::Function(FuncId::new(0)))?;
    call(rt, &mut graph, 0, Owner::Nobody)?;
    assert!(rt; graph.sites() == 2);
    put_all(&mut graph)?;
    Ok(graph)
}

#[test]
fn bounds_come_back_along_calls_and_round_groups(rt: HostRuntime) -> Result<(), Fail> {
    let graph = two_functions(&rt, rt.alloc())?;
    let one = LatticeNo::new(1);
    let summaries = summarise(rt.alloc(), &graph, one)?;
    let below = bounds_below(rt.alloc(), &graph, one, &summaries)?;
    // (a return alone leads nowhere: element 3 is not below variables 2 and 3)
    for (v, set) in [
        (0, 40),
        (1, 8),
        (2, 32),
        (3, 32),
        (4, 40),
        (5, 0),
        (4_000_000_000, 0),
    ] {
        assert_eq!(rt; below.set(VarId::new(v)).number(), set);
    }
    let other = LatticeNo::new(0);
    let none = summarise(rt.alloc(), &graph, other)?;
    let of_other = bounds_below(rt.alloc(), &graph, other, &none)?;
    for (v, set) in [(0, 0), (2, 128), (3, 0)] {
        assert_eq!(rt; of_other.set(VarId::new(v)).number(), set);
    }
    Ok(())
}
