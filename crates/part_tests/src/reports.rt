//! Reports over one small graph. What each comes to was worked out by hand from the rules.

ghost use Rattle.std.specs.Prelude.{◌<◌, ◌^◌};
ghost use Rattle.flow_graph.specs.System.{IsWithin};

use flow_graph::{Constraint, FlowGraph, Link, Site};
use lattice_core::{Deref, Entry, Lattice, Lattices, Level, Name, Pair, Sign};
use path_checker::report_checks::{judge_report, put_checked};
use qual_base::{Elem, FuncId, LatticeNo, Numbered, Owner, SiteId, Span, TokenId, UnitNo, VarId};
use std::alloc::Global;
use std::process::Abort;
use std::test::Fail;

fn span() -> Span {
    Span {
        unit: UnitNo::new(1),
        from: TokenId::new(0),
        to: TokenId::new(0),
    }
}

fn variable(number: u8) -> VarId
    ensures { result < 2 ^ 24 }
{
    VarId::new(u32::from(number))
}

/// The constraints by their numbers. Function 0 has variables 0 and 1, and calls function 1, which has 2 and 3. A constant
/// of the upper element is in variable 0 and flows to 1, by itself and through the call; 1 is bounded by each element.
fn link(rt: &impl Abort, sites: u32, number: u8) -> Link
    ensures { IsWithin sites result }
{
    assert!(rt; sites > 0);
    let site = SiteId::new(0);
    match number {
        0 => Link::Const(LatticeNo::new(0), Elem::new(1), variable(0)),
        1 => Link::Le(variable(0), variable(1)),
        2 => Link::Bound(variable(1), LatticeNo::new(0), Elem::new(0)),
        3 => Link::Enter(site, variable(0), variable(2)),
        4 => Link::Le(variable(2), variable(3)),
        5 => Link::Leave(site, variable(3), variable(1)),
        _ => Link::Bound(variable(1), LatticeNo::new(0), Elem::new(1)),
    }
}

fn graph(rt: &impl Abort, alloc: Global) -> Result<FlowGraph, Fail> {
    let mut graph = FlowGraph::new(alloc);
    let _ = graph.add_site(Site {
        unit: UnitNo::new(1),
        token: TokenId::new(0),
        target: FuncId::new(1),
        owner: Owner::Function(FuncId::new(0)),
    })?;
    for at in 0..4 {
        graph.set_owner(
            variable(at),
            Owner::Function(FuncId::new(u32::from(at / 2))),
        )?;
    }
    for number in 0..7 {
        let _ = graph.add(Constraint {
            link: link(rt, graph.sites(), number),
            lattices: 1,
            span: span(),
        })?;
    }
    Ok(graph)
}

fn name(alloc: Global, text: &[u8]) -> Result<Name, Fail> {
    Ok(Name::new(text.to_vec(alloc)?))
}

fn entry(alloc: Global, text: &[u8]) -> Result<Entry, Fail> {
    Ok(Entry {
        name: name(alloc, text)?,
        level: Level::Value,
        sign: Sign::Eq,
        write: false,
        deref: Deref::No,
    })
}

/// Two elements, 0 below 1.
fn lattices(alloc: Global) -> Result<Lattices, Fail> {
    let entries = vec![in alloc; entry(alloc, b"low")?, entry(alloc, b"high")?]?;
    let pair = Pair {
        low: name(alloc, b"low")?,
        high: name(alloc, b"high")?,
    };
    let mut lattices = Lattices::new(alloc);
    lattices.push(Lattice::build(alloc, entries, &[pair])?)?;
    Ok(lattices)
}

/// Reports with the lines that say what they come to.
const REPORTS: [(&[u8], &[u8]); 9] = [
    (
        b"rejected\nerror high exceeds low at x:1:1\npath\n  0 x\n  1 x\n  2 x\n",
        b"paths hold\n",
    ),
    (
        b"rejected\nerror\nsub 1\n  4 \npath\n  0 \n  3 \n  sub 1\n  5 \n  2 \n",
        b"paths hold\n",
    ),
    (
        b"rejected\nerror\npath\n  0 \n  1 \n  2 \nerror\npath\n  0 \n  1 \n  6 \n",
        b"path bad at line 11: B7\n",
    ),
    (
        b"rejected\nerror\npath\n  0 \n  1 \n",
        b"path bad at line 6: B1\n",
    ),
    (
        b"rejected\nerror\npath\n  0 \n  4 \n  2 \n",
        b"path bad at line 5: B2\n",
    ),
    (
        b"rejected\nerror\npath\n  0 \n  1 \n  7 \n",
        b"path bad at line 6: K2\n",
    ),
    (
        b"rejected\nerror\npath\n  00 \n  1 \n  7 \n",
        b"path bad at line 4: K1\n",
    ),
    (
        b"rejected\nerror\npath\n  0 \n  1 \n  2 ",
        b"path bad at line 6: K1\n",
    ),
    (b"rejected\n", b"path bad at line 2: K1\n"),
];

#[test]
fn reports_come_to_their_lines(rt: HostRuntime) -> Result<(), Fail> {
    let alloc = rt.alloc();
    let graph = graph(&rt, alloc)?;
    let lattices = lattices(alloc)?;
    for (report, want) in &REPORTS {
        assert!(rt; report.len() < 1000);
        let checked = judge_report(alloc, &graph, &lattices, report)?;
        let mut text = Vec::new(alloc);
        put_checked(&mut text, checked)?;
        assert!(rt; text.as_slice() == *want);
    }
    Ok(())
}
