//! Path proofs and walks over small graphs, and texts of reports. The answers were worked out by hand for the graph of two
//! lattices, and by two other programs for the rest.

ghost use Rattle.std.specs.Prelude.{◌<◌, ◌^◌};
ghost use Rattle.flow_graph.specs.System.{IsWithin};

use crate::path_cases::Form::{Bound, Const, Enter, Le, Leave};
use crate::path_cases::{
    Answer, FILE_SITE_CASES, FILE_SITE_LINKS, FILE_SITE_OWNERS, FILE_SITE_SITES, Form,
    GLOBALS_CASES, GLOBALS_LINKS, GLOBALS_OWNERS, GLOBALS_SITES, RECURSIVE_CASES, RECURSIVE_LINKS,
    RECURSIVE_OWNERS, RECURSIVE_SITES, SHARED_CASES, SHARED_LINKS, SHARED_OWNERS, SHARED_SITES,
    Step, TEXTS, TWO_FUNCTIONS_CASES, TWO_FUNCTIONS_LINKS, TWO_FUNCTIONS_OWNERS,
    TWO_FUNCTIONS_SITES, TWO_LATTICES_CASES, TWO_LATTICES_LINKS, TWO_LATTICES_OWNERS,
    TWO_LATTICES_SITES, WALKS,
};
use flow_graph::{Constraint, FlowGraph, Link, PathStep, Site, SubPath, Walk};
use lattice_core::{Deref, Entry, Lattice, Lattices, Level, Name, Pair, Sign};
use path_checker::{check, check_walk, read_report};
use qual_base::{
    EdgeId, Elem, FuncId, LatticeNo, Numbered, Owner, SiteId, Span, TokenId, UnitNo, VarId,
};
use std::alloc::Global;
use std::process::Abort;
use std::test::Fail;

fn span() -> Span {
    Span {
        unit: UnitNo::new(1),
        from: TokenId::new(0),
        to: TokenId::new(0),
    }
}

fn owner(number: Option<u32>) -> Owner {
    match number {
        Some(number) => Owner::Function(FuncId::new(number)),
        None => Owner::Nobody,
    }
}

fn variable(rt: &impl Abort, number: u32) -> VarId
    ensures { result < 2 ^ 24 }
{
    assert!(rt; number < 1000);
    VarId::new(number)
}

fn site(rt: &impl Abort, sites: u32, number: u32) -> SiteId
    ensures { result < sites }
{
    assert!(rt; number < sites);
    SiteId::new(number)
}

fn lattice(rt: &impl Abort, number: u8) -> LatticeNo
    ensures { result < 16 }
{
    assert!(rt; number < 16);
    LatticeNo::new(number)
}

fn element(rt: &impl Abort, number: u8) -> Elem
    ensures { result < 64 }
{
    assert!(rt; number < 64);
    Elem::new(number)
}

fn link(rt: &impl Abort, sites: u32, form: Form) -> Link
    ensures { IsWithin sites result }
{
    match form {
        Le(from, to) => Link::Le(variable(rt, from), variable(rt, to)),
        Const(of, e, at) => Link::Const(lattice(rt, of), element(rt, e), variable(rt, at)),
        Bound(at, of, e) => Link::Bound(variable(rt, at), lattice(rt, of), element(rt, e)),
        Enter(s, from, to) => Link::Enter(site(rt, sites, s), variable(rt, from), variable(rt, to)),
        Leave(s, from, to) => Link::Leave(site(rt, sites, s), variable(rt, from), variable(rt, to)),
    }
}

fn add_sites(
    rt: &impl Abort,
    graph: &mut FlowGraph,
    sites: &[(u32, Option<u32>)],
) -> Result<(), Fail> {
    for (target, by) in sites {
        assert!(rt; graph.sites() < 1000);
        let _ = graph.add_site(Site {
            unit: UnitNo::new(1),
            token: TokenId::new(0),
            target: FuncId::new(*target),
            owner: owner(*by),
        })?;
    }
    Ok(())
}

fn add_links(rt: &impl Abort, graph: &mut FlowGraph, links: &[(Form, u16)]) -> Result<(), Fail> {
    for (form, lattices) in links {
        let _ = graph.add(Constraint {
            link: link(rt, graph.sites(), *form),
            lattices: *lattices,
            span: span(),
        })?;
    }
    Ok(())
}

fn graph(
    rt: &impl Abort,
    alloc: Global,
    owners: &[Option<u32>],
    sites: &[(u32, Option<u32>)],
    links: &[(Form, u16)],
) -> Result<FlowGraph, Fail> {
    let mut graph = FlowGraph::new(alloc);
    for (at, by) in owners.iter().enumerate() {
        assert!(rt; at < 1000);
        graph.set_owner(variable(rt, at as u32), owner(*by))?;
    }
    add_sites(rt, &mut graph, sites)?;
    add_links(rt, &mut graph, links)?;
    Ok(graph)
}

fn name(alloc: Global, text: &[u8]) -> Result<Name, Fail> {
    Ok(Name::new(text.to_vec(alloc)?))
}

fn entry(alloc: Global, text: &[u8]) -> Result<Entry, Fail> {
    Ok(Entry {
        name: name(alloc, text)?,
        level: Level::Value,
        sign: Sign::Eq,
        write: false,
        deref: Deref::No,
    })
}

/// Two elements, 0 below 1.
fn chain(alloc: Global) -> Result<Lattice, Fail> {
    let entries = vec![in alloc; entry(alloc, b"low")?, entry(alloc, b"high")?]?;
    let pair = Pair {
        low: name(alloc, b"low")?,
        high: name(alloc, b"high")?,
    };
    Ok(Lattice::build(alloc, entries, &[pair])?)
}

fn lattices(alloc: Global) -> Result<Lattices, Fail> {
    let mut lattices = Lattices::new(alloc);
    lattices.push(chain(alloc)?)?;
    lattices.push(chain(alloc)?)?;
    Ok(lattices)
}

fn answer(
    rt: &impl Abort,
    alloc: Global,
    graph: &FlowGraph,
    lattices: &Lattices,
    text: &[u8],
) -> Result<Answer, Fail> {
    assert!(rt; text.len() < 1000);
    let proofs = read_report(alloc, text, graph.len())?;
    assert_eq!(rt; proofs.len(), 1);
    Ok(match check(graph, lattices, &proofs[0]) {
        Ok(()) => None,
        Err(bad) => Some((bad.line, bad.why)),
    })
}

fn answers_agree(
    rt: &impl Abort,
    alloc: Global,
    graph: &FlowGraph,
    cases: &[(&[u8], Answer)],
) -> Result<(), Fail> {
    let lattices = lattices(alloc)?;
    for (text, want) in cases {
        let found = answer(rt, alloc, graph, &lattices, text)?;
        assert!(rt; found == *want);
    }
    Ok(())
}

#[test]
fn each_rule_is_answered(rt: HostRuntime) -> Result<(), Fail> {
    let alloc = rt.alloc();
    let two = graph(
        &rt,
        alloc,
        &TWO_LATTICES_OWNERS,
        &TWO_LATTICES_SITES,
        &TWO_LATTICES_LINKS,
    )?;
    answers_agree(&rt, alloc, &two, &TWO_LATTICES_CASES)
}

#[test]
fn proofs_over_small_graphs_are_judged(rt: HostRuntime) -> Result<(), Fail> {
    let alloc = rt.alloc();
    let recursive = graph(
        &rt,
        alloc,
        &RECURSIVE_OWNERS,
        &RECURSIVE_SITES,
        &RECURSIVE_LINKS,
    )?;
    answers_agree(&rt, alloc, &recursive, &RECURSIVE_CASES)?;
    let shared = graph(&rt, alloc, &SHARED_OWNERS, &SHARED_SITES, &SHARED_LINKS)?;
    answers_agree(&rt, alloc, &shared, &SHARED_CASES)?;
    let globals = graph(&rt, alloc, &GLOBALS_OWNERS, &GLOBALS_SITES, &GLOBALS_LINKS)?;
    answers_agree(&rt, alloc, &globals, &GLOBALS_CASES)?;
    let two_functions = graph(
        &rt,
        alloc,
        &TWO_FUNCTIONS_OWNERS,
        &TWO_FUNCTIONS_SITES,
        &TWO_FUNCTIONS_LINKS,
    )?;
    answers_agree(&rt, alloc, &two_functions, &TWO_FUNCTIONS_CASES)?;
    let file_site = graph(
        &rt,
        alloc,
        &FILE_SITE_OWNERS,
        &FILE_SITE_SITES,
        &FILE_SITE_LINKS,
    )?;
    answers_agree(&rt, alloc, &file_site, &FILE_SITE_CASES)?;
    Ok(())
}

#[test]
fn texts_are_read_or_refused_at_a_line(rt: HostRuntime) -> Result<(), Fail> {
    let alloc = rt.alloc();
    for (text, want) in &TEXTS {
        assert!(rt; text.len() < 1000);
        let found = match read_report(alloc, text, 9) {
            Ok(proofs) => Ok(proofs.len()),
            Err(fault) => Err(fault),
        };
        assert!(rt; found == *want);
    }
    Ok(())
}

#[test]
fn steps_keep_their_lines(rt: HostRuntime) -> Result<(), Fail> {
    let text = b"rejected\nerror e\nsub 1\n  7 x\npath\n  3 x\n  sub 4294967296\n";
    let proofs = read_report(rt.alloc(), text, 9)?;
    assert_eq!(rt; proofs.len(), 1);
    let proof = &proofs[0];
    assert_eq!(rt; proof.end, 8);
    assert_eq!(rt; proof.subs.len(), 1);
    let seven = PathStep::Take {
        edge: EdgeId::new(7),
        line: 4,
    };
    let three = PathStep::Take {
        edge: EdgeId::new(3),
        line: 6,
    };
    let sub = PathStep::Sub {
        number: 4_294_967_295,
        line: 7,
    };
    assert!(rt; proof.subs[0].steps.as_slice() == [seven].as_slice());
    assert!(rt; proof.main.as_slice() == [three, sub].as_slice());
    Ok(())
}

/// The steps of a walk, which stand in the lines from 1 on.
fn walk_steps(rt: &impl Abort, alloc: Global, steps: &[Step]) -> Result<Vec<PathStep>, Fail> {
    let mut made = Vec::new(alloc);
    for (at, step) in steps.iter().enumerate() {
        assert!(rt; at < 1000);
        let line = at as u32 + 1;
        made.push(match step {
            Step::Take(edge) => PathStep::Take {
                edge: EdgeId::new(*edge),
                line,
            },
            Step::Through(number) => PathStep::Sub {
                number: *number,
                line,
            },
        })?;
    }
    Ok(made)
}

#[test]
fn walks_are_judged(rt: HostRuntime) -> Result<(), Fail> {
    let alloc = rt.alloc();
    let graph = graph(
        &rt,
        alloc,
        &TWO_LATTICES_OWNERS,
        &TWO_LATTICES_SITES,
        &TWO_LATTICES_LINKS,
    )?;
    for (of, from, to, has_sub, steps, want) in &WALKS {
        let mut subs = Vec::new(alloc);
        if *has_sub {
            subs.push(SubPath {
                steps: walk_steps(&rt, alloc, &[Step::Take(8)])?,
            })?;
        }
        let steps = walk_steps(&rt, alloc, steps)?;
        assert!(rt; steps.len() < 1000);
        let end = steps.len() as u32 + 1;
        let walk = Walk { subs, steps, end };
        let from = variable(&rt, *from);
        let to = variable(&rt, *to);
        let found = match check_walk(&graph, lattice(&rt, *of), from, to, &walk) {
            Ok(()) => None,
            Err(bad) => Some((bad.line, bad.why)),
        };
        assert!(rt; found == *want);
    }
    Ok(())
}
