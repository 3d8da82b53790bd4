//! Certificates over one small graph. What each comes to was worked out by hand from the rules.

ghost use Rattle.std.specs.Prelude.{List, IfOk};
ghost use Rattle.lattice_core.specs.Order.{Order};
ghost use Rattle.flow_graph.specs.Unfolding.{NamesElements};

use certificate_checks::{judge_certificate, put_verdict};
use flow_graph::{Constraint, FlowGraph, Link};
use lattice_core::{Deref, Entry, Lattice, Lattices, Level, Name, Pair, Sign};
use qual_base::{Numbered, Span, TokenId, UnitNo, VarId};
use std::alloc::Global;
use std::test::Fail;

/// Variable 0 flows to variable 1. Both belong to nobody.
fn graph(alloc: Global) -> Result<FlowGraph, Fail>
    ensures { IfOk result (λ graph. (orders : List Order) → NamesElements graph orders) }
{
    let mut graph = FlowGraph::new(alloc);
    let _ = graph.add(Constraint {
        link: Link::Le(VarId::new(0), VarId::new(1)),
        lattices: 1,
        span: Span {
            unit: UnitNo::new(1),
            from: TokenId::new(0),
            to: TokenId::new(0),
        },
    })?;
    Ok(graph)
}

fn name(alloc: Global, text: &[u8]) -> Result<Name, Fail> {
    Ok(Name::new(text.to_vec(alloc)?))
}

fn entry(alloc: Global, text: &[u8]) -> Result<Entry, Fail> {
    Ok(Entry {
        name: name(alloc, text)?,
        level: Level::Value,
        sign: Sign::Eq,
        write: false,
        deref: Deref::No,
    })
}

/// Two elements, 0 below 1.
fn lattices(alloc: Global) -> Result<Lattices, Fail> {
    let entries = vec![in alloc; entry(alloc, b"low")?, entry(alloc, b"high")?]?;
    let pair = Pair {
        low: name(alloc, b"low")?,
        high: name(alloc, b"high")?,
    };
    let mut lattices = Lattices::new(alloc);
    lattices.push(Lattice::build(alloc, entries, &[pair])?)?;
    Ok(lattices)
}

/// Certificates with the lines that say what they come to.
const CERTIFICATES: [(&[u8], &[u8]); 7] = [
    (b"certificate\nlattice 1\n", b"certificate holds\n"),
    (
        b"certificate\nlattice 1\n  set 0a 1 1\n  set 0b 3 3\n  pair 0a 0b\n",
        b"certificate holds\n",
    ),
    (
        b"certificate\nlattice 1\n  set 0a 3 3\n  set 0b 1 1\n",
        b"certificate bad in lattice 1: A3\n",
    ),
    (
        b"certificate\nlattice 1\n  set 0a 2 3\n",
        b"certificate bad in lattice 1: A2\n",
    ),
    (
        b"certificate\nlattice 1\n  set 0a 1 4\n",
        b"certificate bad at line 3: V1\n",
    ),
    (b"certificate\n", b"certificate bad at line 2: V1\n"),
    (
        b"certificate\nlattice 1\n  set 1a 1 1\n",
        b"certificate bad at line 3: V2\n",
    ),
];

#[test]
fn certificates_come_to_their_lines(rt: HostRuntime) -> Result<(), Fail> {
    let alloc = rt.alloc();
    let graph = graph(alloc)?;
    let lattices = lattices(alloc)?;
    for (certificate, want) in &CERTIFICATES {
        assert!(rt; certificate.len() < 1000);
        let verdict = judge_certificate(alloc, &graph, &lattices, certificate)?;
        let mut text = Vec::new(alloc);
        put_verdict(&mut text, verdict)?;
        assert!(rt; text.as_slice() == *want);
    }
    Ok(())
}
