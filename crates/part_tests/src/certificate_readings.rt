//! What is read, and where it fails.

ghost use Rattle.std.specs.Prelude.{◌≡◌, length};
ghost use Rattle.flow_graph.specs.System.{IsWithin};

use certificate_reader::{CertFault, read_certificate};
use certificate_text::certificate_text;
use flow_graph::{Constraint, FlowGraph, Link};
use lattice_core::{Deref, Entry, Lattice, Lattices, Level, Name, Pair, Sign};
use qual_base::{Elem, LatticeNo, Numbered, Span, TokenId, UnitNo, VarId};
use std::alloc::Global;
use std::test::Fail;

fn var(number: u32) -> VarId
    ensures { result ≡ number }
{
    VarId::new(number)
}

fn add(graph: &mut FlowGraph, link: Link) -> Result<(), Fail>
    requires { IsWithin (length graph.old.sites) link }
{
    let span = Span {
        unit: UnitNo::new(0),
        from: TokenId::new(0),
        to: TokenId::new(0),
    };
    graph.add(Constraint {
        link,
        lattices: 1,
        span,
    })?;
    Ok(())
}

/// Constraints whose ends are the variables 4 1, 1 1, 3 3, 3 0.
fn graph_of(alloc: Global) -> Result<FlowGraph, Fail> {
    let mut graph = FlowGraph::new(alloc);
    add(&mut graph, Link::Le(var(4), var(1)))?;
    add(&mut graph, Link::Le(var(1), var(1)))?;
    add(
        &mut graph,
        Link::Const(LatticeNo::new(0), Elem::new(1), var(3)),
    )?;
    add(&mut graph, Link::Le(var(3), var(0)))?;
    Ok(graph)
}

/// A lattice of two elements.
fn two(alloc: Global) -> Result<Lattices, Fail> {
    let entry = |letter: u8| -> Result<Entry, Fail> {
        Ok(Entry {
            name: Name::new(vec![in alloc; letter]?),
            level: Level::Value,
            sign: Sign::Eq,
            write: false,
            deref: Deref::No,
        })
    };
    let mut entries = Vec::new(alloc);
    entries.push(entry(b'a')?)?;
    entries.push(entry(b'b')?)?;
    let pair = Pair {
        low: Name::new(vec![in alloc; b'a']?),
        high: Name::new(vec![in alloc; b'b']?),
    };
    let pairs = vec![in alloc; pair]?;
    let mut lattices = Lattices::new(alloc);
    match Lattice::build(alloc, entries, pairs.as_slice()) {
        Ok(lattice) => lattices.push(lattice)?,
        Err(_) => {}
    }
    Ok(lattices)
}

const WHOLE: &[u8] = b"certificate
lattice 1
  set 0a 2 3
  set 0b 0 2
  set 3b 1 1
  pair 0a 0b
  pair 0a 3b
  pair 3b 0a
";

const BAD: [(&[u8], CertFault); 20] = [
    (b"", CertFault::Grammar(1)),
    (b"\n", CertFault::Grammar(1)),
    (b"certificate", CertFault::Grammar(1)),
    (b"certificate\n", CertFault::Grammar(2)),
    (b"certificate\nlattice 01\n", CertFault::Grammar(2)),
    (b"certificate\nlattice 2\n", CertFault::Grammar(2)),
    (
        b"certificate\nlattice 1\nlattice 2\n",
        CertFault::Grammar(3),
    ),
    (
        b"certificate\nlattice 1\n  set 0a 2 3",
        CertFault::Grammar(3),
    ),
    (
        b"certificate\nlattice 1\n  set 0a 2 0\n",
        CertFault::Grammar(3),
    ),
    (
        b"certificate\nlattice 1\n  set 0a 4 1\n",
        CertFault::Grammar(3),
    ),
    (
        b"certificate\nlattice 1\n  set 0a 0 18446744073709551616\n",
        CertFault::Grammar(3),
    ),
    (
        b"certificate\nlattice 1\n  set 0a 1 1 \n",
        CertFault::Grammar(3),
    ),
    (
        b"certificate\nlattice 1\n  set 0c 1 1\n",
        CertFault::Grammar(3),
    ),
    (
        b"certificate\nlattice 1\n  set 0b 1 1\n  set 0a 1 1\n",
        CertFault::Grammar(4),
    ),
    (
        b"certificate\nlattice 1\n  pair 0a 0a\n  set 0a 1 1\n",
        CertFault::Grammar(4),
    ),
    (
        b"certificate\nlattice 1\n  pair 0a 0a\n  pair 0a 0a\n",
        CertFault::Grammar(4),
    ),
    (
        b"certificate\nlattice 1\n  set 1a 1 1\n",
        CertFault::NoSuchVariable(3),
    ),
    (
        b"certificate\nlattice 1\n  set 2b 1 1\n  set\n",
        CertFault::NoSuchVariable(3),
    ),
    (
        b"certificate\nlattice 1\n  pair 0a 3b\n  pair 0a 9999999999999999999999999999999999999999999a\n",
        CertFault::NoSuchVariable(4),
    ),
    (
        b"certificate\nlattice 1\n  set 1a 1 4\n",
        CertFault::Grammar(3),
    ),
];

#[test]
fn what_is_written_is_read(rt: HostRuntime) -> Result<(), Fail> {
    let alloc = rt.alloc();
    let graph = graph_of(alloc)?;
    let lattices = two(alloc)?;
    match read_certificate(alloc, WHOLE, &graph, &lattices) {
        Ok(parts) => {
            let text = certificate_text(alloc, &graph, parts.as_slice())?;
            assert_eq!(rt; text.as_slice(), WHOLE);
        }
        Err(_) => assert!(rt; false),
    }
    for (bytes, fault) in &BAD {
        match read_certificate(alloc, *bytes, &graph, &lattices) {
            Ok(_) => assert!(rt; false),
            Err(found) => assert!(rt; found == *fault),
        }
    }
    Ok(())
}
