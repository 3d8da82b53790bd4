//! What a certificate looks like.

ghost use Rattle.std.specs.Prelude.{◌≡◌, length};
ghost use Rattle.flow_graph.specs.System.{IsWithin};

use certificate_text::certificate_text;
use closure_check::Part;
use flow_graph::{Constraint, FlowGraph, Link};
use qual_base::{Elem, ElemSet, LatticeNo, Numbered, Span, TokenId, UnitNo, VarId};
use std::test::Fail;

fn var(number: u32) -> VarId
    ensures { result ≡ number }
{
    VarId::new(number)
}

fn add(graph: &mut FlowGraph, link: Link) -> Result<(), Fail>
    requires { IsWithin (length graph.old.sites) link }
{
    let span = Span {
        unit: UnitNo::new(0),
        from: TokenId::new(0),
        to: TokenId::new(0),
    };
    graph.add(Constraint {
        link,
        lattices: 1,
        span,
    })?;
    Ok(())
}

#[test]
fn a_certificate_is_written(rt: HostRuntime) -> Result<(), Fail> {
    let alloc = rt.alloc();
    let mut graph = FlowGraph::new(alloc);
    add(&mut graph, Link::Le(var(4), var(1)))?;
    add(&mut graph, Link::Le(var(1), var(1)))?;
    add(
        &mut graph,
        Link::Const(LatticeNo::new(0), Elem::new(1), var(3)),
    )?;
    add(&mut graph, Link::Le(var(3), var(0)))?;
    let mut pairs = Vec::new(alloc);
    pairs.push((var(0), var(4)))?;
    pairs.push((var(4), var(0)))?;
    pairs.push((var(4), var(1)))?;
    let part = Part {
        pairs,
        first: vec![in alloc; ElemSet::new(2); 5]?,
        second: vec![in alloc; ElemSet::new(3); 5]?,
    };
    let parts = vec![in alloc; part]?;
    let text = certificate_text(alloc, &graph, parts.as_slice())?;
    let wanted = b"certificate
lattice 1
  set 0a 2 3
  set 0b 2 3
  set 2a 2 3
  set 3b 2 3
  pair 0a 0b
  pair 0a 3b
  pair 3b 0a
";
    assert_eq!(rt; text.as_slice(), &wanted[..]);
    Ok(())
}
