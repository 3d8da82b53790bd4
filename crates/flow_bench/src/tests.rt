//! What no clause says: that a closure ends soon over a long chain of calls, in whatever order its constraints stand, and
//! over a call with many parameters and results.

use crate::counting::{Counts, count};
use crate::making::make;
use crate::words::{Goal, Kind};
use flow_graph::FlowGraph;
use match_summary::summarise;
use qual_base::{LatticeNo, Numbered, VarId};
use std::alloc::Global;
use std::process::Abort;
use std::test::Fail;

/// The system, where it is made.
fn system(rt: &impl Abort, alloc: Global, kind: Kind, size: u32) -> FlowGraph {
    match make(alloc, kind, size) {
        Ok(graph) => graph,
        Err(fault) => {
            assert!(rt; false, "{fault:?}");
            FlowGraph::new(alloc)
        }
    }
}

/// What is found of a system, where it is.
fn counts(rt: &impl Abort, alloc: Global, kind: Kind, size: u32) -> Counts {
    let graph = system(rt, alloc, kind, size);
    match count(alloc, &graph, Goal::Show) {
        Ok(counts) => counts,
        Err(fault) => {
            assert!(rt; false, "{fault:?}");
            Counts {
                constraints: 0,
                variables: 0,
                pairs: 0,
                exceeded: 0,
                steps: 0,
            }
        }
    }
}

/// The result of the second function flows from its parameter; the result of the third does not.
fn closes(rt: &impl Abort, alloc: Global, kind: Kind) -> Result<(), Fail> {
    let graph = system(rt, alloc, kind, 500_000);
    let summaries = summarise(alloc, &graph, LatticeNo::new(0))?;
    assert!(rt; summaries.holds(VarId::new(2), VarId::new(3)));
    assert!(rt; !summaries.holds(VarId::new(2), VarId::new(5)));
    assert_eq!(rt; summaries.len(), 500_000);
    Ok(())
}

#[test]
fn a_chain_of_half_a_million_calls_is_closed(rt: HostRuntime) -> Result<(), Fail> {
    closes(&rt, rt.alloc(), Kind::Chain)
}

#[test]
fn a_chain_against_the_order_of_its_list_is_closed(rt: HostRuntime) -> Result<(), Fail> {
    closes(&rt, rt.alloc(), Kind::Reversed)
}

#[test]
fn a_chain_of_calls_has_its_path_in_either_order(rt: HostRuntime) {
    for kind in [Kind::Chain, Kind::Reversed] {
        let counts = counts(&rt, rt.alloc(), kind, 100_000);
        assert_eq!(rt; counts.pairs, 100_000);
        assert_eq!(rt; counts.exceeded, 1);
        assert_eq!(rt; counts.steps, 300_003);
    }
}

#[test]
fn a_ring_of_calls_has_its_path(rt: HostRuntime) {
    let counts = counts(&rt, rt.alloc(), Kind::Ring, 100_000);
    assert_eq!(rt; counts.exceeded, 1);
}

#[test]
fn a_call_with_many_results_has_its_path(rt: HostRuntime) {
    let counts = counts(&rt, rt.alloc(), Kind::Wide, 20_000);
    assert_eq!(rt; counts.constraints, 80_003);
    assert_eq!(rt; counts.pairs, 60_000);
    assert_eq!(rt; counts.exceeded, 1);
    assert_eq!(rt; counts.steps, 8);
}
