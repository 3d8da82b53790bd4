//! The path proofs of worked systems, beside their steps.

ghost use Rattle.std.specs.Prelude.{◌≡◌, Some, slice_get};
ghost use Rattle.flow_graph.specs.Unfolding.{NamesElementsIn};
ghost use Rattle.match_summary.specs.Summary.{Summarises};
ghost use Rattle.lattice_solver.specs.Solution.{IsSolved};

use crate::building::{graph_of, lattices_of};
use crate::case::Case;
use crate::comparing::shown;
use crate::worked;
use flow_graph::{FlowGraph, PathProof, PathStep, names_elements};
use lattice_core::{Lattice, Lattices};
use lattice_solver::Solver;
use match_summary::{Summaries, summarise};
use qual_base::{EdgeId, LatticeNo, Numbered};
use std::alloc::Global;
use std::process::Abort;
use std::test::Fail;

/// A step by its number.
#[derive(Clone, Copy, PartialEq, Eq, Debug)]
enum Step {
    Take(u32),
    Sub(u32),
}

use Step::{Sub, Take};

/// The steps of a worked system's path proof.
struct Steps {
    name: &'static str,
    subs: &'static [&'static [Step]],
    main: &'static [Step],
}

/// The path proofs of the worked systems of which a bound is exceeded, but for the call in a call.
static PROOFS: [Steps; 4] = [
    Steps {
        name: "a flow",
        subs: &[],
        main: &[Take(0), Take(2), Take(1)],
    },
    Steps {
        name: "a flow through recursion",
        subs: &[
            &[Take(0), Take(10)],
            &[Take(1), Take(7), Take(4), Sub(1), Take(6), Take(9)],
        ],
        main: &[
            Take(11),
            Take(19),
            Take(16),
            Sub(2),
            Take(17),
            Take(20),
            Take(12),
        ],
    },
    Steps {
        name: "two functions that share a variable of nobody",
        subs: &[],
        main: &[
            Take(0),
            Take(9),
            Take(7),
            Take(2),
            Take(3),
            Take(4),
            Take(12),
            Take(13),
            Take(1),
        ],
    },
    Steps {
        name: "a site that nobody owns",
        subs: &[&[Take(0), Take(1)]],
        main: &[
            Take(13),
            Take(15),
            Take(10),
            Take(4),
            Sub(1),
            Take(5),
            Take(11),
            Take(18),
            Take(14),
        ],
    },
];

/// A step by its number.
fn number_of(step: &PathStep) -> Step {
    match step {
        PathStep::Take { edge, line: _ } => Step::Take(edge.number()),
        PathStep::Sub { number, line: _ } => Step::Sub(*number),
    }
}

/// Compares the steps of a path.
fn compare_steps(rt: &impl Abort, name: &str, found: &[PathStep], steps: &[Step]) {
    assert_eq!(rt; found.len(), steps.len(), "{name}");
    for (at, step) in found.iter().enumerate() {
        assert_eq!(rt;
            Some(number_of(step)),
            steps.get(at).copied(),
            "{name}: step {at}"
        );
    }
}

/// Compares a proof with that of a system.
fn compare_proof(rt: &impl Abort, proof: &PathProof, steps: &Steps) {
    compare_steps(rt, steps.name, &proof.main, steps.main);
    assert_eq!(rt; proof.subs.len(), steps.subs.len(), "{}", steps.name);
    for (at, sub) in proof.subs.iter().enumerate() {
        match steps.subs.get(at) {
            Some(other) => compare_steps(rt, steps.name, &sub.steps, other),
            None => assert!(rt; false, "{}: sub {at}", steps.name),
        }
    }
}

/// Compares a proof with that of the worked system of this name, where there is one. Says how many there are.
fn compare_worked(rt: &impl Abort, name: &str, proof: &PathProof) -> usize {
    let mut count: usize = 0;
    for steps in &PROOFS {
        if steps.name == name {
            compare_proof(rt, proof, steps);
            count = count.wrapping_add(1);
        }
    }
    count
}

/// Compares the path proofs of the exceeded bounds, and says how many were worked out.
fn compare_bounds(
    rt: &impl Abort,
    alloc: Global,
    name: &str,
    graph: &FlowGraph,
    summaries: &Summaries,
    solver: &Solver,
    lattices: &Lattices,
    lattice: &Lattice,
) -> Result<usize, Fail>
    requires solved { IsSolved graph.now solver.now }
    requires summaries { Summarises graph.now solver.now.lattice summaries.now }
    requires lattice { slice_get lattices.now solver.now.lattice ≡ Some lattice.now }
    requires named { NamesElementsIn graph.now solver.now.lattice lattice.now.order }
{
    let mut worked: usize = 0;
    for n in 0..graph.len() {
        let at = EdgeId::new(n);
        if let Some(proof) = shown(alloc, graph, summaries, solver, lattices, lattice, at)? {
            worked = worked.wrapping_add(compare_worked(rt, name, &proof));
        }
    }
    Ok(worked)
}

/// Compares the path proofs of some systems in one lattice, and says how many were worked out.
fn compare_paths(rt: &impl Abort, alloc: Global, cases: &[Case]) -> Result<usize, Fail> {
    let mut worked: usize = 0;
    let at = LatticeNo::new(0);
    for case in cases {
        let graph = graph_of(rt, alloc, case)?;
        let lattices = lattices_of(rt, alloc, case)?;
        assert_eq!(rt; lattices.len(), 1);
        let lattice = lattices.get(at);
        let summaries = summarise(alloc, &graph, at)?;
        let mut solver = Solver::new(alloc, &graph, &summaries, at)?;
        solver.run(&graph, &summaries);
        assert!(rt; names_elements(&graph, at, lattice));
        let count = compare_bounds(
            rt, alloc, case.name, &graph, &summaries, &solver, &lattices, lattice,
        )?;
        worked = worked.wrapping_add(count);
    }
    Ok(worked)
}

#[test]
fn worked_systems_have_their_path_proofs(rt: HostRuntime) -> Result<(), Fail> {
    let calls = compare_paths(&rt, rt.alloc(), &worked::CALLS)?;
    assert_eq!(rt; calls, 2);
    let shared = compare_paths(&rt, rt.alloc(), &worked::SHARED)?;
    assert_eq!(rt; shared, 2);
    Ok(())
}
