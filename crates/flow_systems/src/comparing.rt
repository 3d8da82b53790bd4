//! What the closure, the solver, the unfolding and the maker of path proofs find of a system, beside its answers.

ghost use Rattle.std.specs.Prelude.{◌≡◌, ◌<◌, Some, length, slice_get};
ghost use Rattle.flow_graph.specs.System.{IsWellOwned};
ghost use Rattle.flow_graph.specs.Unfolding.{NamesElementsIn};
ghost use Rattle.match_summary.specs.Summary.{Summarises};
ghost use Rattle.lattice_solver.specs.Solution.{IsSolved};

use crate::building::{graph_of, lattices_of};
use crate::case::{Answers, Case};
use crate::flow_unfolding::is_met;
use error_path::{Reaches, show};
use flow_graph::{FlowGraph, PathProof, PathStep, is_well_owned, names_elements};
use lattice_core::{Lattice, Lattices};
use lattice_solver::Solver;
use match_summary::{Summaries, summarise};
use path_checker::check;
use qual_base::{EdgeId, LatticeNo, NoMemory, Numbered, VarId};
use std::alloc::Global;
use std::process::Abort;
use std::test::Fail;

/// Compares the summaries with those of a system.
fn compare_matched(rt: &impl Abort, name: &str, answers: &Answers, summaries: &Summaries) {
    for (from, all) in answers.matched {
        for (v, _) in answers.reached.iter().enumerate() {
            assert!(rt; v < 1000);
            let to = v as u32;
            let holds = summaries.holds(VarId::new(*from), VarId::new(to));
            assert_eq!(rt; holds, all.contains(&to), "{name}: {from} to {to}");
            let why = summaries.why(VarId::new(*from), VarId::new(to));
            assert_eq!(rt; why.is_some(), holds, "{name}: {from} to {to}");
        }
    }
}

/// Counts the summaries of a system: there are no others than those that were compared.
fn compare_count(rt: &impl Abort, name: &str, answers: &Answers, summaries: &Summaries) {
    let mut count: usize = 0;
    for (_, all) in answers.matched {
        count = count.wrapping_add(all.len());
    }
    assert_eq!(rt; summaries.len(), count, "{name}");
}

/// Compares what reaches each variable with the answers for a system.
fn compare_reached(
    rt: &impl Abort,
    name: &str,
    answers: &Answers,
    solver: &Solver,
    lattice: &Lattice,
) {
    for (v, set) in answers.reached.iter().enumerate() {
        assert!(rt; v < 1000);
        let reached = solver.reached(VarId::new(v as u32)).number();
        assert_eq!(rt; reached, *set, "{name}: variable {v}");
    }
    for (v, elem) in answers.values.iter().enumerate() {
        assert!(rt; v < 1000);
        let value = solver.value(lattice, VarId::new(v as u32)).number();
        assert_eq!(rt; value, *elem, "{name}: variable {v}");
    }
    assert_eq!(rt; solver.reached(VarId::new(1_000_000)).number(), 0);
}

/// The path proof of a bound, none where no element exceeds it.
pub fn shown(
    alloc: Global,
    graph: &FlowGraph,
    summaries: &Summaries,
    solver: &Solver,
    lattices: &Lattices,
    lattice: &Lattice,
    bound: EdgeId,
) -> Result<Option<PathProof>, NoMemory>
    requires solved { IsSolved graph.now solver.now }
    requires summaries { Summarises graph.now solver.now.lattice summaries.now }
    requires lattice { slice_get lattices.now solver.now.lattice ≡ Some lattice.now }
    requires named { NamesElementsIn graph.now solver.now.lattice lattice.now.order }
    requires bound { bound < length graph.now.constraints }
{
    if solver.exceeded(graph, lattice, bound).is_some() {
        let mut reaches = Reaches::new(alloc);
        let proof = show(
            alloc,
            graph,
            summaries,
            solver,
            lattices,
            &mut reaches,
            bound,
        )?;
        return Ok(Some(proof));
    }
    Ok(None)
}

/// Judges the path proof of a bound: it holds, and it ends with the bound.
fn judge(
    rt: &impl Abort,
    name: &str,
    graph: &FlowGraph,
    lattices: &Lattices,
    proof: &PathProof,
    bound: u32,
) {
    assert_eq!(rt;
        check(graph, lattices, proof),
        Ok(()),
        "{name}: bound {bound}"
    );
    let last = match proof.main.last() {
        Some(PathStep::Take { edge, line: _ }) => Some(edge.number()),
        _ => None,
    };
    assert_eq!(rt; last, Some(bound), "{name}");
}

/// Compares the exceeded bounds with those of a system and judges their path proofs. Says whether there is none.
fn compare_exceeded(
    rt: &impl Abort,
    alloc: Global,
    name: &str,
    answers: &Answers,
    graph: &FlowGraph,
    summaries: &Summaries,
    solver: &Solver,
    lattices: &Lattices,
    lattice: &Lattice,
) -> Result<bool, Fail>
    requires owned { IsWellOwned graph.now }
    requires solved { IsSolved graph.now solver.now }
    requires summaries { Summarises graph.now solver.now.lattice summaries.now }
    requires lattice { slice_get lattices.now solver.now.lattice ≡ Some lattice.now }
    requires named { NamesElementsIn graph.now solver.now.lattice lattice.now.order }
{
    for n in 0..graph.len() {
        let at = EdgeId::new(n);
        let proof = shown(alloc, graph, summaries, solver, lattices, lattice, at)?;
        assert_eq!(rt;
            proof.is_some(),
            answers.exceeded.contains(&n),
            "{name}: bound {n}"
        );
        if let Some(proof) = proof {
            judge(rt, name, graph, lattices, &proof, n);
        }
    }
    let first = solver.first_exceeded(graph, lattice).map(|at| at.number());
    assert_eq!(rt; first, answers.exceeded.first().copied(), "{name}");
    Ok(first.is_none())
}

/// Compares what is solved of a system in a lattice with its answers, and says whether it is accepted there.
fn compare_solved(
    rt: &impl Abort,
    alloc: Global,
    name: &str,
    answers: &Answers,
    graph: &FlowGraph,
    lattices: &Lattices,
    at: LatticeNo,
) -> Result<bool, Fail>
    requires { at < length lattices.now }
{
    assert!(rt; at.number() < 16);
    let lattice = lattices.get(at);
    let summaries = summarise(alloc, graph, at)?;
    compare_matched(rt, name, answers, &summaries);
    compare_count(rt, name, answers, &summaries);
    let mut solver = Solver::new(alloc, graph, &summaries, at)?;
    assert_eq!(rt; solver.reached(VarId::new(0)).number(), 0, "{name}");
    solver.run(graph, &summaries);
    compare_reached(rt, name, answers, &solver, lattice);
    assert!(rt; is_well_owned(graph));
    assert!(rt; names_elements(graph, at, lattice));
    compare_exceeded(
        rt, alloc, name, answers, graph, &summaries, &solver, lattices, lattice,
    )
}

/// Compares which depths are met with the answers for a system. All are where it is accepted, and else not all.
fn compare_met(
    rt: &impl Abort,
    alloc: Global,
    name: &str,
    answers: &Answers,
    graph: &FlowGraph,
    lattice: &Lattice,
    at: LatticeNo,
    accepted: bool,
) -> Result<(), Fail> {
    let mut all = true;
    for (depth, met) in answers.met.iter().enumerate() {
        assert!(rt; depth < 4);
        assert!(rt; at.number() < 16);
        let found = is_met(alloc, graph, at, lattice, depth as u32)?;
        assert_eq!(rt; found, *met, "{name} at depth {depth}");
        all = all && found;
    }
    assert_eq!(rt; all, accepted, "{name}");
    Ok(())
}

/// Compares a system with its answers, in each of its lattices.
fn compare(rt: &impl Abort, alloc: Global, case: &Case) -> Result<(), Fail> {
    let graph = graph_of(rt, alloc, case)?;
    let lattices = lattices_of(rt, alloc, case)?;
    assert_eq!(rt;
        usize::from(lattices.len()),
        case.answers.len(),
        "{}",
        case.name
    );
    for n in 0..lattices.len() {
        let at = LatticeNo::new(n);
        let answers = &case.answers[usize::from(n)];
        let accepted = compare_solved(rt, alloc, case.name, answers, &graph, &lattices, at)?;
        let lattice = lattices.get(at);
        compare_met(rt, alloc, case.name, answers, &graph, lattice, at, accepted)?;
    }
    Ok(())
}

/// Compares some systems with their answers.
pub fn compare_all(rt: &impl Abort, alloc: Global, cases: &[Case]) -> Result<(), Fail> {
    for case in cases {
        compare(rt, alloc, case)?;
    }
    Ok(())
}
