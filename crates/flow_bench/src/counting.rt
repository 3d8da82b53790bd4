//! What is found of a system.

ghost use Rattle.std.specs.Prelude.{◌≡◌, Some, slice_get};
ghost use Rattle.flow_graph.specs.Unfolding.{NamesElementsIn};
ghost use Rattle.match_summary.specs.Summary.{Summarises};
ghost use Rattle.lattice_solver.specs.Solution.{IsSolved};

use crate::failure::Failure;
use crate::words::Goal;
use error_path::{Reaches, show};
use flow_graph::{FlowGraph, PathProof, is_well_owned, names_elements};
use lattice_core::{Deref, Entry, Lattice, Lattices, Level, Name, Pair, Sign};
use lattice_solver::Solver;
use match_summary::{Summaries, summarise};
use qual_base::{EdgeId, LatticeNo, Numbered};
use std::alloc::Global;

/// How many there are of each; 0 for what a run did not go to.
#[derive(Clone, Copy, Debug)]
pub struct Counts {
    pub constraints: u32,
    pub variables: u32,
    pub pairs: usize,
    pub exceeded: u32,
    pub steps: usize,
}

/// An element with a name of one letter.
fn entry(alloc: Global, letter: u8) -> Result<Entry, Failure> {
    Ok(Entry {
        name: Name::new(vec![in alloc; letter]?),
        level: Level::Value,
        sign: Sign::Eq,
        write: false,
        deref: Deref::No,
    })
}

/// A lattice of two elements, the second above.
fn two(alloc: Global) -> Result<Lattice, Failure> {
    let mut entries = Vec::new(alloc);
    entries.push(entry(alloc, b'a')?)?;
    entries.push(entry(alloc, b'b')?)?;
    let mut pairs = Vec::new(alloc);
    pairs.push(Pair {
        low: Name::new(vec![in alloc; b'a']?),
        high: Name::new(vec![in alloc; b'b']?),
    })?;
    if entries.is_empty() {
        return Err(Failure::Unfit);
    }
    Ok(Lattice::build(alloc, entries, pairs.as_slice())?)
}

/// How many bounds are exceeded.
fn exceeded(graph: &FlowGraph, solver: &Solver, lattice: &Lattice) -> u32
    requires solved { IsSolved graph.now solver.now }
    requires named { NamesElementsIn graph.now solver.now.lattice lattice.now.order }
{
    let mut count: u32 = 0;
    for n in 0..graph.len() {
        if solver.exceeded(graph, lattice, EdgeId::new(n)).is_some() {
            count = count.wrapping_add(1);
        }
    }
    count
}

/// How many steps a path proof has, those of sub-paths among them.
fn steps_of(proof: &PathProof) -> usize {
    let mut count = proof.main.len();
    for sub in &proof.subs {
        count = count.wrapping_add(sub.steps.len());
    }
    count
}

/// How many steps the path proof of the first exceeded bound has; 0 where there is no such bound.
fn steps(
    alloc: Global,
    graph: &FlowGraph,
    summaries: &Summaries,
    solver: &Solver,
    lattices: &Lattices,
    lattice: &Lattice,
) -> Result<usize, Failure>
    requires solved { IsSolved graph.now solver.now }
    requires summaries { Summarises graph.now solver.now.lattice summaries.now }
    requires lattice { slice_get lattices.now solver.now.lattice ≡ Some lattice.now }
    requires named { NamesElementsIn graph.now solver.now.lattice lattice.now.order }
{
    for n in 0..graph.len() {
        let at = EdgeId::new(n);
        if solver.exceeded(graph, lattice, at).is_some() {
            let mut reaches = Reaches::new(alloc);
            let proof = show(alloc, graph, summaries, solver, lattices, &mut reaches, at)?;
            return Ok(steps_of(&proof));
        }
    }
    Ok(0)
}

/// Counts of a system in a lattice of two elements.
pub fn count(alloc: Global, graph: &FlowGraph, goal: Goal) -> Result<Counts, Failure> {
    if !is_well_owned(graph) {
        return Err(Failure::Unfit);
    }
    let first = LatticeNo::new(0);
    let summaries = summarise(alloc, graph, first)?;
    let mut counts = Counts {
        constraints: graph.len(),
        variables: graph.vars(),
        pairs: summaries.len(),
        exceeded: 0,
        steps: 0,
    };
    if goal == Goal::Closure {
        return Ok(counts);
    }
    let mut lattices = Lattices::new(alloc);
    lattices.push(two(alloc)?)?;
    if lattices.len() == 0 {
        return Err(Failure::Unfit);
    }
    let lattice = lattices.get(first);
    if !names_elements(graph, first, lattice) {
        return Err(Failure::Unfit);
    }
    let mut solver = Solver::new(alloc, graph, &summaries, first)?;
    solver.run(graph, &summaries);
    counts.exceeded = exceeded(graph, &solver, lattice);
    if goal == Goal::Show {
        counts.steps = steps(alloc, graph, &summaries, &solver, &lattices, lattice)?;
    }
    Ok(counts)
}
