//! Matched paths and solutions of all lattices.

ghost use Rattle.std.specs.Prelude.{◌≡◌, ◌<◌, IfOk, Some, length, slice_get};
ghost use Rattle.annotate.specs.Solutions.{IsSolution, AreSolutions};

use flow_graph::FlowGraph;
use lattice_core::Lattices;
use lattice_solver::Solver;
use match_summary::{Summaries, summarise};
use qual_base::{LatticeNo, NoMemory};
use std::alloc::Global;

/// What is found of a lattice: the matched paths inside functions, and the constants that reach each variable.
#[derive(Drop)]
pub struct Solved {
    pub summaries: Summaries,
    pub solver: Solver,
}

/// What is found of one lattice.
fn solve(alloc: Global, graph: &FlowGraph, lattice: LatticeNo) -> Result<Solved, NoMemory>
    requires { lattice < 16 }
    ensures { IfOk result (IsSolution graph.now lattice) }
{
    let summaries = summarise(alloc, graph, lattice)?;
    let mut solver = Solver::new(alloc, graph, &summaries, lattice)?;
    solver.run(graph, &summaries);
    Ok(Solved { summaries, solver })
}

/// What is found of each lattice, in order.
pub fn solve_all(
    alloc: Global,
    graph: &FlowGraph,
    lattices: &Lattices,
) -> Result<Vec<Solved>, NoMemory>
    ensures { IfOk result (λ solutions. AreSolutions graph.now lattices.now solutions.items) }
{
    let mut solutions = Vec::new(alloc);
    for n in 0..lattices.len() {
        solutions.push(solve(alloc, graph, LatticeNo::new(n))?)?;
    }
    Ok(solutions)
}

/// What was found of a lattice.
pub fn solved_of(solutions: &[Solved], lattice: LatticeNo) -> &Solved
    requires { lattice < length solutions.now }
    ensures { slice_get solutions.now lattice ≡ Some result.now }
{
    &solutions[usize::from(lattice.number())]
}
