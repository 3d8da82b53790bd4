//! The path proof of an exceeded bound.

ghost use Rattle.std.specs.Prelude.{◌≡◌, ℕ, ◌<◌, length, IfOk};
ghost use Rattle.lattice_core.specs.View.{orders_of};
ghost use Rattle.flow_graph.specs.declared.constraint.Link.TheVariants.{Bound};
ghost use Rattle.flow_graph.specs.System.{IsWellOwned, Stands};
ghost use Rattle.flow_graph.specs.Unfolding.{NamesElementsIn};
ghost use Rattle.flow_graph.specs.Paths.{Lead};
ghost use Rattle.flow_graph.specs.PathProofs.{steps_of, Holds, AreApart};
ghost use Rattle.lattice_solver.specs.Solution.{Exceeds, IsSolved};
ghost use Rattle.match_summary.specs.Summary.{Summarises};
ghost use Rattle.error_path.specs.declared.search.Origin.TheVariants.{Element};
ghost use Rattle.error_path.specs.Reaches.{AreReaches, IsFound};
ghost use Rattle.error_path.specs.Shown.{BeginsOver, EndsWith, HasNoLines, InLattice};
ghost use Rattle.error_path.specs.Shown.{IsExceededBySome, IsShown};

use crate::reaches::{Found, Reaches};
use crate::steps::push_take;
use crate::sub_paths::SubPaths;
use crate::traces::trace;
use flow_graph::{FlowGraph, PathProof};
use lattice_core::Lattices;
use lattice_solver::Solver;
use match_summary::Summaries;
use qual_base::{EdgeId, Elem, LatticeNo, NoMemory, VarId};
use std::alloc::Global;

/// A bound of a lattice with its variable, and an element that leads to the variable.
#[derive(Clone, Copy)]
struct Target {
    lattice: LatticeNo,
    elem: Elem,
    at: VarId,
    bound: EdgeId,
}

/// A path proof that leads from a constant of an element to a bound. Linear in its steps and those of its sub-paths.
fn show_from(
    alloc: Global,
    graph: &FlowGraph,
    summaries: &Summaries,
    found: &Found,
    target: &Target,
) -> Result<PathProof, NoMemory>
    requires summaries { Summarises graph.now target.now.lattice summaries.now }
    requires found { IsFound graph.now found.now }
    requires lattice { found.now.lattice ≡ target.now.lattice }
    requires origin { found.now.origin ≡ Element target.now.elem }
    requires bound { (e : ℕ) × Stands graph.now target.now.lattice target.now.bound
        (Bound target.now.at target.now.lattice e) }
    requires lead { Lead graph.now target.now.lattice target.now.elem target.now.at }
    ensures { IfOk result
        (λ proof. IsShown graph.now target.now.lattice target.now.elem target.now.bound proof) }
{
    let place = found.place_of(target.at).unwrap();
    let mut subs = SubPaths::new(alloc, target.lattice);
    let mut steps = Vec::new(alloc);
    push_take(&mut steps, target.bound)?;
    trace(
        alloc,
        graph,
        summaries,
        found.queue(),
        place,
        &mut subs,
        &mut steps,
    )?;
    steps.reverse();
    Ok(PathProof {
        subs: subs.into_paths(),
        main: steps,
        end: 0,
    })
}

/// A path proof of a bound that an element exceeds: it leads from a constant of such an element to the bound, and names each
/// sub-path once. All lines are 0. Fails for want of memory alone.
///
/// The first bound that an element exceeds costs a search from the constants of that element, which `reaches` keeps for the
/// bounds that come: it takes each variable once in each phase, with a step for each constraint that begins there. The groups
/// of a site that begin at one variable are followed once in each phase, with a step for each pair from that variable, and the
/// `Leave`s of the site from one variable once; before that it goes once over all constraints. It keeps 4 bytes for each
/// variable and an item for each variable and phase that it reaches. Beside it a bound costs time and memory linear in its
/// steps and those of its sub-paths, which are made from the reasons of the summaries, each pair once.
pub fn show(
    alloc: Global,
    graph: &FlowGraph,
    summaries: &Summaries,
    solver: &Solver,
    lattices: &Lattices,
    reaches: &mut Reaches,
    bound: EdgeId,
) -> Result<PathProof, NoMemory>
    requires solved { IsSolved graph.now solver.now }
    requires summaries { Summarises graph.now solver.now.lattice summaries.now }
    requires lattice { solver.now.lattice < length lattices.now }
    requires named { InLattice lattices.now solver.now.lattice
        (NamesElementsIn graph.now solver.now.lattice) }
    requires bound { bound < length graph.now.constraints }
    requires exceeded { InLattice lattices.now solver.now.lattice
        (λ order. IsExceededBySome graph.now solver.now order bound) }
    requires kept { AreReaches graph.now reaches.old }
    ensures kept { AreReaches graph.now reaches.new }
    ensures holds { IfOk result
        (λ proof. IsWellOwned graph.now → Holds graph.now (orders_of lattices.now) proof) }
    ensures ends { IfOk result (EndsWith bound) }
    ensures begins { IfOk result (λ proof. InLattice lattices.now solver.now.lattice
        (λ order. BeginsOver graph.now solver.now order bound proof)) }
    ensures apart { IfOk result (λ proof. AreApart graph.now (steps_of proof.subs.items)) }
    ensures lines { IfOk result HasNoLines }
{
    let target = target_of(graph, solver, lattices, bound);
    let place = reaches.ask(
        alloc,
        graph,
        solver.index(),
        solver.crossings(),
        summaries,
        target.lattice,
        target.elem,
    )?;
    show_from(alloc, graph, summaries, reaches.at(place), &target)
}

/// The bound with an element that exceeds it.
fn target_of(graph: &FlowGraph, solver: &Solver, lattices: &Lattices, bound: EdgeId) -> Target
    requires solved { IsSolved graph.now solver.now }
    requires lattice { solver.now.lattice < length lattices.now }
    requires named { InLattice lattices.now solver.now.lattice
        (NamesElementsIn graph.now solver.now.lattice) }
    requires bound { bound < length graph.now.constraints }
    requires exceeded { InLattice lattices.now solver.now.lattice
        (λ order. IsExceededBySome graph.now solver.now order bound) }
    ensures lattice { result.lattice ≡ solver.now.lattice }
    ensures bound { result.bound ≡ bound }
    ensures low { result.lattice < 16 }
    ensures stands { (e : ℕ)
        × Stands graph.now solver.now.lattice bound (Bound result.at solver.now.lattice e) }
    ensures lead { Lead graph.now solver.now.lattice result.elem result.at }
    ensures exceeds { InLattice lattices.now solver.now.lattice
        (λ order. Exceeds graph.now solver.now order bound result.elem) }
{
    let lattice = lattices.get(solver.lattice());
    let elem = solver.exceeded(graph, lattice, bound).unwrap();
    let limit = graph.constraint(bound).bound_in(solver.lattice()).unwrap();
    Target {
        lattice: solver.lattice(),
        elem,
        at: limit.at,
        bound,
    }
}
