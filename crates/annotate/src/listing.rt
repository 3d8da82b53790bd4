//! What the accepted report lists.

ghost use Rattle.std.specs.Prelude.{◌≡◌, ◌<◌, IfOk, OnOk, Some, length, slice_get};
ghost use Rattle.lattice_core.specs.View.{LatticeView};
ghost use Rattle.lattice_solver.specs.Solution.{IsKept};
ghost use Rattle.annotate.specs.Solutions.{Adds, AreKept, AreSolutions, IsListedIn};
ghost use Rattle.annotate.specs.Reports.{Listings, VarListings};

use crate::scene::Scene;
use crate::solving::{Solved, solved_of};
use flow_graph::FlowGraph;
use lattice_solver::Solver;
use qual_base::{Elem, LatticeNo, NoMemory, VarId};
use std::alloc::Global;

/// An element of a variable in a lattice, which the accepted report has a line for.
#[derive(Clone, Copy)]
pub struct Listing {
    pub var: VarId,
    pub lattice: LatticeNo,
    pub elem: Elem,
}

/// Lists the least element of a variable in a lattice, unless it is the bottom.
fn list_in(
    list: &mut Vec<Listing>,
    scene: &Scene<'_>,
    graph: &FlowGraph,
    solver: &Solver,
    number: LatticeNo,
    var: VarId,
) -> Result<(), NoMemory>
    requires there { number < length scene.now.lattices.now }
    requires lattice { solver.now.lattice ≡ number }
    requires kept { (view : LatticeView) → slice_get scene.now.lattices.now number ≡ Some view →
        IsKept graph.now solver.now view.order }
    ensures { OnOk result (Adds list.old.items list.new.items
        (IsListedIn scene.now.lattices.now graph.now number var)) }
{
    let lattice = scene.lattices.get(number);
    lattice.law();
    let elem = solver.value(lattice, var);
    if elem == lattice.bottom() {
        return Ok(());
    }
    list.push(Listing {
        var,
        lattice: number,
        elem,
    })?;
    Ok(())
}

/// Lists what a variable has in all lattices, in order.
fn list_var(
    list: &mut Vec<Listing>,
    scene: &Scene<'_>,
    graph: &FlowGraph,
    solutions: &[Solved],
    var: VarId,
) -> Result<(), NoMemory>
    requires solutions { AreSolutions graph.now scene.now.lattices.now solutions.now }
    requires kept { AreKept graph.now scene.now.lattices.now solutions.now }
    ensures { OnOk result (Adds list.old.items list.new.items
        (VarListings scene.now.lattices.now graph.now var (length scene.now.lattices.now))) }
{
    for n in 0..scene.lattices.len() {
        let number = LatticeNo::new(n);
        let solved = solved_of(solutions, number);
        list_in(list, scene, graph, &solved.solver, number, var)?;
    }
    Ok(())
}

/// What the accepted report lists, in its order: linear in the variables and lattices. 12 bytes for each.
pub fn list_all(
    alloc: Global,
    scene: &Scene<'_>,
    graph: &FlowGraph,
    solutions: &[Solved],
) -> Result<Vec<Listing>, NoMemory>
    requires solutions { AreSolutions graph.now scene.now.lattices.now solutions.now }
    requires kept { AreKept graph.now scene.now.lattices.now solutions.now }
    ensures { IfOk result (λ list.
        Listings scene.now.lattices.now graph.now scene.now.listed.now list.items) }
{
    let mut list = Vec::new(alloc);
    for var in scene.listed {
        list_var(&mut list, scene, graph, solutions, *var)?;
    }
    Ok(list)
}
