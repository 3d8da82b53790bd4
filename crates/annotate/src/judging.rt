//! Whether a program is accepted, and its report.

ghost use Rattle.std.specs.Prelude.{◌≡◌, ◌<◌, IfOk, IfSome, IfNone, length};
ghost use Rattle.flow_graph.specs.System.{IsWellOwned};
ghost use Rattle.flow_graph.specs.Unfolding.{IsAccepted};
ghost use Rattle.lattice_core.specs.View.{orders_of};
ghost use Rattle.annotate.specs.Scenes.{Shows};
ghost use Rattle.annotate.specs.Solutions.{AllNamed, AreKept, AreSolutions};
ghost use Rattle.annotate.specs.Solutions.{CountsOver, IsFirstOver, earlier};
ghost use Rattle.annotate.specs.Reports.{ErrorCount, IsJudged, IsJudgedWith};

use crate::reports::{accepted, over_in, rejected};
use crate::scene::Scene;
use crate::solving::{Solved, solve_all, solved_of};
use flow_graph::FlowGraph;
use flow_laws::exceeded_is_refuted;
use qual_base::{EdgeId, LatticeNo, NoMemory, Numbered, UnitNo};
use std::alloc::Global;

/// Whether a program is accepted, and its whole report.
#[derive(Drop)]
pub struct Judged {
    pub accepted: bool,
    pub text: Vec<u8>,
}

/// The earlier of two constraints, each of which may not be there.
fn earlier(one: Option<EdgeId>, other: Option<EdgeId>) -> Option<EdgeId>
    ensures { result ≡ earlier one other }
{
    match one {
        None => other,
        Some(first) => match other {
            None => Some(first),
            Some(second) => {
                if second.number() < first.number() {
                    Some(second)
                } else {
                    Some(first)
                }
            }
        },
    }
}

/// The first constraint that is an exceeded bound of some lattice. Linear in the constraints and the lattices.
fn first_exceeded(scene: &Scene<'_>, graph: &FlowGraph, solutions: &[Solved]) -> Option<EdgeId>
    requires named { AllNamed scene.now.lattices.now graph.now }
    requires owned { IsWellOwned graph.now }
    requires solutions { AreSolutions graph.now scene.now.lattices.now solutions.now }
    ensures over { IfSome result (IsFirstOver scene.now graph.now) }
    ensures kept { IfNone result (AreKept graph.now scene.now.lattices.now solutions.now) }
{
    let mut first = None;
    for n in 0..scene.lattices.len() {
        let number = LatticeNo::new(n);
        let solved = solved_of(solutions, number);
        let found = solved
            .solver
            .first_exceeded(graph, scene.lattices.get(number));
        first = earlier(first, found);
    }
    first
}

/// The report of a program whose constraints are there, and behind an accepted one the annotated source of a unit, if it is
/// asked for: the line `annotated`, and the bytes of the unit with a comment right behind each token that the report names.
/// Each lattice is solved once. The accepted report takes time linear in its text, in the variables that it lists times the
/// lattices, in the units of each name and in the path of each position; the annotated source is linear besides, and takes 24
/// bytes of memory for each token; the rejected report takes a search for each element of a lattice that exceeds a bound. A text is not longer than
/// memory.
///
/// Any variables may be listed. Of a unit that is not there the line stands alone.
pub fn judge_with(
    alloc: Global,
    scene: &Scene<'_>,
    graph: &FlowGraph,
    annotated: Option<UnitNo>,
) -> Result<Judged, NoMemory>
    requires named { AllNamed scene.now.lattices.now graph.now }
    requires owned { IsWellOwned graph.now }
    ensures { IfOk result (λ judged. (s : _) → Shows scene.now s →
        IsJudgedWith s graph.now annotated judged.accepted judged.text.items) }
{
    let solutions = solve_all(alloc, graph, scene.lattices)?;
    if let Some(first) = first_exceeded(scene, graph, &solutions) {
        let text = rejected(alloc, scene, graph, &solutions, first)?;
        return Ok(Judged {
            accepted: false,
            text,
        });
    }
    let text = accepted(alloc, scene, graph, &solutions, annotated)?;
    Ok(Judged {
        accepted: true,
        text,
    })
}

/// The report of a program whose constraints are there, alone.
pub fn judge(alloc: Global, scene: &Scene<'_>, graph: &FlowGraph) -> Result<Judged, NoMemory>
    requires named { AllNamed scene.now.lattices.now graph.now }
    requires owned { IsWellOwned graph.now }
    ensures { IfOk result (λ judged. (s : _) → Shows scene.now s →
        IsJudged s graph.now judged.accepted judged.text.items) }
{
    judge_with(alloc, scene, graph, None)
}

/// How many constraints are exceeded bounds, of which this is the first. Linear in the constraints, with at most 64 steps for
/// each, and takes no memory.
fn count_over(scene: &Scene<'_>, graph: &FlowGraph, solutions: &[Solved], first: EdgeId) -> u32
    requires named { AllNamed scene.now.lattices.now graph.now }
    requires owned { IsWellOwned graph.now }
    requires solutions { AreSolutions graph.now scene.now.lattices.now solutions.now }
    requires first { IsFirstOver scene.now graph.now first }
    ensures { CountsOver scene.now graph.now (length graph.now.constraints) result }
{
    let mut count = 0;
    for n in first.number()..graph.len() {
        if over_in(scene, graph, solutions, EdgeId::new(n)).is_some() {
            count += 1;
        }
    }
    count
}

/// How many bounds of a program are exceeded: 0 exactly where it is accepted, at most as many as it has constraints. Each
/// lattice is solved once; beside that, linear in the constraints times the lattices.
pub fn count_errors(alloc: Global, scene: &Scene<'_>, graph: &FlowGraph) -> Result<u32, NoMemory>
    requires named { AllNamed scene.now.lattices.now graph.now }
    requires owned { IsWellOwned graph.now }
    ensures count { IfOk result (λ count. (s : _) → Shows scene.now s →
        ErrorCount s graph.now (length graph.now.constraints) count) }
    ensures accepted { IfOk result (λ count. count ≡ 0 → (s : _) → Shows scene.now s →
        IsAccepted graph.now (orders_of s.lattices)) }
    ensures rejected { IfOk result (λ count. 0 < count → (s : _) → Shows scene.now s →
        IsAccepted graph.now (orders_of s.lattices) → ⊥) }
{
    exceeded_is_refuted();
    let solutions = solve_all(alloc, graph, scene.lattices)?;
    // asked as `judge_with` asks it, so that none are counted exactly where that accepts
    match first_exceeded(scene, graph, &solutions) {
        Some(first) => Ok(count_over(scene, graph, &solutions, first)),
        None => Ok(0),
    }
}
