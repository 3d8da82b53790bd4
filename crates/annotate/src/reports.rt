//! The two reports of a program.

ghost use Rattle.std.specs.Prelude.{◌≡◌, ◌<◌, ◌++◌, ◌*◌, ◌≤◌, ◌^◌, ℕ, List, IfOk, OnOk};
ghost use Rattle.std.specs.Prelude.{IfSome, IfNone, MatchOption, length, slice_get, true, Some};
ghost use Rattle.flow_graph.specs.declared.constraint.Link.TheVariants.{Const, Bound};
ghost use Rattle.flow_graph.specs.declared.proof.PathStep.TheVariants.{Take};
ghost use Rattle.flow_graph.specs.PathProofs.{first_of};
ghost use Rattle.flow_graph.specs.System.{IsWellOwned};
ghost use Rattle.error_path.specs.Reaches.{AreReaches};
ghost use Rattle.annotate.specs.Texts.{listing_line, listing_lines, accepted_text};
ghost use Rattle.annotate.specs.Annotated.{annotation};
ghost use Rattle.annotate.specs.Scenes.{Shows, Writes, WritesSome};
ghost use Rattle.annotate.specs.Solutions.{AllNamed, AreKept, AreSolutions};
ghost use Rattle.annotate.specs.Solutions.{IsNoBound, IsOverIn, IsFirstOver};
ghost use Rattle.annotate.specs.Reports.{IsOver, IsError, IsErrorOf, Errors};
ghost use Rattle.annotate.specs.Reports.{IsJudgedWith, IsRejectedReport};

use crate::annotated::put_annotated;
use crate::listing::{Listing, list_all};
use crate::paths::put_proof;
use crate::places::put;
use crate::scene::Scene;
use crate::solving::{Solved, solved_of};
use crate::texts::{put_error, put_value};
use error_path::{Reaches, show};
use flow_graph::{Constraint, FlowGraph, Link, PathStep};
use flow_laws::exceeded_is_refuted;
use qual_base::{EdgeId, Elem, LatticeNo, NoMemory, Numbered, UnitNo};
use std::alloc::Global;

/// The line of an element that is listed.
fn put_listing(out: &mut Vec<u8>, scene: &Scene<'_>, listing: &Listing) -> Result<(), NoMemory>
    ensures { OnOk result (Writes scene.now out.old.items out.new.items
        (λ s. listing_line s listing.now)) }
{
    put_value(out, scene, listing.lattice, listing.var, listing.elem)
}

/// The lines of all that is listed.
fn put_listings(out: &mut Vec<u8>, scene: &Scene<'_>, listings: &[Listing]) -> Result<(), NoMemory>
    ensures { OnOk result (Writes scene.now out.old.items out.new.items
        (λ s. listing_lines s listings.now)) }
{
    for listing in listings {
        put_listing(out, scene, listing)?;
    }
    Ok(())
}

/// The accepted report of what is listed. Linear in its text, but for the places of the lines.
fn put_accepted(out: &mut Vec<u8>, scene: &Scene<'_>, listings: &[Listing]) -> Result<(), NoMemory>
    ensures { OnOk result (Writes scene.now out.old.items out.new.items
        (λ s. accepted_text s listings.now)) }
{
    put(out, b"accepted\n")?;
    put_listings(out, scene, listings)
}

/// What stands behind an accepted report: the annotated source of a unit, if it is asked for.
fn put_annotation(
    alloc: Global,
    out: &mut Vec<u8>,
    scene: &Scene<'_>,
    unit: Option<UnitNo>,
    listings: &[Listing],
) -> Result<(), NoMemory>
    ensures { OnOk result (Writes scene.now out.old.items out.new.items
        (λ s. annotation s unit listings.now)) }
{
    match unit {
        Some(unit) => put_annotated(alloc, out, scene, unit, listings),
        None => Ok(()),
    }
}

/// The accepted report, with the annotated source of a unit behind it, if it is asked for: linear in variables and lattices
/// and in the texts, but for the places of the lines and the paths of positions.
pub fn accepted(
    alloc: Global,
    scene: &Scene<'_>,
    graph: &FlowGraph,
    solutions: &[Solved],
    unit: Option<UnitNo>,
) -> Result<Vec<u8>, NoMemory>
    requires solutions { AreSolutions graph.now scene.now.lattices.now solutions.now }
    requires kept { AreKept graph.now scene.now.lattices.now solutions.now }
    ensures { IfOk result
        (λ text. (s : _) → Shows scene.now s → IsJudgedWith s graph.now unit true text.items) }
{
    let listings = list_all(alloc, scene, graph, solutions)?;
    let mut text = Vec::new(alloc);
    put_accepted(&mut text, scene, &listings)?;
    put_annotation(alloc, &mut text, scene, unit, &listings)?;
    Ok(text)
}

/// The lattice of a constraint that is a bound.
fn lattice_of(constraint: &Constraint) -> Option<LatticeNo>
    ensures { MatchOption result (IsNoBound constraint.now.link)
        (λ lattice. (v : ℕ) × (limit : ℕ) × (constraint.now.link ≡ Bound v lattice limit)) }
{
    match constraint.link {
        Link::Bound(_, lattice, _) => Some(lattice),
        _ => None,
    }
}

/// The constraint that a path begins with.
fn first_edge(main: &[PathStep]) -> EdgeId
    requires { (number : ℕ) × (line : ℕ) × (first_of main.now ≡ Some (Take number line)) }
    ensures { (number line : ℕ) → first_of main.now ≡ Some (Take number line) → result ≡ number }
{
    match main {
        [PathStep::Take { edge, .. }, ..] => *edge,
        _ => unreachable!(),
    }
}

/// The element of a constraint that is a constant.
fn elem_of(constraint: &Constraint) -> Elem
    requires { (lattice : ℕ) × (elem : ℕ) × (v : ℕ) × (constraint.now.link ≡ Const lattice elem v) }
    ensures { (lattice : ℕ) × (v : ℕ) × (constraint.now.link ≡ Const lattice result v) }
{
    match constraint.link {
        Link::Const(_, elem, _) => elem,
        _ => unreachable!(),
    }
}

/// The error of an exceeded bound: a line with an element that exceeds it, and a path from a constant of the element.
fn put_exceeded(
    alloc: Global,
    out: &mut Vec<u8>,
    scene: &Scene<'_>,
    graph: &FlowGraph,
    solved: &Solved,
    reaches: &mut Reaches,
    bound: EdgeId,
) -> Result<(), NoMemory>
    requires owned { IsWellOwned graph.now }
    requires exceeds { IsOverIn scene.now.lattices.now graph.now solved.now bound }
    requires kept { AreReaches graph.now reaches.old }
    ensures kept { AreReaches graph.now reaches.new }
    ensures error { OnOk result (WritesSome scene.now out.old.items out.new.items
        (λ s error. IsError s graph.now bound error)) }
{
    scene.lattices.law();
    let proof = show(
        alloc,
        graph,
        &solved.summaries,
        &solved.solver,
        scene.lattices,
        reaches,
        bound,
    )?;
    let constraint = graph.constraint(bound);
    let start = graph.constraint(first_edge(&proof.main));
    let elem = elem_of(&start);
    let lattice = solved.solver.lattice();
    let limit = constraint.bound_in(lattice).unwrap();
    put_error(out, scene, lattice, elem, limit.elem, &constraint.span)?;
    put_proof(out, scene, graph, &proof)?;
    Ok(())
}

/// What was found of the lattice in which a constraint is an exceeded bound, if it is one. At most 64 steps.
pub fn over_in<'a>(
    scene: &Scene<'_>,
    graph: &FlowGraph,
    solutions: &'a [Solved],
    number: EdgeId,
) -> Option<&'a Solved>
    requires named { AllNamed scene.now.lattices.now graph.now }
    requires owned { IsWellOwned graph.now }
    requires solutions { AreSolutions graph.now scene.now.lattices.now solutions.now }
    requires number { number < length graph.now.constraints }
    ensures found { IfSome result
        (λ solved. IsOverIn scene.now.lattices.now graph.now solved.now number) }
    ensures over { IfSome result
        (λ solved. (s : _) → Shows scene.now s → IsOver s graph.now number) }
    ensures none { IfNone result ((s : _) → Shows scene.now s → IsOver s graph.now number → ⊥) }
{
    let Some(lattice) = lattice_of(&graph.constraint(number)) else {
        return None;
    };
    if lattice.number() >= scene.lattices.len() {
        return None;
    }
    let solved = solved_of(solutions, lattice);
    let named = scene.lattices.get(lattice);
    match solved.solver.exceeded(graph, named, number) {
        Some(_) => Some(solved),
        None => None,
    }
}

/// The error of a constraint, if it is an exceeded bound.
fn put_error_of(
    alloc: Global,
    out: &mut Vec<u8>,
    scene: &Scene<'_>,
    graph: &FlowGraph,
    solutions: &[Solved],
    reaches: &mut Reaches,
    number: EdgeId,
) -> Result<(), NoMemory>
    requires named { AllNamed scene.now.lattices.now graph.now }
    requires owned { IsWellOwned graph.now }
    requires solutions { AreSolutions graph.now scene.now.lattices.now solutions.now }
    requires number { number < length graph.now.constraints }
    requires kept { AreReaches graph.now reaches.old }
    ensures kept { AreReaches graph.now reaches.new }
    ensures error { OnOk result (WritesSome scene.now out.old.items out.new.items
        (λ s error. IsErrorOf s graph.now number error)) }
{
    match over_in(scene, graph, solutions, number) {
        Some(solved) => put_exceeded(alloc, out, scene, graph, solved, reaches, number),
        None => Ok(()),
    }
}

/// The errors of all exceeded bounds, of which this is the first, in the order of the constraints. What each element leads to is
/// searched for once.
fn put_errors(
    alloc: Global,
    out: &mut Vec<u8>,
    scene: &Scene<'_>,
    graph: &FlowGraph,
    solutions: &[Solved],
    first: EdgeId,
) -> Result<(), NoMemory>
    requires named { AllNamed scene.now.lattices.now graph.now }
    requires owned { IsWellOwned graph.now }
    requires solutions { AreSolutions graph.now scene.now.lattices.now solutions.now }
    requires first { IsFirstOver scene.now graph.now first }
    ensures { OnOk result (WritesSome scene.now out.old.items out.new.items
        (λ s errors. Errors s graph.now (length graph.now.constraints) errors)) }
{
    let mut reaches = Reaches::new(alloc);
    for n in first.number()..graph.len() {
        let number = EdgeId::new(n);
        put_error_of(alloc, out, scene, graph, solutions, &mut reaches, number)?;
    }
    Ok(())
}

/// The rejected report of a system of which this is the first exceeded bound. It takes a search for each element of a lattice that
/// exceeds some bound; beside that its time is linear in the constraints, at most 64 steps for each, in its text, and in the places
/// of its lines.
pub fn rejected(
    alloc: Global,
    scene: &Scene<'_>,
    graph: &FlowGraph,
    solutions: &[Solved],
    first: EdgeId,
) -> Result<Vec<u8>, NoMemory>
    requires named { AllNamed scene.now.lattices.now graph.now }
    requires owned { IsWellOwned graph.now }
    requires solutions { AreSolutions graph.now scene.now.lattices.now solutions.now }
    requires first { IsFirstOver scene.now graph.now first }
    ensures { IfOk result
        (λ text. (s : _) → Shows scene.now s → IsRejectedReport s graph.now text.items) }
{
    exceeded_is_refuted();
    let mut text = Vec::new(alloc);
    put(&mut text, b"rejected\n")?;
    put_errors(alloc, &mut text, scene, graph, solutions, first)?;
    Ok(text)
}
