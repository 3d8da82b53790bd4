//! The lines of path proofs.

ghost use Rattle.std.specs.Prelude.{◌≡◌, ◌++◌, codes, slice_get, OnOk};
ghost use Rattle.std.specs.Fmt.{decimal};
ghost use Rattle.flow_graph.specs.PathProofs.{steps_of};
ghost use Rattle.annotate.specs.Texts.{line, constraint_text, step_text, steps_text, subs_text};
ghost use Rattle.annotate.specs.Texts.{proof_text, taken, walk_text};
ghost use Rattle.annotate.specs.Scenes.{Writes};

use crate::places::{put, put_decimal};
use crate::scene::Scene;
use crate::texts::put_constraint;
use flow_graph::{Constraint, FlowGraph, PathProof, PathStep, SubPath, Walk};
use qual_base::{EdgeId, NoMemory, Numbered};
use std::alloc::AllocError;

/// A constraint by its number, none past the last.
fn constraint_of(graph: &FlowGraph, at: EdgeId) -> Option<Constraint>
    ensures { result ≡ slice_get graph.now.constraints at }
{
    if at.number() < graph.len() {
        Some(graph.constraint(at))
    } else {
        None
    }
}

/// The line of a step that takes a constraint; nothing where there is no such constraint.
fn put_take(
    out: &mut Vec<u8>,
    scene: &Scene<'_>,
    graph: &FlowGraph,
    at: EdgeId,
) -> Result<(), NoMemory>
    ensures { OnOk result (Writes scene.now out.old.items out.new.items
        (λ s. constraint_text s at (slice_get graph.now.constraints at))) }
{
    match constraint_of(graph, at) {
        Some(constraint) => put_constraint(out, scene, at, &constraint),
        None => Ok(()),
    }
}

/// The line of a step that goes through a sub-path.
fn put_through(out: &mut Vec<u8>, number: u32) -> Result<(), AllocError>
    ensures { OnOk result
        (out.new.items ≡ out.old.items ++ line (codes "  sub " ++ decimal number)) }
{
    put(out, b"  sub ")?;
    put_decimal(out, u64::from(number))?;
    put(out, b"\n")
}

/// The line of a step.
fn put_step(
    out: &mut Vec<u8>,
    scene: &Scene<'_>,
    graph: &FlowGraph,
    step: &PathStep,
) -> Result<(), NoMemory>
    ensures { OnOk result (Writes scene.now out.old.items out.new.items
        (λ s. step_text s graph.now step.now)) }
{
    match step {
        PathStep::Take { edge, .. } => put_take(out, scene, graph, *edge),
        PathStep::Sub { number, .. } => Ok(put_through(out, *number)?),
    }
}

/// The lines of steps, in order.
fn put_steps(
    out: &mut Vec<u8>,
    scene: &Scene<'_>,
    graph: &FlowGraph,
    steps: &[PathStep],
) -> Result<(), NoMemory>
    ensures { OnOk result (Writes scene.now out.old.items out.new.items
        (λ s. steps_text s graph.now steps.now)) }
{
    for step in steps {
        put_step(out, scene, graph, step)?;
    }
    Ok(())
}

/// The line above a sub-path.
fn put_heading(out: &mut Vec<u8>, number: u64) -> Result<(), AllocError>
    ensures { OnOk result (out.new.items ≡ out.old.items ++ line (codes "sub " ++ decimal number)) }
{
    put(out, b"sub ")?;
    put_decimal(out, number)?;
    put(out, b"\n")
}

/// The lines of sub-paths, which count from 1.
fn put_subs(
    out: &mut Vec<u8>,
    scene: &Scene<'_>,
    graph: &FlowGraph,
    subs: &[SubPath],
) -> Result<(), NoMemory>
    ensures { OnOk result (Writes scene.now out.old.items out.new.items
        (λ s. subs_text s graph.now 1 (steps_of subs.now))) }
{
    for n in 0..subs.len() {
        put_heading(out, n as u64 + 1)?;
        put_steps(out, scene, graph, &subs[n].steps)?;
    }
    Ok(())
}

/// The lines of a path proof: its sub-paths, and then its main path.
pub fn put_proof(
    out: &mut Vec<u8>,
    scene: &Scene<'_>,
    graph: &FlowGraph,
    proof: &PathProof,
) -> Result<(), NoMemory>
    ensures { OnOk result (Writes scene.now out.old.items out.new.items
        (λ s. proof_text s graph.now (steps_of proof.now.subs.items) proof.now.main.items)) }
{
    put_subs(out, scene, graph, &proof.subs)?;
    put(out, b"path\n")?;
    put_steps(out, scene, graph, &proof.main)
}

/// The line of a constraint beside the steps of a walk, where there is one.
fn put_beside(
    out: &mut Vec<u8>,
    scene: &Scene<'_>,
    graph: &FlowGraph,
    beside: Option<EdgeId>,
) -> Result<(), NoMemory>
    ensures { OnOk result (Writes scene.now out.old.items out.new.items
        (λ s. steps_text s graph.now (taken beside))) }
{
    match beside {
        Some(at) => put_take(out, scene, graph, at),
        None => Ok(()),
    }
}

/// The lines of a walk: its sub-paths, the line `path`, the constraint that it goes on from, where there is one, its steps, and
/// the constraint that it leads to, where there is one. Linear in its text, and in the paths of the variables that it names.
pub fn put_walk(
    out: &mut Vec<u8>,
    scene: &Scene<'_>,
    graph: &FlowGraph,
    walk: &Walk,
    begin: Option<EdgeId>,
    bound: Option<EdgeId>,
) -> Result<(), NoMemory>
    ensures { OnOk result (Writes scene.now out.old.items out.new.items
        (λ s. walk_text s graph.now begin bound walk.now)) }
{
    put_subs(out, scene, graph, &walk.subs)?;
    put(out, b"path\n")?;
    put_beside(out, scene, graph, begin)?;
    put_steps(out, scene, graph, &walk.steps)?;
    put_beside(out, scene, graph, bound)
}
