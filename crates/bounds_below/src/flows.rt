//! The bounds that each variable leads to, by turns that take one variable each and carry what it has back.

ghost use Rattle.std.specs.Prelude.{◌≡◌, ◌<◌, ◌^◌, ℕ, length, OnOk};
ghost use Rattle.flow_graph.specs.declared.constraint.Link.TheVariants.{Bound, Leave};
ghost use Rattle.flow_graph.specs.Index.{IsKeyed, link_leads_to, link_site};
ghost use Rattle.flow_graph.specs.System.{AllBelow, Stands};
ghost use Rattle.bounds_below.specs.Below.{AreBelow, set_at};
ghost use Rattle.bounds_below.specs.Carrying.{AllReach, AreBegun, AreOfSystem, AreSound, Gains};
ghost use Rattle.bounds_below.specs.Carrying.{Has, IsCarried, IsPassed};

use crate::work::Work;
use flow_graph::{Adjacency, Crossing, FlowGraph, Link};
use match_summary::{Summaries, joins};
use qual_base::{EdgeId, Elem, LatticeNo, NoMemory, Numbered, VarId};

/// A graph with its index, and the summaries of a lattice.
#[derive(Clone, Copy)]
pub struct Flows<'a> {
    pub graph: &'a FlowGraph,
    pub index: &'a Adjacency,
    pub summaries: &'a Summaries,
    pub lattice: LatticeNo,
}

/// Finds the elements of all bounds that each variable leads to, from empty sets.
pub fn saturate(work: &mut Work, flows: &Flows) -> Result<(), NoMemory>
    requires ready { AreOfSystem flows.now (length work.old.sets.items) }
    requires empty { (v : ℕ) → set_at work.old.sets.items v ≡ 0 }
    ensures { OnOk result (AreBelow flows.now.graph.now flows.now.lattice work.new.sets.items) }
{
    begin_all(work, flows)?;
    while let Some(at) = work.take() {
        carry(work, flows, at)?;
    }
    Ok(())
}

/// Adds the element of each bound to the set of its variable.
fn begin_all(work: &mut Work, flows: &Flows) -> Result<(), NoMemory>
    requires { AllBelow flows.now.graph.now (length work.old.sets.items) }
    ensures gains { OnOk result (Gains work.old work.new) }
    ensures sound { OnOk result
        (AreSound flows.now.graph.now flows.now.lattice work.old.sets.items →
        AreSound flows.now.graph.now flows.now.lattice work.new.sets.items) }
    ensures begun { OnOk result
        (AreBegun flows.now.graph.now flows.now.lattice work.new.sets.items) }
{
    for n in 0..flows.graph.len() {
        begin(work, flows, EdgeId::new(n))?;
    }
    Ok(())
}

/// Adds the element of a constraint, where that is a bound of the lattice.
fn begin(work: &mut Work, flows: &Flows, edge: EdgeId) -> Result<(), NoMemory>
    requires edge { edge < length flows.now.graph.now.constraints }
    requires below { AllBelow flows.now.graph.now (length work.old.sets.items) }
    ensures gains { OnOk result (Gains work.old work.new) }
    ensures sound { OnOk result
        (AreSound flows.now.graph.now flows.now.lattice work.old.sets.items →
        AreSound flows.now.graph.now flows.now.lattice work.new.sets.items) }
    ensures begun { OnOk result ((v b : ℕ) → Stands flows.now.graph.now flows.now.lattice edge
        (Bound v flows.now.lattice b) → Has work.new.sets.items v b) }
{
    let link = flows.graph.constraint(edge).link;
    match link {
        Link::Bound(at, named, elem) => {
            if named == flows.lattice {
                work.gain(at, only(elem))
            } else {
                Ok(())
            }
        }
        _ => Ok(()),
    }
}

/// The set of one element.
fn only(elem: Elem) -> u64
    requires { elem < 64 }
    ensures { result ≡ 2 ^ elem }
{
    1u64 << elem.number()
}

/// Carries what a variable has back along each constraint that leads to it.
fn carry(work: &mut Work, flows: &Flows, at: VarId) -> Result<(), NoMemory>
    requires { AreOfSystem flows.now (length work.old.sets.items) }
    ensures gains { OnOk result (Gains work.old work.new) }
    ensures sound { OnOk result
        (AreSound flows.now.graph.now flows.now.lattice work.old.sets.items →
        AreSound flows.now.graph.now flows.now.lattice work.new.sets.items) }
    ensures carried { OnOk result ((n : ℕ) → IsCarried flows.now.graph.now flows.now.lattice
        flows.now.summaries.now (set_at work.old.sets.items at) work.new.sets.items at n) }
{
    let had = work.set(at);
    for edge in flows.index.into(at) {
        follow(work, flows, at, had, *edge)?;
    }
    Ok(())
}

/// Carries what a variable had back along a constraint that leads to it, and round the groups that end with it.
fn follow(work: &mut Work, flows: &Flows, at: VarId, had: u64, edge: EdgeId) -> Result<(), NoMemory>
    requires ready { AreOfSystem flows.now (length work.old.sets.items) }
    requires leads { IsKeyed flows.now.graph.now link_leads_to at edge }
    ensures gains { OnOk result (Gains work.old work.new) }
    ensures sound { OnOk result (AllReach flows.now.graph.now flows.now.lattice had at →
        AreSound flows.now.graph.now flows.now.lattice work.old.sets.items →
        AreSound flows.now.graph.now flows.now.lattice work.new.sets.items) }
    ensures carried { OnOk result (IsCarried flows.now.graph.now flows.now.lattice
        flows.now.summaries.now had work.new.sets.items at edge) }
{
    let constraint = flows.graph.constraint(edge);
    if !constraint.is_in(flows.lattice) {
        return Ok(());
    }
    let link = constraint.link;
    match link {
        Link::Le(from, _) => work.gain(from, had),
        Link::Enter(_, from, _) => work.gain(from, had),
        Link::Leave(site, from, to) => {
            let back = Crossing { site, from, to };
            pass_groups(work, flows, had, edge, &back)
        }
        _ => Ok(()),
    }
}

/// Carries what a variable had back round the groups that end with a `Leave` to it.
fn pass_groups(
    work: &mut Work,
    flows: &Flows,
    had: u64,
    edge: EdgeId,
    back: &Crossing,
) -> Result<(), NoMemory>
    requires ready { AreOfSystem flows.now (length work.old.sets.items) }
    requires back { Stands flows.now.graph.now flows.now.lattice edge
        (Leave back.now.site back.now.from back.now.to) }
    ensures gains { OnOk result (Gains work.old work.new) }
    ensures sound { OnOk result (AllReach flows.now.graph.now flows.now.lattice had back.now.to →
        AreSound flows.now.graph.now flows.now.lattice work.old.sets.items →
        AreSound flows.now.graph.now flows.now.lattice work.new.sets.items) }
    ensures passed { OnOk result ((m : ℕ) → IsPassed flows.now.graph.now flows.now.lattice
        flows.now.summaries.now had work.new.sets.items back.now.site back.now.from m) }
{
    for other in flows.index.of_site(back.site) {
        pass_group(work, flows, had, edge, back, *other)?;
    }
    Ok(())
}

/// Carries what a variable had back round the group of a constraint and a `Leave` of its site, where that is an `Enter` of the
/// lattice from which nothing or a summary leads to the `Leave` inside one function.
fn pass_group(
    work: &mut Work,
    flows: &Flows,
    had: u64,
    edge: EdgeId,
    back: &Crossing,
    other: EdgeId,
) -> Result<(), NoMemory>
    requires ready { AreOfSystem flows.now (length work.old.sets.items) }
    requires back { Stands flows.now.graph.now flows.now.lattice edge
        (Leave back.now.site back.now.from back.now.to) }
    requires site { IsKeyed flows.now.graph.now link_site back.now.site other }
    ensures gains { OnOk result (Gains work.old work.new) }
    ensures sound { OnOk result (AllReach flows.now.graph.now flows.now.lattice had back.now.to →
        AreSound flows.now.graph.now flows.now.lattice work.old.sets.items →
        AreSound flows.now.graph.now flows.now.lattice work.new.sets.items) }
    ensures passed { OnOk result (IsPassed flows.now.graph.now flows.now.lattice
        flows.now.summaries.now had work.new.sets.items back.now.site back.now.from other) }
{
    let constraint = flows.graph.constraint(other);
    if !constraint.is_in(flows.lattice) {
        return Ok(());
    }
    let link = constraint.link;
    match link {
        Link::Enter(_, from, to) => {
            if joins(flows.graph, flows.summaries, to, back.from) {
                work.gain(from, had)
            } else {
                Ok(())
            }
        }
        _ => Ok(()),
    }
}
