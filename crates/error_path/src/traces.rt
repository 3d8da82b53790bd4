//! The steps of a search from its origin to a variable that it has reached.

ghost use Rattle.std.specs.Prelude.{◌≡◌, ℕ, ◌<◌, List, length, slice_get, IfOk, IfSome, OnOk};
ghost use Rattle.std.specs.Prelude.{MatchOption, Some, reverse};
ghost use Rattle.flow_graph.specs.declared.phase.Phase.{Phase};
ghost use Rattle.flow_graph.specs.Parts.{Goal, Onward};
ghost use Rattle.match_summary.specs.Summary.{Leads, Summarises};
ghost use Rattle.error_path.specs.declared.search.Origin.{Origin};
ghost use Rattle.error_path.specs.declared.search.Reached.{Reached};
ghost use Rattle.error_path.specs.Made.{subs_in, Extends, IsMade};
ghost use Rattle.error_path.specs.Reaching.{AreSound, ComesBy, Earlier};
ghost use Rattle.error_path.specs.Traced.{IsJoinedBy, IsTraced};

use crate::search::{Cause, Reached};
use crate::steps::{Pair, inner_ends, push_group, push_take};
use crate::sub_paths::SubPaths;
use flow_graph::{FlowGraph, PathStep};
use match_summary::Summaries;
use qual_base::NoMemory;
use std::alloc::Global;

/// The number of a group's sub-path, which is made where it is not there. None where the group is empty.
fn number_of(
    alloc: Global,
    graph: &FlowGraph,
    summaries: &Summaries,
    subs: &mut SubPaths,
    inner: &Pair,
) -> Result<Option<u32>, NoMemory>
    requires made { IsMade graph.now subs.old }
    requires summaries { Summarises graph.now subs.old.lattice summaries.now }
    requires joined { Leads summaries.now inner.now.from inner.now.to }
    ensures made { OnOk result (IsMade graph.now subs.new) }
    ensures extends { OnOk result (Extends subs.old subs.new) }
    ensures number { IfOk result
        (λ number. IsJoinedBy graph.now (subs_in subs.new) number inner.now.from inner.now.to) }
{
    if inner.from == inner.to {
        return Ok(None);
    }
    let number = subs.make(alloc, graph, summaries, inner)?;
    Ok(Some(number))
}

/// Writes the steps that lead to a variable by their cause. Answers the place of the queue where they begin, and none where
/// that is the origin.
fn trace_step(
    alloc: Global,
    graph: &FlowGraph,
    summaries: &Summaries,
    cause: &Cause,
    subs: &mut SubPaths,
    steps: &mut Vec<PathStep>,
) -> Result<Option<usize>, NoMemory>
    requires made { IsMade graph.now subs.old }
    requires summaries { Summarises graph.now subs.old.lattice summaries.now }
    requires comes { (origin : Origin) × (queue : List Reached) × (place : ℕ) × (q : Phase)
        × (v : ℕ) × ComesBy graph.now
        subs.old.lattice origin summaries.now queue place q v cause.now }
    ensures made { OnOk result (IsMade graph.now subs.new) }
    ensures extends { OnOk result (Extends subs.old subs.new) }
    ensures earlier { IfOk result
        (λ next. (origin : Origin) (queue : List Reached) (place : ℕ) (q : Phase) (v : ℕ) →
        ComesBy graph.now subs.old.lattice origin summaries.now queue place q v cause.now →
        IfSome next (λ from. Earlier queue from place)) }
    ensures traced { IfOk result (λ next.
        (origin : Origin) (goal : Goal) (queue : List Reached) (place : ℕ) (q : Phase) (v : ℕ) →
        ComesBy graph.now subs.old.lattice origin summaries.now queue place q v cause.now →
        Onward graph.now subs.old.lattice (subs_in subs.old) goal q v (reverse steps.old.items) →
        MatchOption next (IsTraced graph.now subs.old.lattice (subs_in subs.new) origin goal
        (reverse steps.new.items)) (λ from. (e : Earlier queue from place) × Onward graph.now
        subs.old.lattice (subs_in subs.new) goal e.it.phase e.it.at (reverse steps.new.items))) }
{
    match cause {
        Cause::Start(edge) => {
            push_take(steps, *edge)?;
            Ok(None)
        }
        Cause::Here => Ok(None),
        Cause::Step { from, edge } => {
            push_take(steps, *edge)?;
            Ok(Some(*from))
        }
        Cause::Group { from, enter, leave } => {
            let inner = inner_ends(graph, *enter, *leave);
            let number = number_of(alloc, graph, summaries, subs, &inner)?;
            push_group(steps, *enter, number, *leave)?;
            Ok(Some(*from))
        }
    }
}

/// Writes the steps from a place of a search back to its origin, in front of steps that lead on to a goal.
pub fn trace(
    alloc: Global,
    graph: &FlowGraph,
    summaries: &Summaries,
    reached: &[Reached],
    place: usize,
    subs: &mut SubPaths,
    steps: &mut Vec<PathStep>,
) -> Result<(), NoMemory>
    requires made { IsMade graph.now subs.old }
    requires summaries { Summarises graph.now subs.old.lattice summaries.now }
    requires place { place < length reached.now }
    requires sound { (origin : Origin)
        × AreSound graph.now subs.old.lattice origin summaries.now reached.now }
    ensures made { OnOk result (IsMade graph.now subs.new) }
    ensures lattice { OnOk result (subs.new.lattice ≡ subs.old.lattice) }
    ensures path { OnOk result ((origin : Origin) (goal : Goal) (r : Reached) →
        AreSound graph.now subs.old.lattice origin summaries.now reached.now →
        slice_get reached.now place ≡ Some r → Onward graph.now
        subs.old.lattice (subs_in subs.old) goal r.phase r.at (reverse steps.old.items) → IsTraced
        graph.now subs.old.lattice (subs_in subs.new) origin goal (reverse steps.new.items)) }
{
    let mut place = place;
    loop {
        let cause = reached[place].cause;
        match trace_step(alloc, graph, summaries, &cause, subs, steps)? {
            Some(from) => place = from,
            None => return Ok(()),
        }
    }
}
