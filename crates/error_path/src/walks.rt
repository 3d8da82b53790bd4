//! Walks from the variable of a search to those that it has reached, and lists of sub-paths.

ghost use Rattle.std.specs.Prelude.{◌≡◌, ℕ, IfOk, slice_get, Some};
ghost use Rattle.flow_graph.specs.Leading.{GoesTo};
ghost use Rattle.flow_graph.specs.Parts.{AreSubs};
ghost use Rattle.flow_graph.specs.PathProofs.{steps_of, AreApart};
ghost use Rattle.match_summary.specs.Summary.{HasPair, Summarises};
ghost use Rattle.error_path.specs.Reaches.{IsReachOf};
ghost use Rattle.error_path.specs.Traced.{HasSub, IsWalkShown};

use crate::reaches::Reach;
use crate::steps::Pair;
use crate::sub_paths::SubPaths;
use crate::traces::trace;
use flow_graph::{FlowGraph, SubPath, Walk};
use match_summary::Summaries;
use qual_base::{LatticeNo, NoMemory, VarId};
use std::alloc::Global;

impl Reach {
    /// A walk from the variable that was searched from to one that it leads to, with each sub-path once. All lines are 0, and
    /// the walk to the variable itself has no step. Fails for want of memory alone. Takes time and memory linear in its steps
    /// and those of its sub-paths, which are made from the reasons of the summaries.
    pub fn walk(
        &self,
        alloc: Global,
        graph: &FlowGraph,
        summaries: &Summaries,
        to: VarId,
    ) -> Result<Walk, NoMemory>
        requires summaries { Summarises graph.now self.now.found.lattice summaries.now }
        requires reached { (start : ℕ) × IsReachOf graph.now self.now.found.lattice start self.now
            × GoesTo graph.now self.now.found.lattice start to }
        ensures { IfOk result (λ walk. (start : ℕ) →
            IsReachOf graph.now self.now.found.lattice start self.now →
            IsWalkShown graph.now self.now.found.lattice start to walk) }
    {
        let place = self.found.place_of(to).unwrap();
        let mut subs = SubPaths::new(alloc, self.found.lattice());
        let mut steps = Vec::new(alloc);
        trace(
            alloc,
            graph,
            summaries,
            self.found.queue(),
            place,
            &mut subs,
            &mut steps,
        )?;
        steps.reverse();
        Ok(Walk {
            subs: subs.into_paths(),
            steps,
            end: 0,
        })
    }
}

/// Sub-paths for pairs of variables that summaries join: one for each pair, and before it those that it rests on. No two have
/// the same first and last variables, and all lines are 0. Fails for want of memory alone. Takes time and memory linear in
/// the pairs and in the steps that are made.
pub fn sub_paths_for(
    alloc: Global,
    graph: &FlowGraph,
    summaries: &Summaries,
    lattice: LatticeNo,
    pairs: &[(VarId, VarId)],
) -> Result<Vec<SubPath>, NoMemory>
    requires summaries { Summarises graph.now lattice summaries.now }
    requires pairs { (n u v : ℕ) → slice_get pairs.now n ≡ Some (u, v) → HasPair summaries.now u v }
    ensures subs { IfOk result (λ subs. AreSubs graph.now lattice (steps_of subs.items)) }
    ensures apart { IfOk result (λ subs. AreApart graph.now (steps_of subs.items)) }
    ensures each { IfOk result (λ subs. (n u v : ℕ) → slice_get pairs.now n ≡ Some (u, v) →
        HasSub graph.now (steps_of subs.items) u v) }
{
    let mut subs = SubPaths::new(alloc, lattice);
    for ends in pairs {
        let pair = Pair {
            from: ends.0,
            to: ends.1,
        };
        subs.make(alloc, graph, summaries, &pair)?;
    }
    Ok(subs.into_paths())
}
