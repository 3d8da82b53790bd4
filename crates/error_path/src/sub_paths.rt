//! Sub-paths that are made from the reasons of summaries, each pair of variables once.

ghost use Rattle.std.specs.Prelude.{◌≡◌, ◌≢◌, ℕ, ◌<◌, [], ◌∷◌, ◌++◌, Some, None, OnOk, IfOk};
ghost use Rattle.std.specs.Prelude.{IfNone, IfSome, length, reverse};
ghost use Rattle.flow_graph.specs.declared.proof.PathStep.TheVariants.{Sub};
ghost use Rattle.flow_graph.specs.declared.step.Seen.TheVariants.{Through};
ghost use Rattle.flow_graph.specs.System.{System};
ghost use Rattle.flow_graph.specs.PathProofs.{look};
ghost use Rattle.match_summary.specs.Summary.{HasPair, Summarises};
ghost use Rattle.flow_graph.specs.Parts.{IsSub};
ghost use Rattle.error_path.specs.Drafts.{AddsGroup, AreDrafts, IsDraft, IsDraftAfter, IsMissing};
ghost use Rattle.error_path.specs.Drafts.{IsWritten, StayDrafts};
ghost use Rattle.error_path.specs.Made.{number_in, place_of, subs_in, Extends, IsInner, IsMade};

use crate::places::Places;
use crate::steps::{Pair, inner_ends, push_group, push_take};
use flow_graph::{FlowGraph, PathStep, SubPath};
use match_summary::{Reason, Summaries};
use qual_base::{EdgeId, LatticeNo, NoMemory, VarId};
use std::alloc::Global;

/// The number of sub-paths that a proof may have.
pub const MOST_SUB_PATHS: usize = 4_294_967_294;

/// Sub-paths in a lattice, in the order in which they were finished, and the place of each by its first and last variable.
#[derive(Drop)]
pub struct SubPaths {
    lattice: LatticeNo,
    paths: Vec<SubPath>,
    places: Places,
}

/// The steps of a sub-path that are written, from its end towards its beginning, and the variable where they begin.
#[derive(Drop)]
pub struct Draft {
    pair: Pair,
    at: VarId,
    steps: Vec<PathStep>,
}

impl Draft {
    /// No steps. Takes no memory.
    fn new(alloc: Global, pair: Pair) -> Self
        ensures pair { result.pair ≡ pair }
        ensures at { result.at ≡ pair.to }
        ensures steps { result.steps.items ≡ [] }
    {
        Draft {
            pair,
            at: pair.to,
            steps: Vec::new(alloc),
        }
    }
}

impl SubPaths {
    /// No sub-paths. Takes no memory.
    pub fn new(alloc: Global, lattice: LatticeNo) -> Self
        ensures made { (sys : System) → IsMade sys result }
        ensures lattice { result.lattice ≡ lattice }
    {
        SubPaths {
            lattice,
            paths: Vec::new(alloc),
            places: Places::new(alloc),
        }
    }

    /// The number of the sub-path from a variable to another: they count from 1. Constant time.
    fn number(&self, pair: &Pair) -> Option<u32>
        requires { (sys : System) × IsMade sys self.now }
        ensures { result ≡ number_in self.now pair.now.from pair.now.to }
    {
        match self.places.get(pair.from, pair.to) {
            Some(at) => Some(at as u32 + 1),
            None => None,
        }
    }

    /// Adds a sub-path from a variable to another. More than `MOST_SUB_PATHS` are answered as want of memory.
    fn push(&mut self, pair: Pair, steps: Vec<PathStep>) -> Result<(), NoMemory>
        ensures made { OnOk result ((sys : System) → IsMade sys self.old →
            IsSub sys self.old.lattice (subs_in self.old) pair.from pair.to steps.items →
            place_of self.old pair.from pair.to ≡ None → IsMade sys self.new) }
        ensures extends { OnOk result (Extends self.old self.new) }
        ensures here { OnOk result
            (place_of self.new pair.from pair.to ≡ Some (length self.old.paths.items)) }
        ensures others { (u v : ℕ) →
            (u ≡ pair.from → v ≢ pair.to) → place_of self.new u v ≡ place_of self.old u v }
    {
        let at = self.paths.len();
        if at >= MOST_SUB_PATHS {
            return Err(NoMemory);
        }
        match self.paths.push(SubPath { steps }) {
            Ok(()) => {}
            Err(_) => return Err(NoMemory),
        }
        self.places.insert(pair.from, pair.to, at)
    }

    /// The number of the sub-path from a variable to another, which is made if it is not there, and those that it rests on
    /// before it. Takes time and memory linear in the steps that are made.
    pub fn make(
        &mut self,
        alloc: Global,
        graph: &FlowGraph,
        summaries: &Summaries,
        pair: &Pair,
    ) -> Result<u32, NoMemory>
        requires made { IsMade graph.now self.old }
        requires summaries { Summarises graph.now self.old.lattice summaries.now }
        requires joined { HasPair summaries.now pair.now.from pair.now.to }
        ensures made { OnOk result (IsMade graph.now self.new) }
        ensures extends { OnOk result (Extends self.old self.new) }
        ensures number { IfOk result
            (λ k. look graph.now (subs_in self.new) (Sub k 0) ≡ Through pair.now.from pair.now.to) }
    {
        let mut waiting = Vec::new(alloc);
        loop {
            if let Some(number) = self.number(pair) {
                return Ok(number);
            }
            let Draft { pair, steps, .. } = self.finish(
                alloc,
                graph,
                summaries,
                &mut waiting,
                pair,
            )?;
            let mut steps = steps;
            steps.reverse();
            self.push(pair, steps)?;
        }
    }

    /// Finishes a draft of which all that it rests on is made: the last that waits, or that of a pair itself where none
    /// does, or one that these rest on. Those that rest on another wait, each before the one that it rests on.
    fn finish(
        &self,
        alloc: Global,
        graph: &FlowGraph,
        summaries: &Summaries,
        waiting: &mut Vec<Draft>,
        pair: &Pair,
    ) -> Result<Draft, NoMemory>
        requires made { IsMade graph.now self.now }
        requires summaries { Summarises graph.now self.now.lattice summaries.now }
        requires joined { HasPair summaries.now pair.now.from pair.now.to }
        requires free { place_of self.now pair.now.from pair.now.to ≡ None }
        requires waiting { AreDrafts graph.now self.now.lattice summaries.now
            (subs_in self.now) waiting.old.items }
        ensures waiting { OnOk result (AreDrafts graph.now self.now.lattice summaries.now
            (subs_in self.now) waiting.new.items) }
        ensures sub { IfOk result (λ draft. IsSub graph.now self.now.lattice
            (subs_in self.now) draft.pair.from draft.pair.to (reverse draft.steps.items)) }
        ensures joined { IfOk result
            (λ draft. HasPair summaries.now draft.pair.from draft.pair.to) }
        ensures free { IfOk result
            (λ draft. place_of self.now draft.pair.from draft.pair.to ≡ None) }
    {
        let mut draft = self.last_waiting(alloc, waiting, pair);
        loop {
            match self.write(graph, summaries, &mut draft)? {
                None => return Ok(draft),
                Some(missing) => {
                    keep(waiting, draft)?;
                    draft = Draft::new(alloc, missing);
                }
            }
        }
    }

    /// Takes the last waiting draft, or else a new one of a pair. A draft of a pair that has a sub-path by now is let go; there
    /// is none, as each that waits rests on those behind it, but nothing has to show that.
    fn last_waiting(&self, alloc: Global, waiting: &mut Vec<Draft>, pair: &Pair) -> Draft
        requires made { (sys : System) × IsMade sys self.now }
        requires free { place_of self.now pair.now.from pair.now.to ≡ None }
        ensures waiting { StayDrafts waiting.old.items waiting.new.items }
        ensures draft { IsDraftAfter waiting.old.items pair.now result }
        ensures free { place_of self.now result.pair.from result.pair.to ≡ None }
    {
        while let Some(draft) = waiting.pop() {
            if self.number(&draft.pair).is_none() {
                return draft;
            }
        }
        Draft::new(alloc, *pair)
    }

    /// Writes a draft on to its beginning. Answers none, or the pair of a group that has no sub-path yet.
    fn write(
        &self,
        graph: &FlowGraph,
        summaries: &Summaries,
        draft: &mut Draft,
    ) -> Result<Option<Pair>, NoMemory>
        requires made { IsMade graph.now self.now }
        requires summaries { Summarises graph.now self.now.lattice summaries.now }
        requires draft { IsDraft graph.now self.now.lattice summaries.now
            (subs_in self.now) draft.old }
        ensures pair { OnOk result (draft.new.pair ≡ draft.old.pair) }
        ensures whole { IfOk result
            (λ missing. IfNone missing (IsSub graph.now self.now.lattice (subs_in self.now)
            draft.old.pair.from draft.old.pair.to (reverse draft.new.steps.items))) }
        ensures draft { IfOk result (λ missing. IfSome missing (λ pair.
            IsDraft graph.now self.now.lattice summaries.now (subs_in self.now) draft.new)) }
        ensures missing { IfOk result
            (λ missing. IfSome missing (IsMissing summaries.now self.now draft.old)) }
    {
        loop {
            if let Some(missing) = self.add_part(graph, summaries, draft)? {
                return Ok(Some(missing));
            }
            if draft.at == draft.pair.from {
                return Ok(None);
            }
        }
    }

    /// Writes the part that ends where the steps of a draft begin. Answers none, or the pair inside it where that has no
    /// sub-path yet; then nothing is written.
    fn add_part(
        &self,
        graph: &FlowGraph,
        summaries: &Summaries,
        draft: &mut Draft,
    ) -> Result<Option<Pair>, NoMemory>
        requires made { IsMade graph.now self.now }
        requires summaries { Summarises graph.now self.now.lattice summaries.now }
        requires joined { HasPair summaries.now draft.old.pair.from draft.old.at }
        ensures pair { OnOk result (draft.new.pair ≡ draft.old.pair) }
        ensures written { IfOk result (λ missing. IfNone missing (IsWritten graph.now
            self.now.lattice summaries.now (subs_in self.now) draft.old draft.new)) }
        ensures same { IfOk result (λ missing. IfSome missing (λ pair. (draft.new.at ≡ draft.old.at)
            × (draft.new.steps.items ≡ draft.old.steps.items))) }
        ensures missing { IfOk result
            (λ missing. IfSome missing (IsMissing summaries.now self.now draft.old)) }
    {
        let why = summaries.why(draft.pair.from, draft.at).unwrap();
        match why {
            Reason::Last(edge, before) => {
                push_take(&mut draft.steps, edge)?;
                draft.at = before;
                Ok(None)
            }
            Reason::Group {
                before,
                enter,
                leave,
            } => {
                match self.add_group(graph, enter, leave, &mut draft.steps)? {
                    Some(inner) => Ok(Some(inner)),
                    None => {
                        draft.at = before;
                        Ok(None)
                    }
                }
            }
        }
    }

    /// Writes a group. Answers none, or the pair inside it where that has no sub-path yet; then nothing is written.
    fn add_group(
        &self,
        graph: &FlowGraph,
        enter: EdgeId,
        leave: EdgeId,
        steps: &mut Vec<PathStep>,
    ) -> Result<Option<Pair>, NoMemory>
        requires made { IsMade graph.now self.now }
        requires enter { enter < length graph.now.constraints }
        requires leave { leave < length graph.now.constraints }
        ensures written { IfOk result (λ missing. IfNone missing (AddsGroup graph.now
            self.now.lattice (subs_in self.now) enter leave steps.old.items steps.new.items)) }
        ensures same { IfOk result
            (λ missing. IfSome missing (λ pair. steps.new.items ≡ steps.old.items)) }
        ensures missing { IfOk result (λ missing. IfSome missing (λ pair. IsInner graph.now enter
            leave pair × (pair.from ≢ pair.to) × (place_of self.now pair.from pair.to ≡ None))) }
    {
        let inner = inner_ends(graph, enter, leave);
        if inner.from == inner.to {
            push_group(steps, enter, None, leave)?;
            return Ok(None);
        }
        match self.number(&inner) {
            Some(number) => {
                push_group(steps, enter, Some(number), leave)?;
                Ok(None)
            }
            None => Ok(Some(inner)),
        }
    }

    /// The sub-paths in order.
    pub fn into_paths(self) -> Vec<SubPath>
        ensures { result.items ≡ self.paths.items }
    {
        self.paths
    }
}

/// Adds a draft to those that wait.
fn keep(waiting: &mut Vec<Draft>, draft: Draft) -> Result<(), NoMemory>
    ensures { OnOk result (waiting.new.items ≡ waiting.old.items ++ draft ∷ []) }
{
    match waiting.push(draft) {
        Ok(()) => Ok(()),
        Err(_) => Err(NoMemory),
    }
}
