//! The bounds below each variable.

ghost use Rattle.std.specs.Prelude.{◌≡◌, ◌<◌, IfOk};
ghost use Rattle.match_summary.specs.Summary.{Summarises};
ghost use Rattle.bounds_below.specs.Below.{AreBelow, set_at};

use crate::flows::{Flows, saturate};
use crate::work::{Work, read};
use flow_graph::{Adjacency, FlowGraph};
use match_summary::Summaries;
use qual_base::{ElemSet, LatticeNo, NoMemory, VarId};
use std::alloc::Global;
use std::marker::Model;

/// For each variable the elements of the bounds that it leads to: 8 bytes a variable. Clauses see the list of the sets.
#[derive(Drop)]
pub struct Below {
    sets: Vec<u64>,
}

impl Model for Below {
    ghost use Rattle.std.specs.Prelude.{List, ℕ};

    ghost Value = { List ℕ };

    ghost view = { λ b. b.sets.items };
}

impl Below {
    /// The elements of the bounds that a variable leads to; empty for a variable past all. Constant time.
    pub fn set(&self, at: VarId) -> ElemSet
        ensures { result ≡ set_at self.now at }
    {
        ElemSet::new(read(self.sets.as_slice(), at))
    }
}

/// The elements of the bounds of a lattice that each variable leads to: along flows, along calls, and round groups, which are a
/// call, nothing or a matched path inside the function that is called, and a return of the same site. The summaries, which may
/// begin at further variables, are of the lattice.
///
/// The sets are carried back from the bounds by a worklist. What a variable has is carried on once for each time that its set has
/// grown, which is at most once for each element: with a step for each constraint that leads to it, and for each return
/// among these a step for each call and return of its site. Memory: 8 bytes a variable and 4 for each set that has grown
/// and waits, and until it is done the index of the constraints; the list of those that wait doubles, so that it may have
/// room for twice as many.
pub fn bounds_below(
    alloc: Global,
    graph: &FlowGraph,
    lattice: LatticeNo,
    summaries: &Summaries,
) -> Result<Below, NoMemory>
    requires { Summarises graph.now lattice summaries.now }
    ensures { IfOk result (AreBelow graph.now lattice) }
{
    let index = Adjacency::build(alloc, graph)?;
    let mut work = Work::new(alloc, graph.vars())?;
    let flows = Flows {
        graph,
        index: &index,
        summaries,
        lattice,
    };
    saturate(&mut work, &flows)?;
    Ok(Below { sets: work.sets })
}
