//! Pairs of variables inside one function.

ghost use Rattle.std.specs.Prelude.{◌≡◌, ◌↔◌, IsTrue, IfSome, IfNone};
ghost use Rattle.qual_base.specs.declared.places.Owner.TheVariants.{Nobody, Function};
ghost use Rattle.flow_graph.specs.System.{owner_of};
ghost use Rattle.match_summary.specs.Summary.{AreOfOne, Leads};

use crate::summary::Summaries;
use flow_graph::FlowGraph;
use qual_base::{FuncId, Owner, VarId};

/// Whether the variables belong to one function, and are one or a matched path is known to lead from one to the other.
pub fn joins(graph: &FlowGraph, known: &Summaries, from: VarId, to: VarId) -> bool
    ensures { IsTrue result ↔ (Leads known.now from to × AreOfOne graph.now from to) }
{
    known.leads(from, to) && are_of_one(graph, from, to)
}

/// Whether two variables belong to one function.
pub fn are_of_one(graph: &FlowGraph, one: VarId, other: VarId) -> bool
    ensures { IsTrue result ↔ AreOfOne graph.now one other }
{
    match function_of(graph, one) {
        Some(f) => function_of(graph, other) == Some(f),
        None => false,
    }
}

/// The function that a variable belongs to.
fn function_of(graph: &FlowGraph, at: VarId) -> Option<FuncId>
    ensures some { IfSome result (λ f. owner_of graph.now at ≡ Function f) }
    ensures none { IfNone result (owner_of graph.now at ≡ Nobody) }
{
    let owner = graph.owner(at);
    match owner {
        Owner::Function(f) => Some(f),
        Owner::Nobody => None,
    }
}
