//! Pairs of variables.
#![tactic(auto, using(crate::proofs::AddingLemmas::marked_append, crate::proofs::AddingLemmas::with_append, crate::proofs::AddingLemmas::stop_front, crate::proofs::AddingLemmas::stop_back))]

ghost use Rattle.std.specs.Prelude.{◌≡◌, ◌∷◌, [], not, length, IfErr, OnOk};
ghost use Rattle.flow_graph.specs.System.{IsWithin};
ghost use Rattle.flow_graph.specs.declared.constraint.Link.TheVariants.{Le};
ghost use Rattle.qual_types.specs.Table.{IsVar, IsSomeVar};
ghost use Rattle.flow_rules.specs.Lists.{pair, both, pair_some, both_some};
ghost use Rattle.flow_rules.specs.Adding.{IsArrow, Gains, StopsIn};

use crate::arrow::{Arrow, Style};
use flow_graph::{Constraint, FlowGraph, GraphFault, Link};
use qual_base::VarId;

/// Adds one constraint.
pub fn add(graph: &mut FlowGraph, style: &Style, link: Link) -> Result<(), GraphFault>
    requires { IsWithin (length graph.old.sites) link }
    ensures ok { OnOk result (Gains graph.old graph.new style.now (link ∷ [])) }
    ensures err { IfErr result (StopsIn graph.old graph.new style.now (link ∷ [])) }
{
    let constraint = Constraint {
        link,
        lattices: style.lattices,
        span: style.span,
    };
    match graph.add(constraint) {
        Ok(_) => Ok(()),
        Err(fault) => Err(fault),
    }
}

/// The pair of a variable of the first skeleton and one of the second.
pub fn add_pair(
    graph: &mut FlowGraph,
    style: &Style,
    forward: bool,
    one: VarId,
    other: VarId,
) -> Result<(), GraphFault>
    requires arrow { IsArrow (length graph.old.sites) style.now.arrow }
    requires one { IsVar one }
    requires other { IsVar other }
    ensures ok { OnOk result
        (Gains graph.old graph.new style.now (pair style.now.arrow forward one other)) }
    ensures err { IfErr result
        (StopsIn graph.old graph.new style.now (pair style.now.arrow forward one other)) }
{
    add(graph, style, link_of(style, forward, one, other))
}

/// What such a pair is.
fn link_of(style: &Style, forward: bool, one: VarId, other: VarId) -> Link
    ensures { pair style.now.arrow forward one other ≡ result ∷ [] }
{
    match style.arrow {
        Arrow::Flow => {
            if forward {
                Link::Le(one, other)
            } else {
                Link::Le(other, one)
            }
        }
        Arrow::Cross(site) => {
            if forward {
                Link::Leave(site, one, other)
            } else {
                Link::Enter(site, other, one)
            }
        }
    }
}

/// Such a pair both ways.
pub fn add_both(
    graph: &mut FlowGraph,
    style: &Style,
    forward: bool,
    one: VarId,
    other: VarId,
) -> Result<(), GraphFault>
    requires arrow { IsArrow (length graph.old.sites) style.now.arrow }
    requires one { IsVar one }
    requires other { IsVar other }
    ensures ok { OnOk result
        (Gains graph.old graph.new style.now (both style.now.arrow forward one other)) }
    ensures err { IfErr result
        (StopsIn graph.old graph.new style.now (both style.now.arrow forward one other)) }
{
    add_pair(graph, style, forward, one, other)?;
    add_pair(graph, style, !forward, one, other)
}

/// The pair of two variables, where both are there.
pub fn add_pair_some(
    graph: &mut FlowGraph,
    style: &Style,
    forward: bool,
    one: &Option<VarId>,
    other: &Option<VarId>,
) -> Result<(), GraphFault>
    requires arrow { IsArrow (length graph.old.sites) style.now.arrow }
    requires one { IsSomeVar one.now }
    requires other { IsSomeVar other.now }
    ensures ok { OnOk result (Gains graph.old graph.new style.now
        (pair_some style.now.arrow forward one.now other.now)) }
    ensures err { IfErr result (StopsIn graph.old graph.new style.now
        (pair_some style.now.arrow forward one.now other.now)) }
{
    match one {
        Some(one) => match other {
            Some(other) => add_pair(graph, style, forward, *one, *other),
            None => Ok(()),
        },
        None => Ok(()),
    }
}

/// The pair of two variables both ways, where both are there.
pub fn add_both_some(
    graph: &mut FlowGraph,
    style: &Style,
    forward: bool,
    one: &Option<VarId>,
    other: &Option<VarId>,
) -> Result<(), GraphFault>
    requires arrow { IsArrow (length graph.old.sites) style.now.arrow }
    requires one { IsSomeVar one.now }
    requires other { IsSomeVar other.now }
    ensures ok { OnOk result (Gains graph.old graph.new style.now
        (both_some style.now.arrow forward one.now other.now)) }
    ensures err { IfErr result (StopsIn graph.old graph.new style.now
        (both_some style.now.arrow forward one.now other.now)) }
{
    match one {
        Some(one) => match other {
            Some(other) => add_both(graph, style, forward, *one, *other),
            None => Ok(()),
        },
        None => Ok(()),
    }
}
