//! Variables of a skeleton that are all as one.
#![tactic(auto, using(crate::proofs::AddingLemmas::marked_append, crate::proofs::AddingLemmas::with_append, crate::proofs::AddingLemmas::stop_front, crate::proofs::AddingLemmas::stop_back, crate::proofs::AddingLemmas::tied_append))]

ghost use Rattle.std.specs.Prelude.{◌≡◌, ◌∷◌, ◌++◌, [], not, length, IfErr, OnOk};
ghost use Rattle.qual_types.specs.Skel.{root, nodes, all_nodes, strict_nodes, of_some};
ghost use Rattle.qual_types.specs.Rows.{skel_of, params_from};
ghost use Rattle.qual_types.specs.Table.{IsVar, IsSomeVar};
ghost use Rattle.flow_rules.specs.Lists.{tied, tied_some, collapsed, extra, past};
ghost use Rattle.flow_rules.specs.Adding.{AreParts, Gains, StopsIn};

use crate::adding::add;
use crate::arrow::{Arrow, Parts, Style};
use flow_graph::{FlowGraph, GraphFault, Link};
use qual_base::{SkelId, VarId};
use qual_types::{Look, VarTable};

/// A variable and another, both ways.
#[tactic(auto, using(crate::proofs::AddingLemmas::marked_append, crate::proofs::AddingLemmas::with_append, crate::proofs::AddingLemmas::stop_front, crate::proofs::AddingLemmas::stop_back), unfolding(crate::specs::Lists::tie))]
fn tie(graph: &mut FlowGraph, style: &Style, one: VarId, other: VarId) -> Result<(), GraphFault>
    requires one { IsVar one }
    requires other { IsVar other }
    ensures ok { OnOk result
        (Gains graph.old graph.new style.now (Rattle.flow_rules.specs.Lists.tie one other)) }
    ensures err { IfErr result
        (StopsIn graph.old graph.new style.now (Rattle.flow_rules.specs.Lists.tie one other)) }
{
    add(graph, style, Link::Le(one, other))?;
    add(graph, style, Link::Le(other, one))
}

/// A variable, if it is there, and another, both ways.
fn tie_some(
    graph: &mut FlowGraph,
    style: &Style,
    one: &Option<VarId>,
    other: VarId,
) -> Result<(), GraphFault>
    requires one { IsSomeVar one.now }
    requires other { IsVar other }
    ensures ok { OnOk result (Gains graph.old graph.new style.now (tied (of_some one.now) other)) }
    ensures err { IfErr result
        (StopsIn graph.old graph.new style.now (tied (of_some one.now) other)) }
{
    match one {
        Some(one) => tie(graph, style, *one, other),
        None => Ok(()),
    }
}

/// All variables of a skeleton and another variable.
#[cycle(tie)]
pub fn tie_nodes(
    vars: &VarTable,
    graph: &mut FlowGraph,
    style: &Style,
    of: SkelId,
    other: VarId,
) -> Result<(), GraphFault>
    requires { IsVar other }
    ensures ok { OnOk result
        (Gains graph.old graph.new style.now (tied (nodes (skel_of vars.now of)) other)) }
    ensures err { IfErr result
        (StopsIn graph.old graph.new style.now (tied (nodes (skel_of vars.now of)) other)) }
{
    match vars.look(of) {
        Look::Flat(var, _) => tie(graph, style, var, other),
        Look::Ref(var, inside) => {
            tie(graph, style, var, other)?;
            tie_nodes(vars, graph, style, inside, other)
        }
        Look::Fun {
            var,
            first,
            result: back,
            ellipsis,
        } => {
            let parts = Parts {
                first,
                back,
                ellipsis,
            };
            tie(graph, style, var, other)?;
            tie_parts(vars, graph, style, of, &parts, other)
        }
    }
}

/// All variables of the parts of a function and another variable.
#[cycle(tie)]
fn tie_parts(
    vars: &VarTable,
    graph: &mut FlowGraph,
    style: &Style,
    of: SkelId,
    parts: &Parts,
    other: VarId,
) -> Result<(), GraphFault>
    requires other { IsVar other }
    requires parts { AreParts (length vars.now) of parts.now }
    ensures ok { OnOk result
        (Gains graph.old graph.new style.now (tied (all_nodes (params_from vars.now parts.now.first)
        ++ (nodes (skel_of vars.now parts.now.back) ++ of_some parts.now.ellipsis)) other)) }
    ensures err { IfErr result (StopsIn graph.old graph.new style.now
        (tied (all_nodes (params_from vars.now parts.now.first)
        ++ (nodes (skel_of vars.now parts.now.back) ++ of_some parts.now.ellipsis)) other)) }
{
    tie_params(vars, graph, style, parts.first, other)?;
    tie_nodes(vars, graph, style, parts.back, other)?;
    tie_some(graph, style, &parts.ellipsis, other)
}

/// All variables of the parameters from one on and another variable.
#[cycle(tie)]
pub fn tie_params(
    vars: &VarTable,
    graph: &mut FlowGraph,
    style: &Style,
    from: SkelId,
    other: VarId,
) -> Result<(), GraphFault>
    requires { IsVar other }
    ensures ok { OnOk result
        (Gains graph.old graph.new style.now (tied (all_nodes (params_from vars.now from)) other)) }
    ensures err { IfErr result (StopsIn graph.old graph.new style.now
        (tied (all_nodes (params_from vars.now from)) other)) }
{
    match vars.next_part(from) {
        Some(next) => {
            tie_nodes(vars, graph, style, from, other)?;
            tie_params(vars, graph, style, next, other)
        }
        None => Ok(()),
    }
}

/// All variables of a skeleton but its root's and another variable.
pub fn tie_inner(
    vars: &VarTable,
    graph: &mut FlowGraph,
    style: &Style,
    of: SkelId,
    other: VarId,
) -> Result<(), GraphFault>
    requires { IsVar other }
    ensures ok { OnOk result
        (Gains graph.old graph.new style.now (tied (strict_nodes (skel_of vars.now of)) other)) }
    ensures err { IfErr result
        (StopsIn graph.old graph.new style.now (tied (strict_nodes (skel_of vars.now of)) other)) }
{
    match vars.look(of) {
        Look::Flat(_, _) => Ok(()),
        Look::Ref(_, inside) => tie_nodes(vars, graph, style, inside, other),
        Look::Fun {
            first,
            result: back,
            ellipsis,
            ..
        } => {
            let parts = Parts {
                first,
                back,
                ellipsis,
            };
            tie_parts(vars, graph, style, of, &parts, other)
        }
    }
}

/// The inner variables of two skeletons of two shapes.
pub fn collapse(
    vars: &VarTable,
    graph: &mut FlowGraph,
    style: &Style,
    forward: bool,
    one: SkelId,
    other: SkelId,
) -> Result<(), GraphFault>
    ensures ok { OnOk result (Gains graph.old graph.new style.now
        (collapsed style.now.arrow forward (skel_of vars.now one) (skel_of vars.now other))) }
    ensures err { IfErr result (StopsIn graph.old graph.new style.now
        (collapsed style.now.arrow forward (skel_of vars.now one) (skel_of vars.now other))) }
{
    match style.arrow {
        Arrow::Flow => {
            if forward {
                let into = vars.var(other);
                tie_inner(vars, graph, style, one, into)?;
                tie_inner(vars, graph, style, other, into)
            } else {
                let into = vars.var(one);
                tie_inner(vars, graph, style, other, into)?;
                tie_inner(vars, graph, style, one, into)
            }
        }
        Arrow::Cross(_) => Ok(()),
    }
}

/// The part of each of two functions behind the parameters that both have, from one of each on.
#[tactic(auto, using(crate::proofs::AddingLemmas::past_none))]
fn past_common(vars: &VarTable, one: SkelId, other: SkelId) -> (SkelId, SkelId)
    ensures one { params_from vars.now result.0
        ≡ past (params_from vars.now one) (params_from vars.now other) }
    ensures other { params_from vars.now result.1
        ≡ past (params_from vars.now other) (params_from vars.now one) }
{
    let mut here = one;
    let mut there = other;
    while let Some(next) = vars.next_part(here) {
        match vars.next_part(there) {
            Some(behind) => {
                here = next;
                there = behind;
            }
            None => return (here, there),
        }
    }
    (here, there)
}

/// All variables of the parameters from one on and another variable, if that is there.
fn tie_rest(
    vars: &VarTable,
    graph: &mut FlowGraph,
    style: &Style,
    from: SkelId,
    other: &Option<VarId>,
) -> Result<(), GraphFault>
    requires { IsSomeVar other.now }
    ensures ok { OnOk result (Gains graph.old graph.new style.now
        (tied_some (all_nodes (params_from vars.now from)) other.now)) }
    ensures err { IfErr result (StopsIn graph.old graph.new style.now
        (tied_some (all_nodes (params_from vars.now from)) other.now)) }
{
    match other {
        Some(other) => tie_params(vars, graph, style, from, *other),
        None => Ok(()),
    }
}

/// The parameters that one of two functions alone has.
pub fn add_extra(
    vars: &VarTable,
    graph: &mut FlowGraph,
    style: &Style,
    forward: bool,
    one: &Parts,
    other: &Parts,
) -> Result<(), GraphFault>
    requires one { IsSomeVar one.now.ellipsis }
    requires other { IsSomeVar other.now.ellipsis }
    ensures ok { OnOk result (Gains graph.old graph.new style.now
        (extra style.now.arrow forward (params_from vars.now one.now.first) one.now.ellipsis
        (params_from vars.now other.now.first) other.now.ellipsis)) }
    ensures err { IfErr result (StopsIn graph.old graph.new style.now
        (extra style.now.arrow forward (params_from vars.now one.now.first) one.now.ellipsis
        (params_from vars.now other.now.first) other.now.ellipsis)) }
{
    match style.arrow {
        Arrow::Flow => {
            let (here, there) = past_common(vars, one.first, other.first);
            if forward {
                tie_rest(vars, graph, style, here, &other.ellipsis)?;
                tie_rest(vars, graph, style, there, &one.ellipsis)
            } else {
                tie_rest(vars, graph, style, there, &one.ellipsis)?;
                tie_rest(vars, graph, style, here, &other.ellipsis)
            }
        }
        Arrow::Cross(_) => Ok(()),
    }
}
