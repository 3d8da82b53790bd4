//! A skeleton that flows into another.
#![tactic(auto, using(crate::proofs::AddingLemmas::marked_append, crate::proofs::AddingLemmas::with_append, crate::proofs::AddingLemmas::stop_front, crate::proofs::AddingLemmas::stop_back))]

ghost use Rattle.std.specs.Prelude.{◌≡◌, ◌∷◌, ◌++◌, [], not, length, IfErr, OnOk};
ghost use Rattle.qual_types.specs.Skel.{root, flat};
ghost use Rattle.qual_types.specs.Rows.{skel_of, params_from};
ghost use Rattle.qual_types.specs.Table.{IsVar, IsSomeVar};
ghost use Rattle.flow_rules.specs.Lists.{flow, flows, flow_uneven, equal, extra, pair, pair_some};
ghost use Rattle.flow_rules.specs.Lists.{collapsed};
ghost use Rattle.flow_rules.specs.Adding.{IsArrow, AreParts, Gains, StopsIn};

use crate::adding::{add_pair, add_pair_some};
use crate::arrow::{Parts, Style};
use crate::equating::make_equal;
use crate::tying::{add_extra, collapse};
use flow_graph::{FlowGraph, GraphFault};
use qual_base::SkelId;
use qual_types::{Look, VarTable};

/// A skeleton into one of another shape.
fn flow_into_uneven(
    vars: &VarTable,
    graph: &mut FlowGraph,
    style: &Style,
    forward: bool,
    one: SkelId,
    other: SkelId,
) -> Result<(), GraphFault>
    requires arrow { IsArrow (length graph.old.sites) style.now.arrow }
    ensures ok { OnOk result (Gains graph.old graph.new style.now
        (flow_uneven style.now.arrow forward (skel_of vars.now one) (skel_of vars.now other))) }
    ensures err { IfErr result (StopsIn graph.old graph.new style.now
        (flow_uneven style.now.arrow forward (skel_of vars.now one) (skel_of vars.now other))) }
{
    add_pair(graph, style, forward, vars.var(one), vars.var(other))?;
    collapse(vars, graph, style, forward, one, other)
}

/// A skeleton into another.
#[cycle(flow)]
pub fn flow_into(
    vars: &VarTable,
    graph: &mut FlowGraph,
    style: &Style,
    forward: bool,
    one: SkelId,
    other: SkelId,
) -> Result<(), GraphFault>
    requires arrow { IsArrow (length graph.old.sites) style.now.arrow }
    ensures ok { OnOk result (Gains graph.old graph.new style.now
        (flow style.now.arrow forward (skel_of vars.now one) (skel_of vars.now other))) }
    ensures err { IfErr result (StopsIn graph.old graph.new style.now
        (flow style.now.arrow forward (skel_of vars.now one) (skel_of vars.now other))) }
{
    match vars.look(one) {
        Look::Flat(u, _) => match vars.look(other) {
            Look::Flat(v, _) => add_pair(graph, style, forward, u, v),
            Look::Ref(_, _) => flow_into_uneven(vars, graph, style, forward, one, other),
            Look::Fun { .. } => flow_into_uneven(vars, graph, style, forward, one, other),
        },
        Look::Ref(u, a) => match vars.look(other) {
            Look::Ref(v, b) => {
                add_pair(graph, style, forward, u, v)?;
                make_equal(vars, graph, style, forward, a, b)
            }
            Look::Flat(_, _) => flow_into_uneven(vars, graph, style, forward, one, other),
            Look::Fun { .. } => flow_into_uneven(vars, graph, style, forward, one, other),
        },
        Look::Fun {
            var: u,
            first: ps,
            result: r,
            ellipsis: e,
        } => match vars.look(other) {
            Look::Fun {
                var: v,
                first: qs,
                result: s,
                ellipsis: f,
            } => {
                let mine = Parts {
                    first: ps,
                    back: r,
                    ellipsis: e,
                };
                let theirs = Parts {
                    first: qs,
                    back: s,
                    ellipsis: f,
                };
                add_pair(graph, style, forward, u, v)?;
                flow_params(vars, graph, style, !forward, ps, qs)?;
                flow_rest(vars, graph, style, forward, one, &mine, &theirs)
            }
            Look::Flat(_, _) => flow_into_uneven(vars, graph, style, forward, one, other),
            Look::Ref(_, _) => flow_into_uneven(vars, graph, style, forward, one, other),
        },
    }
}

/// What is left of two functions behind the parameters that both have: further parameters, results, further arguments.
#[cycle(flow)]
fn flow_rest(
    vars: &VarTable,
    graph: &mut FlowGraph,
    style: &Style,
    forward: bool,
    one: SkelId,
    mine: &Parts,
    theirs: &Parts,
) -> Result<(), GraphFault>
    requires arrow { IsArrow (length graph.old.sites) style.now.arrow }
    requires mine { AreParts (length vars.now) one mine.now }
    requires theirs { IsSomeVar theirs.now.ellipsis }
    ensures ok { OnOk result (Gains graph.old graph.new style.now
        (extra style.now.arrow forward (params_from vars.now mine.now.first) mine.now.ellipsis
        (params_from vars.now theirs.now.first) theirs.now.ellipsis ++ (flow style.now.arrow forward
        (skel_of vars.now mine.now.back) (skel_of vars.now theirs.now.back)
        ++ pair_some style.now.arrow (not forward) mine.now.ellipsis theirs.now.ellipsis))) }
    ensures err { IfErr result (StopsIn graph.old graph.new style.now
        (extra style.now.arrow forward (params_from vars.now mine.now.first) mine.now.ellipsis
        (params_from vars.now theirs.now.first) theirs.now.ellipsis ++ (flow style.now.arrow forward
        (skel_of vars.now mine.now.back) (skel_of vars.now theirs.now.back)
        ++ pair_some style.now.arrow (not forward) mine.now.ellipsis theirs.now.ellipsis))) }
{
    add_extra(vars, graph, style, forward, mine, theirs)?;
    flow_into(vars, graph, style, forward, mine.back, theirs.back)?;
    add_pair_some(graph, style, !forward, &mine.ellipsis, &theirs.ellipsis)
}

/// The parameters that two functions both have, from one of each on.
#[cycle(flow)]
fn flow_params(
    vars: &VarTable,
    graph: &mut FlowGraph,
    style: &Style,
    forward: bool,
    one: SkelId,
    other: SkelId,
) -> Result<(), GraphFault>
    requires arrow { IsArrow (length graph.old.sites) style.now.arrow }
    ensures ok { OnOk result (Gains graph.old graph.new style.now
        (flows style.now.arrow forward (params_from vars.now one) (params_from vars.now other))) }
    ensures err { IfErr result (StopsIn graph.old graph.new style.now
        (flows style.now.arrow forward (params_from vars.now one) (params_from vars.now other))) }
{
    match vars.next_part(one) {
        Some(next) => match vars.next_part(other) {
            Some(behind) => {
                flow_into(vars, graph, style, forward, one, other)?;
                flow_params(vars, graph, style, forward, next, behind)
            }
            None => Ok(()),
        },
        None => Ok(()),
    }
}
