//! The calls that add flow lists.
//!
//! Each adds exactly its list, in order. Time is linear in the skeletons and in the list; none takes memory but for the
//! graph's growth. Where a constraint is refused, those of the list before it stand in the graph, and none behind it.
#![tactic(auto, using(crate::proofs::AddingLemmas::marked_append, crate::proofs::AddingLemmas::with_append, crate::proofs::AddingLemmas::stop_front, crate::proofs::AddingLemmas::stop_back))]

ghost use Rattle.std.specs.Prelude.{◌≡◌, ◌<◌, ◌∷◌, ◌++◌, [], length, true, IfErr, OnOk};
ghost use Rattle.qual_types.specs.Skel.{root, strict_nodes};
ghost use Rattle.qual_types.specs.Rows.{skel_of};
ghost use Rattle.qual_types.specs.Table.{IsVar};
ghost use Rattle.flow_rules.specs.declared.arrow.Arrow.TheVariants.{Flow, Cross};
ghost use Rattle.flow_rules.specs.Lists.{flow, equal, cross, smash, unsmash, cross_by, smash_by};
ghost use Rattle.flow_rules.specs.Lists.{unsmash_by, pair, tied};
ghost use Rattle.flow_rules.specs.Adding.{marked, with, Stops, IsArrow, Gains, StopsIn};

use crate::adding::add_pair;
use crate::arrow::{Arrow, Style};
use crate::equating::make_equal;
use crate::flowing::flow_into;
use crate::tying::tie_inner;
use flow_graph::{FlowGraph, GraphFault};
use qual_base::{SiteId, SkelId, Span, VarId};
use qual_types::{Look, VarTable};

/// A skeleton that flows into another: what references hold is made equal, parameters and further arguments of functions go
/// the other way.
pub fn flow(
    vars: &VarTable,
    graph: &mut FlowGraph,
    from: SkelId,
    to: SkelId,
    lattices: u16,
    span: Span,
) -> Result<(), GraphFault>
    ensures ok { OnOk result (graph.new ≡ with graph.old
        (marked lattices span (flow Flow true (skel_of vars.now from) (skel_of vars.now to)))) }
    ensures err { IfErr result (λ fault. Stops graph.old graph.new fault
        (marked lattices span (flow Flow true (skel_of vars.now from) (skel_of vars.now to)))) }
{
    let style = plain(lattices, span);
    flow_into(vars, graph, &style, true, from, to)
}

/// Two skeletons that are made equal.
pub fn equate(
    vars: &VarTable,
    graph: &mut FlowGraph,
    one: SkelId,
    other: SkelId,
    lattices: u16,
    span: Span,
) -> Result<(), GraphFault>
    ensures ok { OnOk result (graph.new ≡ with graph.old
        (marked lattices span (equal Flow true (skel_of vars.now one) (skel_of vars.now other)))) }
    ensures err { IfErr result (λ fault. Stops graph.old graph.new fault
        (marked lattices span (equal Flow true (skel_of vars.now one) (skel_of vars.now other)))) }
{
    let style = plain(lattices, span);
    make_equal(vars, graph, &style, true, one, other)
}

/// A function's signature and an instance of it at a call site, of one type, a reference to a function: what flows from the
/// signature is a return of the site, and what flows into it is a call.
pub fn cross(
    vars: &VarTable,
    graph: &mut FlowGraph,
    site: SiteId,
    signature: SkelId,
    instance: SkelId,
    lattices: u16,
    span: Span,
) -> Result<(), GraphFault>
    requires { site < length graph.old.sites }
    ensures ok { OnOk result (graph.new ≡ with graph.old (marked lattices span
        (cross site (skel_of vars.now signature) (skel_of vars.now instance)))) }
    ensures err { IfErr result (λ fault. Stops graph.old graph.new fault (marked lattices span
        (cross site (skel_of vars.now signature) (skel_of vars.now instance)))) }
{
    let style = Style {
        arrow: Arrow::Cross(site),
        lattices,
        span,
    };
    cross_into(vars, graph, &style, signature, instance)
}

/// A skeleton that flows into one variable, which stands for all of it.
pub fn smash(
    vars: &VarTable,
    graph: &mut FlowGraph,
    from: SkelId,
    into: VarId,
    lattices: u16,
    span: Span,
) -> Result<(), GraphFault>
    requires { IsVar into }
    ensures ok { OnOk result
        (graph.new ≡ with graph.old (marked lattices span (smash (skel_of vars.now from) into))) }
    ensures err { IfErr result (λ fault. Stops graph.old graph.new fault
        (marked lattices span (smash (skel_of vars.now from) into))) }
{
    let style = plain(lattices, span);
    smash_into(vars, graph, &style, from, into)
}

/// One variable that flows into a skeleton, for all of which it stands.
pub fn unsmash(
    vars: &VarTable,
    graph: &mut FlowGraph,
    from: VarId,
    to: SkelId,
    lattices: u16,
    span: Span,
) -> Result<(), GraphFault>
    requires { IsVar from }
    ensures ok { OnOk result
        (graph.new ≡ with graph.old (marked lattices span (unsmash from (skel_of vars.now to)))) }
    ensures err { IfErr result (λ fault. Stops graph.old graph.new fault
        (marked lattices span (unsmash from (skel_of vars.now to)))) }
{
    let style = plain(lattices, span);
    unsmash_into(vars, graph, &style, from, to)
}

/// How flows are added.
fn plain(lattices: u16, span: Span) -> Style
    ensures { result ≡ record { arrow = Flow; lattices = lattices; span = span } }
{
    Style {
        arrow: Arrow::Flow,
        lattices,
        span,
    }
}

fn smash_into(
    vars: &VarTable,
    graph: &mut FlowGraph,
    style: &Style,
    from: SkelId,
    into: VarId,
) -> Result<(), GraphFault>
    requires arrow { IsArrow (length graph.old.sites) style.now.arrow }
    requires into { IsVar into }
    ensures ok { OnOk result (Gains graph.old graph.new style.now
        (smash_by style.now.arrow (skel_of vars.now from) into)) }
    ensures err { IfErr result (StopsIn graph.old graph.new style.now
        (smash_by style.now.arrow (skel_of vars.now from) into)) }
{
    add_pair(graph, style, true, vars.var(from), into)?;
    tie_inner(vars, graph, style, from, into)
}

fn unsmash_into(
    vars: &VarTable,
    graph: &mut FlowGraph,
    style: &Style,
    from: VarId,
    to: SkelId,
) -> Result<(), GraphFault>
    requires arrow { IsArrow (length graph.old.sites) style.now.arrow }
    requires from { IsVar from }
    ensures ok { OnOk result (Gains graph.old graph.new style.now
        (unsmash_by style.now.arrow from (skel_of vars.now to))) }
    ensures err { IfErr result (StopsIn graph.old graph.new style.now
        (unsmash_by style.now.arrow from (skel_of vars.now to))) }
{
    add_pair(graph, style, true, from, vars.var(to))?;
    tie_inner(vars, graph, style, to, from)
}

fn cross_into(
    vars: &VarTable,
    graph: &mut FlowGraph,
    style: &Style,
    signature: SkelId,
    instance: SkelId,
) -> Result<(), GraphFault>
    requires arrow { IsArrow (length graph.old.sites) style.now.arrow }
    ensures ok { OnOk result (Gains graph.old graph.new style.now
        (cross_by style.now.arrow (skel_of vars.now signature) (skel_of vars.now instance))) }
    ensures err { IfErr result (StopsIn graph.old graph.new style.now
        (cross_by style.now.arrow (skel_of vars.now signature) (skel_of vars.now instance))) }
{
    match vars.look(signature) {
        Look::Ref(u, a) => match vars.look(instance) {
            Look::Ref(v, b) => {
                add_pair(graph, style, true, u, v)?;
                flow_into(vars, graph, style, true, a, b)
            }
            Look::Flat(v, _) => add_pair(graph, style, true, u, v),
            Look::Fun { var: v, .. } => add_pair(graph, style, true, u, v),
        },
        Look::Flat(u, _) => add_pair(graph, style, true, u, vars.var(instance)),
        Look::Fun { var: u, .. } => add_pair(graph, style, true, u, vars.var(instance)),
    }
}
