//! Flow lists, as constraints in given lattices and in all of them.
#![tactic(auto, using(crate::proofs::Lists::with_none, crate::proofs::Lists::with_marked, crate::proofs::Lists::stop_marked))]

ghost use Rattle.std.specs.Prelude.{◌≡◌, ◌<◌, ◌∷◌, [], true, length, IfErr, OnOk};
ghost use Rattle.flow_graph.specs.System.{IsWithin};
ghost use Rattle.flow_rules.specs.declared.arrow.Arrow.TheVariants.{Flow};
ghost use Rattle.flow_rules.specs.Lists.{flow, equal, cross, smash, unsmash};
ghost use Rattle.flow_rules.specs.Adding.{with};
ghost use Rattle.qual_types.specs.Rows.{skel_of};
ghost use Rattle.qual_types.specs.Table.{IsVar};
ghost use Rattle.row_rules.specs.Worlds.{constraint, all_lattices, in_all};
ghost use Rattle.row_rules.specs.Rows as rows;
ghost use Rattle.row_world.specs.Shown.{skel};
ghost use Rattle.row_adding.specs.Adding.{StopsEarly, Adds, Halts};

use flow_graph::{Constraint, FlowGraph, GraphFault, Link};
use qual_base::{SiteId, SkelId, Span, VarId};
use qual_types::VarTable;
use row_world::{Known, is_empty};

/// An expression's value flows into a skeleton: nothing where it is a zero, or where either is void or none. Linear in the list.
pub fn flowing(
    vars: &VarTable,
    graph: &mut FlowGraph,
    is_zero: bool,
    from: SkelId,
    to: SkelId,
    lattices: u16,
    span: &Span,
) -> Result<(), GraphFault>
    ensures ok { OnOk result (graph.new ≡ with graph.old
        (rows.flowing is_zero (skel_of vars.now from) (skel_of vars.now to) lattices span.now)) }
    ensures err { IfErr result (λ fault. StopsEarly graph.old graph.new fault
        (rows.flowing is_zero (skel_of vars.now from) (skel_of vars.now to) lattices span.now)) }
{
    if is_zero || is_empty(vars, from) || is_empty(vars, to) {
        return Ok(());
    }
    flow_rules::flow(vars, graph, from, to, lattices, *span)
}

/// Adds one constraint. Constant time but for growth.
#[tactic(auto, using(crate::proofs::Lists::stop_first, crate::proofs::Lists::stop_one))]
pub(crate) fn add(
    graph: &mut FlowGraph,
    lattices: u16,
    span: &Span,
    link: Link,
) -> Result<(), GraphFault>
    requires { IsWithin (length graph.old.sites) link }
    ensures ok { OnOk result
        (graph.new ≡ with graph.old (constraint lattices span.now link ∷ [])) }
    ensures err { IfErr result (λ fault. StopsEarly graph.old graph.new fault
        (constraint lattices span.now link ∷ [])) }
{
    let constraint = Constraint {
        link,
        lattices,
        span: *span,
    };
    match graph.add(constraint) {
        Ok(_) => Ok(()),
        Err(fault) => Err(fault),
    }
}

/// An expression's value flows into a skeleton, in all lattices. Linear in the list.
pub fn flowing_in_all(
    known: &Known,
    graph: &mut FlowGraph,
    is_zero: bool,
    from: SkelId,
    to: SkelId,
    span: &Span,
) -> Result<(), GraphFault>
    ensures ok { OnOk result (Adds known.now graph.old graph.new
        (λ w. rows.flowing is_zero (skel known.now from) (skel known.now to)
        (all_lattices w) span.now)) }
    ensures err { IfErr result (λ fault. Halts known.now graph.old graph.new fault
        (λ w. rows.flowing is_zero (skel known.now from) (skel known.now to)
        (all_lattices w) span.now)) }
{
    flowing(
        known.vars,
        graph,
        is_zero,
        from,
        to,
        known.all_lattices(),
        span,
    )
}

/// A skeleton flows into another, in all lattices. Linear in the list.
pub fn flow_in_all(
    known: &Known,
    graph: &mut FlowGraph,
    from: SkelId,
    to: SkelId,
    span: &Span,
) -> Result<(), GraphFault>
    ensures ok { OnOk result (Adds known.now graph.old graph.new
        (λ w. in_all w span.now (flow Flow true (skel known.now from) (skel known.now to)))) }
    ensures err { IfErr result (λ fault. Halts known.now graph.old graph.new fault
        (λ w. in_all w span.now (flow Flow true (skel known.now from) (skel known.now to)))) }
{
    flow_rules::flow(known.vars, graph, from, to, known.all_lattices(), *span)
}

/// Two skeletons are made equal, in all lattices. Linear in the list.
pub fn equate_in_all(
    known: &Known,
    graph: &mut FlowGraph,
    one: SkelId,
    other: SkelId,
    span: &Span,
) -> Result<(), GraphFault>
    ensures ok { OnOk result (Adds known.now graph.old graph.new
        (λ w. in_all w span.now (equal Flow true (skel known.now one) (skel known.now other)))) }
    ensures err { IfErr result (λ fault. Halts known.now graph.old graph.new fault
        (λ w. in_all w span.now (equal Flow true (skel known.now one) (skel known.now other)))) }
{
    flow_rules::equate(known.vars, graph, one, other, known.all_lattices(), *span)
}

/// The signature of a function and an instance of it at a call site, in all lattices. Linear in the list.
pub fn cross_in_all(
    known: &Known,
    graph: &mut FlowGraph,
    site: SiteId,
    signature: SkelId,
    instance: SkelId,
    span: &Span,
) -> Result<(), GraphFault>
    requires { site < length graph.old.sites }
    ensures ok { OnOk result (Adds known.now graph.old graph.new
        (λ w. in_all w span.now
        (cross site (skel known.now signature) (skel known.now instance)))) }
    ensures err { IfErr result (λ fault. Halts known.now graph.old graph.new fault
        (λ w. in_all w span.now
        (cross site (skel known.now signature) (skel known.now instance)))) }
{
    flow_rules::cross(
        known.vars,
        graph,
        site,
        signature,
        instance,
        known.all_lattices(),
        *span,
    )
}

/// A skeleton flows into one variable, which stands for all of it, in all lattices. Linear in the list.
#[tactic(auto, using(crate::proofs::Lists::smashed, crate::proofs::Lists::smash_stops))]
pub fn smash_in_all(
    known: &Known,
    graph: &mut FlowGraph,
    from: SkelId,
    into: VarId,
    span: &Span,
) -> Result<(), GraphFault>
    requires { IsVar into }
    ensures ok { OnOk result (Adds known.now graph.old graph.new
        (λ w. in_all w span.now (smash (skel known.now from) into))) }
    ensures err { IfErr result (λ fault. Halts known.now graph.old graph.new fault
        (λ w. in_all w span.now (smash (skel known.now from) into))) }
{
    flow_rules::smash(known.vars, graph, from, into, known.all_lattices(), *span)
}

/// One variable flows into a skeleton, for all of which it stands, in all lattices. Linear in the list.
#[tactic(auto, using(crate::proofs::Lists::unsmashed, crate::proofs::Lists::unsmash_stops))]
pub fn unsmash_in_all(
    known: &Known,
    graph: &mut FlowGraph,
    from: VarId,
    to: SkelId,
    span: &Span,
) -> Result<(), GraphFault>
    requires { IsVar from }
    ensures ok { OnOk result (Adds known.now graph.old graph.new
        (λ w. in_all w span.now (unsmash from (skel known.now to)))) }
    ensures err { IfErr result (λ fault. Halts known.now graph.old graph.new fault
        (λ w. in_all w span.now (unsmash from (skel known.now to)))) }
{
    flow_rules::unsmash(known.vars, graph, from, to, known.all_lattices(), *span)
}
