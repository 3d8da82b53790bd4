//! The rows of returns, of further arguments, and of initialisers.
#![tactic(auto, using(crate::proofs::Lists::with_none, crate::proofs::Lists::with_append, crate::proofs::Lists::stop_front, crate::proofs::Lists::stop_back))]

ghost use Rattle.std.specs.Prelude.{◌≡◌, ◌∷◌, [], IfErr, OnOk, option_map};
ghost use Rattle.flow_graph.specs.declared.constraint.Link.TheVariants.{Le};
ghost use Rattle.qual_types.specs.Skel.{root};
ghost use Rattle.qual_types.specs.Table.{IsVar};
ghost use Rattle.row_rules.specs.Worlds.{all_lattices, in_all};
ghost use Rattle.row_rules.specs.Vals as vals;
ghost use Rattle.row_rules.specs.Rows as rows;
ghost use Rattle.row_world.specs.Shown.{skel, type, val};
ghost use Rattle.row_adding.specs.Adding.{Adds, Halts};
ghost use Rattle.row_adding.specs.Parts.{begun, into_some};

use crate::annotating::{annotate_some, annotate_some_place};
use crate::flows::{add, flowing_in_all, unsmash_in_all};
use crate::forming::{form, form_here};
use flow_graph::{FlowGraph, GraphFault, Link};
use qual_base::{SkelId, Span, TokenId, TypeId, VarId};
use row_world::{Known, Operand, further, is_nothing, outcome, value};
use std::alloc::Global;

/// A returned value flows into the result of the function around it.
pub fn returned(
    known: &Known,
    graph: &mut FlowGraph,
    own: &Option<SkelId>,
    is_zero: bool,
    returned: SkelId,
    span: &Span,
) -> Result<(), GraphFault>
    ensures ok { OnOk result (Adds known.now graph.old graph.new (λ w. rows.returned w
        (option_map (skel known.now) own.now) is_zero (skel known.now returned) span.now)) }
    ensures err { IfErr result (λ fault. Halts known.now graph.old graph.new fault (λ w.
        rows.returned w (option_map (skel known.now) own.now) is_zero (skel known.now returned)
        span.now)) }
{
    match own {
        Some(own) => {
            let into = outcome(known.vars, *own);
            flowing_in_all(known, graph, is_zero, returned, into, span)
        }
        None => Ok(()),
    }
}

/// One variable flows into another, in all lattices.
fn flow_between(
    known: &Known,
    graph: &mut FlowGraph,
    from: VarId,
    to: VarId,
    span: &Span,
) -> Result<(), GraphFault>
    requires from { IsVar from }
    requires to { IsVar to }
    ensures ok { OnOk result (Adds known.now graph.old graph.new
        (λ w. in_all w span.now (Le from to ∷ []))) }
    ensures err { IfErr result (λ fault. Halts known.now graph.old graph.new fault
        (λ w. in_all w span.now (Le from to ∷ []))) }
{
    add(graph, known.all_lattices(), span, Link::Le(from, to))
}

/// What stands for all further arguments flows into what is taken from a list of them, where both have a skeleton. Linear in that
/// skeleton.
pub fn taken(
    known: &Known,
    graph: &mut FlowGraph,
    list: SkelId,
    to: SkelId,
    span: &Span,
) -> Result<(), GraphFault>
    ensures ok { OnOk result (Adds known.now graph.old graph.new
        (λ w. rows.taken w (skel known.now list) (skel known.now to) span.now)) }
    ensures err { IfErr result (λ fault. Halts known.now graph.old graph.new fault
        (λ w. rows.taken w (skel known.now list) (skel known.now to) span.now)) }
{
    if is_nothing(known.vars, list) || is_nothing(known.vars, to) {
        return Ok(());
    }
    unsmash_in_all(known, graph, known.vars.var(list), to, span)
}

/// What is taken from a list of further arguments is of a type: its annotations, and what stands for all further arguments flows
/// into it.
fn taken_of_type(
    alloc: Global,
    known: &Known,
    graph: &mut FlowGraph,
    token: TokenId,
    ty: &Option<TypeId>,
    list: SkelId,
    span: &Span,
) -> Result<(), GraphFault>
    ensures ok { OnOk result (Adds known.now graph.old graph.new
        (λ w. rows.taken_of_type w token (option_map (type known.now) ty.now)
        (skel known.now list) span.now)) }
    ensures err { IfErr result (λ fault. Halts known.now graph.old graph.new fault
        (λ w. rows.taken_of_type w token (option_map (type known.now) ty.now)
        (skel known.now list) span.now)) }
{
    let own = known.own(token);
    annotate_some(alloc, known, graph, ty, own)?;
    taken(known, graph, list, own, span)
}

/// An argument of a list of further ones: what passes inside its skeleton, its annotations, and what stands for all further
/// arguments flows into it.
pub fn taken_fresh(
    alloc: Global,
    known: &Known,
    graph: &mut FlowGraph,
    token: TokenId,
    ty: &Option<TypeId>,
    list: SkelId,
    span: &Span,
) -> Result<(), GraphFault>
    ensures ok { OnOk result (Adds known.now graph.old graph.new
        (λ w. rows.taken_fresh w token (option_map (type known.now) ty.now)
        (skel known.now list) span.now)) }
    ensures err { IfErr result (λ fault. Halts known.now graph.old graph.new fault
        (λ w. rows.taken_fresh w token (option_map (type known.now) ty.now)
        (skel known.now list) span.now)) }
{
    form(known, graph, known.own(token), span)?;
    taken_of_type(alloc, known, graph, token, ty, list, span)
}

/// The annotations of a compound literal.
fn annotate_literal(
    alloc: Global,
    known: &Known,
    graph: &mut FlowGraph,
    token: TokenId,
    ty: &Option<TypeId>,
) -> Result<(), GraphFault>
    ensures ok { OnOk result (Adds known.now graph.old graph.new (λ w.
        rows.annotating_place w (option_map (type known.now) ty.now) (vals.own w token))) }
    ensures err { IfErr result (λ fault. Halts known.now graph.old graph.new fault (λ w.
        rows.annotating_place w (option_map (type known.now) ty.now) (vals.own w token))) }
{
    let own = known.own(token);
    annotate_some_place(alloc, known, graph, ty, own)
}

/// A compound literal: what passes inside its skeleton, and its annotations.
pub fn literal(
    alloc: Global,
    known: &Known,
    graph: &mut FlowGraph,
    token: TokenId,
    ty: &Option<TypeId>,
) -> Result<(), GraphFault>
    ensures ok { OnOk result (Adds known.now graph.old graph.new
        (λ w. rows.literal_row w token (option_map (type known.now) ty.now))) }
    ensures err { IfErr result (λ fault. Halts known.now graph.old graph.new fault
        (λ w. rows.literal_row w token (option_map (type known.now) ty.now))) }
{
    form_here(known, graph, token)?;
    annotate_literal(alloc, known, graph, token, ty)
}

/// The variable of further arguments flows into a list of arguments, where that is one.
fn begun(
    known: &Known,
    graph: &mut FlowGraph,
    further: VarId,
    list: SkelId,
    span: &Span,
) -> Result<(), GraphFault>
    requires { IsVar further }
    ensures ok { OnOk result (Adds known.now graph.old graph.new
        (λ w. begun w further (skel known.now list) span.now)) }
    ensures err { IfErr result (λ fault. Halts known.now graph.old graph.new fault
        (λ w. begun w further (skel known.now list) span.now)) }
{
    if is_nothing(known.vars, list) {
        return Ok(());
    }
    flow_between(known, graph, further, known.vars.var(list), span)
}

/// The further arguments of the function around it flow into a list of arguments that is begun.
pub fn started(
    known: &Known,
    graph: &mut FlowGraph,
    own: &Option<SkelId>,
    list: SkelId,
    span: &Span,
) -> Result<(), GraphFault>
    ensures ok { OnOk result (Adds known.now graph.old graph.new (λ w. rows.started w
        (option_map (skel known.now) own.now) (skel known.now list) span.now)) }
    ensures err { IfErr result (λ fault. Halts known.now graph.old graph.new fault (λ w.
        rows.started w (option_map (skel known.now) own.now) (skel known.now list) span.now)) }
{
    match own {
        Some(own) => match further(known.vars, *own) {
            Some(further) => begun(known, graph, further, list, span),
            None => Ok(()),
        },
        None => Ok(()),
    }
}

/// An operand flows into what it initialises, where that is something.
pub fn into_target(
    known: &Known,
    graph: &mut FlowGraph,
    target: &Option<SkelId>,
    is_zero: bool,
    operand: &Operand,
    span: &Span,
) -> Result<(), GraphFault>
    ensures ok { OnOk result (Adds known.now graph.old graph.new (λ w. into_some w
        (option_map (skel known.now) target.now) is_zero (val known.now operand.now) span.now)) }
    ensures err { IfErr result (λ fault. Halts known.now graph.old graph.new fault (λ w. into_some w
        (option_map (skel known.now) target.now) is_zero (val known.now operand.now) span.now)) }
{
    match target {
        Some(into) => {
            let from = value(known.vars, operand);
            flowing_in_all(known, graph, is_zero, from, *into, span)
        }
        None => Ok(()),
    }
}
