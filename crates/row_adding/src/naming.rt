//! The rows of declared names.
#![tactic(auto, using(crate::proofs::Lists::with_none, crate::proofs::Lists::with_append, crate::proofs::Lists::stop_front, crate::proofs::Lists::stop_back))]

ghost use Rattle.std.specs.Prelude.{◌≡◌, IfErr, OnOk, Some, option_map};
ghost use Rattle.name_rules.specs.Scopes as scopes;
ghost use Rattle.name_state.specs.UnitNames.Shown.{role_of, declared_of};
ghost use Rattle.qual_types.specs.Skel.{param_at};
ghost use Rattle.row_rules.specs.Annotations as rules;
ghost use Rattle.row_rules.specs.Rows as rows;
ghost use Rattle.row_rules.specs.Worlds.{World};
ghost use Rattle.row_world.specs.Shown.{Shows, skel, type};
ghost use Rattle.row_adding.specs.Adding.{Adds, Halts};
ghost use Rattle.row_adding.specs.Kinds.{kind_of, index_row};
ghost use Rattle.row_adding.specs.Parts.{given, tied};

use crate::annotating::annotate_place;
use crate::flows::{equate_in_all, flow_in_all};
use crate::forming::form;
use crate::indexing::index_place;
use crate::marks::word_span;
use flow_graph::{FlowGraph, GraphFault};
use name_tables::name_records::{Declared, Role};
use name_tables::name_scopes::Place;
use qual_base::{Numbered, SkelId, Span, TokenId};
use row_world::{Known, contents, is_nothing, parameter};
use std::alloc::Global;

/// Which row the name of a declarator has: none in a type's name and in a prototype, that of a name, or that of a parameter of
/// the function of a skeleton, with its number.
#[derive(Clone, Copy, PartialEq, Eq, Debug, Drop)]
pub enum RowKind {
    Nothing,
    Name,
    Parameter(SkelId, u32),
}

fn is_place(one: &Place, other: &Place) -> bool
    ensures { result ≡ scopes.is_place one.now other.now }
{
    one.0.number() == other.0.number() && one.1.number() == other.1.number()
}

/// The annotations of a declared name.
pub fn annotate_name(
    alloc: Global,
    known: &Known,
    graph: &mut FlowGraph,
    declared: &Declared,
) -> Result<(), GraphFault>
    ensures ok { OnOk result (Adds known.now graph.old graph.new
        (λ w. rows.annotating_name w (declared_of (type known.now) declared.now))) }
    ensures err { IfErr result (λ fault. Halts known.now graph.old graph.new fault
        (λ w. rows.annotating_name w (declared_of (type known.now) declared.now))) }
{
    let at = known.skeleton(&declared.at);
    annotate_place(alloc, known, graph, declared.ty, at)
}

/// The skeletons of two declarations of a name are equal, where these are two and both have one.
fn tied(
    known: &Known,
    graph: &mut FlowGraph,
    is_one: bool,
    first: SkelId,
    here: SkelId,
    span: &Span,
) -> Result<(), GraphFault>
    ensures ok { OnOk result (Adds known.now graph.old graph.new
        (λ w. tied w is_one (skel known.now first) (skel known.now here) span.now)) }
    ensures err { IfErr result (λ fault. Halts known.now graph.old graph.new fault
        (λ w. tied w is_one (skel known.now first) (skel known.now here) span.now)) }
{
    if is_one || is_nothing(known.vars, first) || is_nothing(known.vars, here) {
        return Ok(());
    }
    equate_in_all(known, graph, first, here, span)
}

/// Where what a declaration is as was declared: first in its unit or in the prelude, or where this is that itself, first in all units.
/// Constant time.
fn equal_to(known: &Known, declared: &Declared) -> Place
    ensures { (w : World) → Shows known.now w
        → result ≡ rows.equal_to w (declared_of (type known.now) declared.now) }
{
    if is_place(&declared.first, &declared.at) {
        known.link(&declared.at)
    } else {
        declared.first
    }
}

/// A further declaration is as the first.
fn as_first(known: &Known, graph: &mut FlowGraph, declared: &Declared) -> Result<(), GraphFault>
    ensures ok { OnOk result (Adds known.now graph.old graph.new
        (λ w. rows.tied_to_first w (declared_of (type known.now) declared.now))) }
    ensures err { IfErr result (λ fault. Halts known.now graph.old graph.new fault
        (λ w. rows.tied_to_first w (declared_of (type known.now) declared.now))) }
{
    let first_at = equal_to(known, declared);
    let is_one = is_place(&first_at, &declared.at);
    let first = known.skeleton(&first_at);
    let here = known.skeleton(&declared.at);
    tied(known, graph, is_one, first, here, &word_span(&declared.at))
}

/// What the index words of a declared name give.
fn index_name(
    alloc: Global,
    known: &Known,
    graph: &mut FlowGraph,
    declared: &Declared,
) -> Result<(), GraphFault>
    ensures ok { OnOk result (Adds known.now graph.old graph.new (λ w.
        index_row w (declared_of (type known.now) declared.now))) }
    ensures err { IfErr result (λ fault. Halts known.now graph.old graph.new fault (λ w.
        index_row w (declared_of (type known.now) declared.now))) }
{
    let at = known.skeleton(&declared.at);
    index_place(alloc, known, graph, declared.ty, at)
}

/// What passes inside the skeleton of a declared name.
fn form_name(known: &Known, graph: &mut FlowGraph, declared: &Declared) -> Result<(), GraphFault>
    ensures ok { OnOk result (Adds known.now graph.old graph.new
        (λ w. rows.formed_name w (declared_of (type known.now) declared.now))) }
    ensures err { IfErr result (λ fault. Halts known.now graph.old graph.new fault
        (λ w. rows.formed_name w (declared_of (type known.now) declared.now))) }
{
    let at = known.skeleton(&declared.at);
    form(known, graph, at, &word_span(&declared.at))
}

/// The annotations of a declared name, what its index words say, and, where it is a further declaration, it is as the first.
fn plain_name(
    alloc: Global,
    known: &Known,
    graph: &mut FlowGraph,
    declared: &Declared,
) -> Result<(), GraphFault>
    ensures ok { OnOk result (Adds known.now graph.old graph.new
        (λ w. rows.plain_name_row w (declared_of (type known.now) declared.now))) }
    ensures err { IfErr result (λ fault. Halts known.now graph.old graph.new fault
        (λ w. rows.plain_name_row w (declared_of (type known.now) declared.now))) }
{
    annotate_name(alloc, known, graph, declared)?;
    index_name(alloc, known, graph, declared)?;
    as_first(known, graph, declared)
}

/// A declared name: what passes inside its skeleton, its annotations, what its index words say, and, where it is a further
/// declaration, it is as the first. A step for each two nodes with index words, besides, and each two of their numbers.
pub fn name(
    alloc: Global,
    known: &Known,
    graph: &mut FlowGraph,
    declared: &Declared,
) -> Result<(), GraphFault>
    ensures ok { OnOk result (Adds known.now graph.old graph.new
        (λ w. rows.name_row w (declared_of (type known.now) declared.now))) }
    ensures err { IfErr result (λ fault. Halts known.now graph.old graph.new fault
        (λ w. rows.name_row w (declared_of (type known.now) declared.now))) }
{
    form_name(known, graph, declared)?;
    plain_name(alloc, known, graph, declared)
}

/// The row of a declared name, by what it is declared as.
fn name_by_role(
    alloc: Global,
    known: &Known,
    graph: &mut FlowGraph,
    declared: &Declared,
    role: Role,
) -> Result<(), GraphFault>
    ensures ok { OnOk result (Adds known.now graph.old graph.new (λ w.
        rows.declared_row w (declared_of (type known.now) declared.now) (role_of role))) }
    ensures err { IfErr result (λ fault. Halts known.now graph.old graph.new fault (λ w.
        rows.declared_row w (declared_of (type known.now) declared.now) (role_of role))) }
{
    match role {
        Role::Typedef => Ok(()),
        Role::Object => name(alloc, known, graph, declared),
        Role::Function => name(alloc, known, graph, declared),
        Role::Parameter(_) => name(alloc, known, graph, declared),
        Role::Field(_, _) => name(alloc, known, graph, declared),
        Role::Enumerator => Ok(()),
    }
}

/// The row of a name that may be declared.
fn some_name(
    alloc: Global,
    known: &Known,
    graph: &mut FlowGraph,
    declared: &Option<Declared>,
) -> Result<(), GraphFault>
    ensures ok { OnOk result (Adds known.now graph.old graph.new (λ w.
        rows.some_declared_row w (option_map (declared_of (type known.now)) declared.now))) }
    ensures err { IfErr result (λ fault. Halts known.now graph.old graph.new fault (λ w.
        rows.some_declared_row w (option_map (declared_of (type known.now)) declared.now))) }
{
    match declared {
        Some(declared) => name_by_role(alloc, known, graph, declared, declared.role),
        None => Ok(()),
    }
}

/// What is given flows into the skeleton of what was no function first, where that is one.
fn given(
    known: &Known,
    graph: &mut FlowGraph,
    was_function: bool,
    from: SkelId,
    into: SkelId,
    span: &Span,
) -> Result<(), GraphFault>
    ensures ok { OnOk result (Adds known.now graph.old graph.new
        (λ w. given w was_function (skel known.now from) (skel known.now into) span.now)) }
    ensures err { IfErr result (λ fault. Halts known.now graph.old graph.new fault
        (λ w. given w was_function (skel known.now from) (skel known.now into) span.now)) }
{
    if was_function || is_nothing(known.vars, into) {
        return Ok(());
    }
    flow_in_all(known, graph, from, into, span)
}

/// What a function is given flows into its parameter.
fn into_param(
    known: &Known,
    graph: &mut FlowGraph,
    param: &Option<SkelId>,
    declared: &Declared,
) -> Result<(), GraphFault>
    ensures ok { OnOk result (Adds known.now graph.old graph.new (λ w. rows.into_param w
        (option_map (skel known.now) param.now) (declared_of (type known.now) declared.now))) }
    ensures err { IfErr result (λ fault. Halts known.now graph.old graph.new fault (λ w.
        rows.into_param w (option_map (skel known.now) param.now)
        (declared_of (type known.now) declared.now))) }
{
    match param {
        Some(param) => {
            let was_function = known.was_function(declared);
            let into = contents(known.vars, known.skeleton(&declared.at));
            given(
                known,
                graph,
                was_function,
                *param,
                into,
                &word_span(&declared.at),
            )
        }
        None => Ok(()),
    }
}

/// What the function of a skeleton is given flows into its parameter of a number.
fn into_param_at(
    known: &Known,
    graph: &mut FlowGraph,
    own: SkelId,
    i: u32,
    declared: &Declared,
) -> Result<(), GraphFault>
    ensures ok { OnOk result (Adds known.now graph.old graph.new (λ w. rows.into_param w
        (param_at (rules.parameters (skel known.now own)) i)
        (declared_of (type known.now) declared.now))) }
    ensures err { IfErr result (λ fault. Halts known.now graph.old graph.new fault (λ w.
        rows.into_param w (param_at (rules.parameters (skel known.now own)) i)
        (declared_of (type known.now) declared.now))) }
{
    into_param(known, graph, &parameter(known.vars, own, i), declared)
}

/// The annotations of a parameter of the function of a skeleton, and what the function is given flows into it.
fn plain_param(
    alloc: Global,
    known: &Known,
    graph: &mut FlowGraph,
    own: SkelId,
    i: u32,
    declared: &Declared,
) -> Result<(), GraphFault>
    ensures ok { OnOk result (Adds known.now graph.old graph.new (λ w. rows.plain_param_row w
        (skel known.now own) i (declared_of (type known.now) declared.now))) }
    ensures err { IfErr result (λ fault. Halts known.now graph.old graph.new fault (λ w.
        rows.plain_param_row w (skel known.now own) i
        (declared_of (type known.now) declared.now))) }
{
    annotate_name(alloc, known, graph, declared)?;
    into_param_at(known, graph, own, i, declared)
}

/// A parameter of the function of a skeleton: what passes inside its skeleton, its annotations, and what the function is given
/// flows into it.
fn param(
    alloc: Global,
    known: &Known,
    graph: &mut FlowGraph,
    own: SkelId,
    i: u32,
    declared: &Declared,
) -> Result<(), GraphFault>
    ensures ok { OnOk result (Adds known.now graph.old graph.new (λ w. rows.param_row w
        (skel known.now own) i (Some (declared_of (type known.now) declared.now)))) }
    ensures err { IfErr result (λ fault. Halts known.now graph.old graph.new fault (λ w.
        rows.param_row w (skel known.now own) i
        (Some (declared_of (type known.now) declared.now)))) }
{
    form_name(known, graph, declared)?;
    plain_param(alloc, known, graph, own, i, declared)
}

/// The row of a parameter that may be declared.
fn some_param(
    alloc: Global,
    known: &Known,
    graph: &mut FlowGraph,
    own: SkelId,
    i: u32,
    declared: &Option<Declared>,
) -> Result<(), GraphFault>
    ensures ok { OnOk result (Adds known.now graph.old graph.new (λ w. rows.param_row w
        (skel known.now own) i (option_map (declared_of (type known.now)) declared.now))) }
    ensures err { IfErr result (λ fault. Halts known.now graph.old graph.new fault (λ w.
        rows.param_row w (skel known.now own) i
        (option_map (declared_of (type known.now)) declared.now))) }
{
    match declared {
        Some(declared) => param(alloc, known, graph, own, i, declared),
        None => Ok(()),
    }
}

/// The row of the name of a declarator, by its kind. A parameter's takes time linear in its number, besides.
pub fn declared(
    alloc: Global,
    known: &Known,
    graph: &mut FlowGraph,
    kind: &RowKind,
    token: TokenId,
) -> Result<(), GraphFault>
    ensures ok { OnOk result (Adds known.now graph.old graph.new
        (λ w. rows.row_at w (kind_of (skel known.now) kind.now) token)) }
    ensures err { IfErr result (λ fault. Halts known.now graph.old graph.new fault
        (λ w. rows.row_at w (kind_of (skel known.now) kind.now) token)) }
{
    let found = known.declared_here(token);
    match kind {
        RowKind::Nothing => Ok(()),
        RowKind::Name => some_name(alloc, known, graph, &found),
        RowKind::Parameter(own, i) => some_param(alloc, known, graph, *own, *i, &found),
    }
}
