//! The annotations of a type, side by side with a skeleton of it.
#![tactic(auto, using(crate::proofs::Lists::with_none, crate::proofs::Lists::with_append, crate::proofs::Lists::stop_front, crate::proofs::Lists::stop_back, crate::proofs::Lists::stop_first, crate::proofs::Wording::annotations_append))]

ghost use Rattle.std.specs.Prelude.{◌≡◌, ◌<◌, ◌∷◌, [], true, IfErr, MatchOption, OnOk, option_map};
ghost use Rattle.type_table.specs.Types.{pointer, words_of, ellipsis_words_of};
ghost use Rattle.type_table.specs.Rows.{types_of, types_at, AreBelow};
ghost use Rattle.qual_types.specs.Skel.{root};
ghost use Rattle.qual_types.specs.Rows.{skel_of, params_from};
ghost use Rattle.qual_types.specs.Table.{IsVar, IsSomeVar};
ghost use Rattle.row_rules.specs.Annotations as rules;
ghost use Rattle.row_rules.specs.Annotations.{annotation_constraints, some_annotations_at};
ghost use Rattle.row_rules.specs.Annotations.{words_of_level, sorted};
ghost use Rattle.row_rules.specs.Rows as rows;
ghost use Rattle.row_world.specs.Shown.{skel, type};
ghost use Rattle.row_adding.specs.Adding.{Adds, Halts};
ghost use Rattle.row_adding.specs.Nodes.{annotated_inside, words_at, words_row};
ghost use Rattle.row_adding.specs.Nodes.{both_row, function_row, params_row};

use crate::marks::add_words;
use crate::words::{outer_words, sort_words, words_at};
use flow_graph::{FlowGraph, GraphFault};
use name_tables::name_scopes::Place;
use qual_base::{NoMemory, SkelId, TypeId, VarId};
use qual_types::{Look, VarTable};
use row_world::{Known, further, outcome};
use std::alloc::Global;
use type_table::Shape;

/// The annotations of a skeleton of a type: those of each constructor, in pre-order. Linear in the type, but for the words of one
/// constructor, each two of which take a step.
#[cycle(annotating)]
#[tactic(auto, using(crate::proofs::Noding::node_added, crate::proofs::Noding::stops_at_node, crate::proofs::Noding::stops_inside_node))]
pub fn annotate(
    alloc: Global,
    known: &Known,
    graph: &mut FlowGraph,
    ty: TypeId,
    at: SkelId,
) -> Result<(), GraphFault>
    ensures ok { OnOk result (Adds known.now graph.old graph.new
        (λ w. rules.annotating w (type known.now ty) (skel known.now at))) }
    ensures err { IfErr result (λ fault. Halts known.now graph.old graph.new fault
        (λ w. rules.annotating w (type known.now ty) (skel known.now at))) }
{
    annotate_root(alloc, known, graph, ty, at)?;
    annotate_inside(alloc, known, graph, ty, at)
}

/// The annotations of the outermost constructor.
fn annotate_root(
    alloc: Global,
    known: &Known,
    graph: &mut FlowGraph,
    ty: TypeId,
    at: SkelId,
) -> Result<(), GraphFault>
    ensures ok { OnOk result (Adds known.now graph.old graph.new
        (λ w. words_row w (root (skel known.now at)) (sorted (words_at w (type known.now ty))))) }
    ensures err { IfErr result (λ fault. Halts known.now graph.old graph.new fault
        (λ w. words_row w (root (skel known.now at)) (sorted (words_at w (type known.now ty))))) }
{
    match words_at(alloc, known, ty) {
        Ok(words) => add_words(known, graph, known.vars.var(at), words.as_slice()),
        Err(NoMemory) => Err(GraphFault::NoMemory),
    }
}

/// The annotations of the other constructors.
#[cycle(annotating)]
fn annotate_inside(
    alloc: Global,
    known: &Known,
    graph: &mut FlowGraph,
    ty: TypeId,
    at: SkelId,
) -> Result<(), GraphFault>
    ensures ok { OnOk result (Adds known.now graph.old graph.new (λ w.
        annotation_constraints w (annotated_inside w (type known.now ty) (skel known.now at)))) }
    ensures err { IfErr result (λ fault. Halts known.now graph.old graph.new fault (λ w.
        annotation_constraints w (annotated_inside w (type known.now ty) (skel known.now at)))) }
{
    match known.types.shape(ty) {
        Shape::Base => Ok(()),
        Shape::Void => Ok(()),
        Shape::Struct(_) => Ok(()),
        Shape::Ref(inside) => { annotate(alloc, known, graph, *inside, inner(known.vars, at)) }
        Shape::Fun {
            params,
            result: back,
            ..
        } => annotate_function(alloc, known, graph, ty, params, *back, at),
    }
}

/// The annotations of the parameters of a function, of its result, and of its further arguments.
#[cycle(annotating)]
fn annotate_function(
    alloc: Global,
    known: &Known,
    graph: &mut FlowGraph,
    ty: TypeId,
    params: &[TypeId],
    back: TypeId,
    at: SkelId,
) -> Result<(), GraphFault>
    requires params { AreBelow ty params.now }
    requires back { back < ty }
    ensures ok { OnOk result (Adds known.now graph.old graph.new (λ w. function_row w
        (types_at (types_of known.now.types.now) params.now) (type known.now back)
        (ellipsis_words_of (type known.now ty)) (skel known.now at))) }
    ensures err { IfErr result (λ fault. Halts known.now graph.old graph.new fault (λ w.
        function_row w (types_at (types_of known.now.types.now) params.now)
        (type known.now back) (ellipsis_words_of (type known.now ty)) (skel known.now at))) }
{
    annotate_all(alloc, known, graph, ty, params, at)?;
    annotate(alloc, known, graph, back, outcome(known.vars, at))?;
    let words = known.types.ellipsis_words(ty);
    annotate_further(alloc, known, graph, &further(known.vars, at), words)
}

/// The annotations of the parameters that a function and its skeleton both have.
#[cycle(annotating)]
#[tactic(auto, using(crate::proofs::Lists::with_none, crate::proofs::Noding::none_of_no_skels))]
fn annotate_all(
    alloc: Global,
    known: &Known,
    graph: &mut FlowGraph,
    below: TypeId,
    params: &[TypeId],
    at: SkelId,
) -> Result<(), GraphFault>
    requires { AreBelow below params.now }
    ensures ok { OnOk result (Adds known.now graph.old graph.new (λ w.
        params_row w (types_at (types_of known.now.types.now) params.now)
        (rules.parameters (skel known.now at)))) }
    ensures err { IfErr result (λ fault. Halts known.now graph.old graph.new fault (λ w.
        params_row w (types_at (types_of known.now.types.now) params.now)
        (rules.parameters (skel known.now at)))) }
{
    match known.vars.look(at) {
        Look::Fun { first, .. } => annotate_params(alloc, known, graph, below, params, first),
        Look::Flat(_, _) => Ok(()),
        Look::Ref(_, _) => Ok(()),
    }
}

/// The annotations of parameters, from one of a skeleton on.
#[cycle(annotating)]
fn annotate_params(
    alloc: Global,
    known: &Known,
    graph: &mut FlowGraph,
    below: TypeId,
    params: &[TypeId],
    at: SkelId,
) -> Result<(), GraphFault>
    requires { AreBelow below params.now }
    ensures ok { OnOk result (Adds known.now graph.old graph.new (λ w.
        params_row w (types_at (types_of known.now.types.now) params.now)
        (params_from known.now.vars.now at))) }
    ensures err { IfErr result (λ fault. Halts known.now graph.old graph.new fault (λ w.
        params_row w (types_at (types_of known.now.types.now) params.now)
        (params_from known.now.vars.now at))) }
{
    match parted(params) {
        None => Ok(()),
        Some((first, rest)) => match known.vars.next_part(at) {
            Some(next) => annotate_both(alloc, known, graph, below, first, rest, at, next),
            None => Ok(()),
        },
    }
}

/// The annotations of a parameter, and of those behind it.
#[cycle(annotating)]
fn annotate_both(
    alloc: Global,
    known: &Known,
    graph: &mut FlowGraph,
    below: TypeId,
    first: TypeId,
    rest: &[TypeId],
    at: SkelId,
    next: SkelId,
) -> Result<(), GraphFault>
    requires first { first < below }
    requires rest { AreBelow below rest.now }
    ensures ok { OnOk result (Adds known.now graph.old graph.new (λ w. both_row w
        (type known.now first) (types_at (types_of known.now.types.now) rest.now)
        (skel known.now at) (params_from known.now.vars.now next))) }
    ensures err { IfErr result (λ fault. Halts known.now graph.old graph.new fault (λ w. both_row w
        (type known.now first) (types_at (types_of known.now.types.now) rest.now)
        (skel known.now at) (params_from known.now.vars.now next))) }
{
    annotate(alloc, known, graph, first, at)?;
    annotate_params(alloc, known, graph, below, rest, next)
}

/// The first of some types, and the others.
pub(crate) fn parted(types: &[TypeId]) -> Option<(TypeId, &[TypeId])>
    ensures { MatchOption result (types.now ≡ []) (λ x. types.now ≡ x.0 ∷ x.1.now) }
{
    match types {
        [] => None,
        [first, rest @ ..] => Some((*first, rest)),
    }
}

/// What a reference holds; of what is none, itself.
pub(crate) fn inner(vars: &VarTable, at: SkelId) -> SkelId
    ensures { skel_of vars.now result ≡ rules.inner (skel_of vars.now at) }
{
    match vars.look(at) {
        Look::Ref(_, inside) => inside,
        Look::Flat(_, _) => at,
        Look::Fun { .. } => at,
    }
}

/// The annotations of the variable of further arguments, where there is one.
fn annotate_further(
    alloc: Global,
    known: &Known,
    graph: &mut FlowGraph,
    var: &Option<VarId>,
    words: &[Place],
) -> Result<(), GraphFault>
    requires { IsSomeVar var.now }
    ensures ok { OnOk result (Adds known.now graph.old graph.new
        (λ w. annotation_constraints w (some_annotations_at var.now (sorted words.now)))) }
    ensures err { IfErr result (λ fault. Halts known.now graph.old graph.new fault
        (λ w. annotation_constraints w (some_annotations_at var.now (sorted words.now)))) }
{
    match var {
        Some(var) => match sort_words(alloc, words) {
            Ok(words) => add_words(known, graph, *var, words.as_slice()),
            Err(NoMemory) => Err(GraphFault::NoMemory),
        },
        None => Ok(()),
    }
}

/// The annotations of a place of a type: those of the reference that it is, and those of what it holds. The same cost.
#[tactic(auto, using(crate::proofs::Noding::place_added, crate::proofs::Noding::stops_at_place, crate::proofs::Noding::stops_inside_place))]
pub fn annotate_place(
    alloc: Global,
    known: &Known,
    graph: &mut FlowGraph,
    ty: TypeId,
    at: SkelId,
) -> Result<(), GraphFault>
    ensures ok { OnOk result (Adds known.now graph.old graph.new
        (λ w. rules.annotating w (pointer [] (type known.now ty)) (skel known.now at))) }
    ensures err { IfErr result (λ fault. Halts known.now graph.old graph.new fault
        (λ w. rules.annotating w (pointer [] (type known.now ty)) (skel known.now at))) }
{
    annotate_outer(alloc, known, graph, ty, known.vars.var(at))?;
    annotate(alloc, known, graph, ty, inner(known.vars, at))
}

/// The words of references that are written on a type annotate the reference around it.
fn annotate_outer(
    alloc: Global,
    known: &Known,
    graph: &mut FlowGraph,
    ty: TypeId,
    var: VarId,
) -> Result<(), GraphFault>
    requires { IsVar var }
    ensures ok { OnOk result (Adds known.now graph.old graph.new (λ w.
        words_row w var (sorted (words_of_level w true (words_of (type known.now ty)))))) }
    ensures err { IfErr result (λ fault. Halts known.now graph.old graph.new fault (λ w.
        words_row w var (sorted (words_of_level w true (words_of (type known.now ty)))))) }
{
    match outer_words(alloc, known, ty) {
        Ok(words) => add_words(known, graph, var, words.as_slice()),
        Err(NoMemory) => Err(GraphFault::NoMemory),
    }
}

/// The annotations of a type that is named, where it is known.
pub fn annotate_some(
    alloc: Global,
    known: &Known,
    graph: &mut FlowGraph,
    ty: &Option<TypeId>,
    at: SkelId,
) -> Result<(), GraphFault>
    ensures ok { OnOk result (Adds known.now graph.old graph.new (λ w.
        rows.annotating_some w (option_map (type known.now) ty.now) (skel known.now at))) }
    ensures err { IfErr result (λ fault. Halts known.now graph.old graph.new fault (λ w.
        rows.annotating_some w (option_map (type known.now) ty.now) (skel known.now at))) }
{
    match ty {
        Some(ty) => annotate(alloc, known, graph, *ty, at),
        None => Ok(()),
    }
}

/// The annotations of a place of a type that is named, where it is known.
pub fn annotate_some_place(
    alloc: Global,
    known: &Known,
    graph: &mut FlowGraph,
    ty: &Option<TypeId>,
    at: SkelId,
) -> Result<(), GraphFault>
    ensures ok { OnOk result (Adds known.now graph.old graph.new (λ w.
        rows.annotating_place w (option_map (type known.now) ty.now) (skel known.now at))) }
    ensures err { IfErr result (λ fault. Halts known.now graph.old graph.new fault (λ w.
        rows.annotating_place w (option_map (type known.now) ty.now) (skel known.now at))) }
{
    match ty {
        Some(ty) => annotate_place(alloc, known, graph, *ty, at),
        None => Ok(()),
    }
}
