//! Casts: the operand flows in the lattices of which the type has no word.
#![tactic(auto, using(crate::proofs::Lists::with_none, crate::proofs::Lists::with_append, crate::proofs::Lists::stop_front, crate::proofs::Lists::stop_back))]

ghost use Rattle.std.specs.Prelude.{◌≡◌, ◌+◌, ◌<◌, ◌≤◌, ◌^◌, ◌∷◌, [], IfErr, MatchOption, OnOk, Some, drop, option_map};
ghost use Rattle.type_table.specs.Rows.{types_of, types_at, AreBelow};
ghost use Rattle.row_rules.specs.Worlds.{World};
ghost use Rattle.row_rules.specs.Annotations as rules;
ghost use Rattle.row_rules.specs.Annotations.{all_words, names_lattice, words_of_all};
ghost use Rattle.row_rules.specs.Rows as rows;
ghost use Rattle.row_world.specs.Shown.{Shows, skel, type};
ghost use Rattle.row_adding.specs.Adding.{Adds, Halts};
ghost use Rattle.row_adding.specs.Parts.{cast_row};

use crate::annotating::annotate;
use crate::bounds::alone;
use crate::flows::flowing;
use crate::forming::form;
use flow_graph::{FlowGraph, GraphFault};
use name_tables::name_scopes::Place;
use qual_base::{LatticeNo, SkelId, Span, TypeId};
use row_world::Known;
use std::alloc::Global;
use type_table::Shape;

/// Whether a word names an element of a lattice. Constant time.
#[tactic(auto, using(crate::proofs::Cutting::marked_so, crate::proofs::Cutting::unmarked))]
fn is_word_of(known: &Known, lattice: LatticeNo, word: &Place) -> bool
    ensures { (w : World) → Shows known.now w →
        result ≡ names_lattice w lattice (word.now ∷ []) }
{
    match known.mark(word) {
        Some(mark) => mark.0.number() == lattice.number(),
        None => false,
    }
}

/// Whether one of some words names an element of a lattice. Linear in them.
#[tactic(auto, using(crate::proofs::Cutting::named_here, crate::proofs::Cutting::not_here, crate::proofs::Cutting::none_named))]
fn is_one_of(known: &Known, lattice: LatticeNo, words: &[Place]) -> bool
    ensures { (w : World) → Shows known.now w → result ≡ names_lattice w lattice words.now }
{
    for word in words {
        if is_word_of(known, lattice, word) {
            return true;
        }
    }
    false
}

/// Whether a word of a type names an element of a lattice. Linear in the type.
#[cycle(cutting)]
#[tactic(auto, using(crate::proofs::Cutting::names_append))]
fn is_named(known: &Known, lattice: LatticeNo, ty: TypeId) -> bool
    ensures { (w : World) → Shows known.now w →
        result ≡ names_lattice w lattice (all_words (type known.now ty)) }
{
    let here = is_one_of(known, lattice, known.types.words(ty));
    match known.types.shape(ty) {
        Shape::Base => here,
        Shape::Void => here,
        Shape::Struct(_) => here,
        Shape::Ref(inside) => here || is_named(known, lattice, *inside),
        Shape::Fun {
            params,
            result: back,
            ..
        } => {
            here || is_named_in(known, lattice, ty, params)
                || is_named(known, lattice, *back)
                || is_one_of(known, lattice, known.types.ellipsis_words(ty))
        }
    }
}

/// Whether a word of some types names an element of a lattice.
#[cycle(cutting)]
#[tactic(auto, using(crate::proofs::Cutting::names_append))]
fn is_named_in(known: &Known, lattice: LatticeNo, below: TypeId, types: &[TypeId]) -> bool
    requires { AreBelow below types.now }
    ensures { (w : World) → Shows known.now w → result
        ≡ names_lattice w lattice
        (words_of_all (types_at (types_of known.now.types.now) types.now)) }
{
    match parted(types) {
        None => false,
        Some((first, rest)) => {
            is_named(known, lattice, first) || is_named_in(known, lattice, below, rest)
        }
    }
}

/// The first of some types, and the others.
fn parted(types: &[TypeId]) -> Option<(TypeId, &[TypeId])>
    ensures { MatchOption result (types.now ≡ []) (λ x. types.now ≡ x.0 ∷ x.1.now) }
{
    match types {
        [] => None,
        [first, rest @ ..] => Some((*first, rest)),
    }
}

/// The lattices from one on of which a type has no word, a bit for each. Linear in the type, for each lattice.
#[cycle(uncut)]
#[tactic(auto, using(crate::proofs::Cutting::cut_here, crate::proofs::Cutting::uncut_here, crate::proofs::Cutting::none_uncut, crate::proofs::Cutting::doubled))]
fn uncut_from(known: &Known, ty: TypeId, n: u8) -> u16
    requires { n ≤ 16 }
    ensures is { (w : World) → Shows known.now w → result
        ≡ rules.uncut_from w (all_words (type known.now ty)) n (drop n w.lattices) }
    ensures few { result + 2 ^ n ≤ 2 ^ 16 }
{
    if n >= known.lattices.len() {
        return 0;
    }
    let others = uncut_from(known, ty, n + 1);
    let lattice = LatticeNo::new(n);
    if is_named(known, lattice, ty) {
        others
    } else {
        others + alone(lattice)
    }
}

/// The lattices of which a type has no word, a bit for each. Linear in the type, for each lattice.
pub fn uncut(known: &Known, ty: TypeId) -> u16
    ensures { (w : World) → Shows known.now w → result ≡ rules.uncut w (type known.now ty) }
{
    uncut_from(known, ty, 0)
}

/// The operand of a cast flows in the lattices of which the type has no word.
fn flow_uncut(
    known: &Known,
    graph: &mut FlowGraph,
    ty: TypeId,
    is_zero: bool,
    operand: SkelId,
    own: SkelId,
    span: &Span,
) -> Result<(), GraphFault>
    ensures ok { OnOk result (Adds known.now graph.old graph.new (λ w. cast_row w
        (type known.now ty) is_zero (skel known.now operand) (skel known.now own) span.now)) }
    ensures err { IfErr result (λ fault. Halts known.now graph.old graph.new fault (λ w. cast_row w
        (type known.now ty) is_zero (skel known.now operand) (skel known.now own) span.now)) }
{
    let lattices = uncut(known, ty);
    if lattices == 0 {
        return Ok(());
    }
    flowing(known.vars, graph, is_zero, operand, own, lattices, span)
}

/// The annotations of the type of a cast, and the operand flows in the lattices of which it has no word.
fn casting(
    alloc: Global,
    known: &Known,
    graph: &mut FlowGraph,
    ty: TypeId,
    is_zero: bool,
    operand: SkelId,
    own: SkelId,
    span: &Span,
) -> Result<(), GraphFault>
    ensures ok { OnOk result (Adds known.now graph.old graph.new (λ w. rows.casting w
        (type known.now ty) is_zero (skel known.now operand) (skel known.now own) span.now)) }
    ensures err { IfErr result (λ fault. Halts known.now graph.old graph.new fault (λ w.
        rows.casting w (type known.now ty) is_zero (skel known.now operand)
        (skel known.now own) span.now)) }
{
    annotate(alloc, known, graph, ty, own)?;
    flow_uncut(known, graph, ty, is_zero, operand, own, span)
}

/// A cast to a type: what passes inside its skeleton, its annotations, and the operand flows in the lattices of which it has no
/// word.
fn cast_to(
    alloc: Global,
    known: &Known,
    graph: &mut FlowGraph,
    ty: TypeId,
    is_zero: bool,
    operand: SkelId,
    own: SkelId,
    span: &Span,
) -> Result<(), GraphFault>
    ensures ok { OnOk result (Adds known.now graph.old graph.new (λ w. rows.cast_demand w
        (Some (type known.now ty)) is_zero (skel known.now operand)
        (skel known.now own) span.now)) }
    ensures err { IfErr result (λ fault. Halts known.now graph.old graph.new fault (λ w.
        rows.cast_demand w (Some (type known.now ty)) is_zero (skel known.now operand)
        (skel known.now own) span.now)) }
{
    form(known, graph, own, span)?;
    casting(alloc, known, graph, ty, is_zero, operand, own, span)
}

/// A cast to a type, where that is known: its annotations, and the operand flows in the lattices of which it has no word. Linear
/// in the type for each lattice, besides.
pub fn cast(
    alloc: Global,
    known: &Known,
    graph: &mut FlowGraph,
    ty: &Option<TypeId>,
    is_zero: bool,
    operand: SkelId,
    own: SkelId,
    span: &Span,
) -> Result<(), GraphFault>
    ensures ok { OnOk result (Adds known.now graph.old graph.new (λ w. rows.cast_demand w
        (option_map (type known.now) ty.now) is_zero (skel known.now operand)
        (skel known.now own) span.now)) }
    ensures err { IfErr result (λ fault. Halts known.now graph.old graph.new fault (λ w.
        rows.cast_demand w (option_map (type known.now) ty.now) is_zero
        (skel known.now operand) (skel known.now own) span.now)) }
{
    match ty {
        Some(ty) => cast_to(alloc, known, graph, *ty, is_zero, operand, own, span),
        None => Ok(()),
    }
}
