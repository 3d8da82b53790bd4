//! The rows of operators.
#![tactic(auto, using(crate::proofs::Lists::with_none, crate::proofs::Lists::with_append, crate::proofs::Lists::stop_front, crate::proofs::Lists::stop_back))]

ghost use Rattle.std.specs.Prelude.{◌≡◌, IfErr, None, OnOk, Some, option_map};
ghost use Rattle.qual_types.specs.Table.{IsVar, IsSomeVar};
ghost use Rattle.row_rules.specs.Rows as rows;
ghost use Rattle.row_rules.specs.Vals as vals;
ghost use Rattle.row_world.specs.Shown.{skel, val};
ghost use Rattle.row_adding.specs.Adding.{Adds, Halts};
ghost use Rattle.row_adding.specs.Parts.{chosen_row, moved, computes_none, pointed};

use crate::bounds::{dereferenced, written};
use crate::flows::{add, flowing_in_all, smash_in_all};
use crate::forming::form;
use c_words::Punct;
use flow_graph::{FlowGraph, GraphFault, Link};
use qual_base::{SkelId, Span, VarId};
use row_world::{Known, Operand, contents, is_additive, is_empty, is_nothing, is_ref, value};

/// Whether a sign is `+=` or `-=`.
fn is_plus_or_minus(sign: Punct) -> bool
    ensures { result ≡ rows.is_plus_or_minus sign }
{
    match sign {
        Punct::PlusEqual => true,
        Punct::MinusEqual => true,
        _ => false,
    }
}

/// What an assignment to a place moves: nothing, where `+=` or `-=` moves a pointer, else the value.
fn moved(
    known: &Known,
    graph: &mut FlowGraph,
    sign: Punct,
    is_zero: bool,
    place: SkelId,
    value: SkelId,
    span: &Span,
) -> Result<(), GraphFault>
    ensures ok { OnOk result (Adds known.now graph.old graph.new (λ w. moved w sign is_zero
        (vals.contents (skel known.now place)) (skel known.now value) span.now)) }
    ensures err { IfErr result (λ fault. Halts known.now graph.old graph.new fault (λ w. moved w
        sign is_zero (vals.contents (skel known.now place)) (skel known.now value) span.now)) }
{
    let into = contents(known.vars, place);
    if is_plus_or_minus(sign) && is_ref(known.vars, into) {
        return Ok(());
    }
    flowing_in_all(known, graph, is_zero, value, into, span)
}

/// An assignment of a value to a place: `+=` and `-=` move a pointer, and nothing flows into it.
pub fn assigned(
    known: &Known,
    graph: &mut FlowGraph,
    sign: Punct,
    is_zero: bool,
    place: SkelId,
    value: SkelId,
    span: &Span,
) -> Result<(), GraphFault>
    ensures ok { OnOk result (Adds known.now graph.old graph.new (λ w.
        rows.assigned w sign is_zero (skel known.now place) (skel known.now value) span.now)) }
    ensures err { IfErr result (λ fault. Halts known.now graph.old graph.new fault (λ w.
        rows.assigned w sign is_zero (skel known.now place) (skel known.now value) span.now)) }
{
    written(known, graph, place, span)?;
    moved(known, graph, sign, is_zero, place, value, span)
}

/// Whether an operator compares or decides.
fn is_logical(sign: Punct) -> bool
    ensures { result ≡ rows.is_logical sign }
{
    match sign {
        Punct::BarBar => true,
        Punct::AmpersandAmpersand => true,
        Punct::EqualEqual => true,
        Punct::BangEqual => true,
        Punct::Less => true,
        Punct::Greater => true,
        Punct::LessEqual => true,
        Punct::GreaterEqual => true,
        _ => false,
    }
}

/// Whether an operator computes no number from its operands: it compares, decides, or moves a pointer.
fn computes_none(known: &Known, sign: Punct, first: SkelId, last: SkelId) -> bool
    ensures { result ≡ computes_none sign (skel known.now first) (skel known.now last) }
{
    is_logical(sign)
        || (is_additive(sign) && (is_ref(known.vars, first) || is_ref(known.vars, last)))
}

/// Both operands of an operator flow into its fresh value, where numbers are computed.
pub fn computed(
    known: &Known,
    graph: &mut FlowGraph,
    sign: Punct,
    first_is_zero: bool,
    last_is_zero: bool,
    first: SkelId,
    last: SkelId,
    own: SkelId,
    span: &Span,
) -> Result<(), GraphFault>
    ensures ok { OnOk result (Adds known.now graph.old graph.new (λ w.
        rows.computed w sign first_is_zero last_is_zero (skel known.now first)
        (skel known.now last) (skel known.now own) span.now)) }
    ensures err { IfErr result (λ fault. Halts known.now graph.old graph.new fault (λ w.
        rows.computed w sign first_is_zero last_is_zero (skel known.now first)
        (skel known.now last) (skel known.now own) span.now)) }
{
    if computes_none(known, sign, first, last) {
        return Ok(());
    }
    flowing_in_all(known, graph, first_is_zero, first, own, span)?;
    flowing_in_all(known, graph, last_is_zero, last, own, span)
}

/// Both branches of a condition flow into its fresh value.
fn branched(
    known: &Known,
    graph: &mut FlowGraph,
    first: SkelId,
    last: SkelId,
    own: SkelId,
    span: &Span,
) -> Result<(), GraphFault>
    ensures ok { OnOk result (Adds known.now graph.old graph.new (λ w. rows.branched w
        (skel known.now first) (skel known.now last) (skel known.now own) span.now)) }
    ensures err { IfErr result (λ fault. Halts known.now graph.old graph.new fault (λ w.
        rows.branched w (skel known.now first) (skel known.now last) (skel known.now own)
        span.now)) }
{
    flowing_in_all(known, graph, false, first, own, span)?;
    flowing_in_all(known, graph, false, last, own, span)
}

/// What passes inside the fresh value of a condition, and both branches flow into it.
fn chosen_fresh(
    known: &Known,
    graph: &mut FlowGraph,
    first: SkelId,
    last: SkelId,
    own: SkelId,
    span: &Span,
) -> Result<(), GraphFault>
    ensures ok { OnOk result (Adds known.now graph.old graph.new (λ w. chosen_row w
        (skel known.now first) (skel known.now last) (skel known.now own) span.now)) }
    ensures err { IfErr result (λ fault. Halts known.now graph.old graph.new fault (λ w.
        chosen_row w (skel known.now first) (skel known.now last) (skel known.now own)
        span.now)) }
{
    form(known, graph, own, span)?;
    branched(known, graph, first, last, own, span)
}

/// A condition has a fresh value where no branch is a zero: what passes inside that, and both branches flow into it.
pub fn chosen(
    known: &Known,
    graph: &mut FlowGraph,
    first_is_zero: bool,
    last_is_zero: bool,
    first: SkelId,
    last: SkelId,
    own: SkelId,
    span: &Span,
) -> Result<(), GraphFault>
    ensures ok { OnOk result (Adds known.now graph.old graph.new (λ w. rows.chosen w first_is_zero
        last_is_zero (skel known.now first) (skel known.now last) (skel known.now own) span.now)) }
    ensures err { IfErr result (λ fault. Halts known.now graph.old graph.new fault (λ w.
        rows.chosen w first_is_zero last_is_zero (skel known.now first) (skel known.now last)
        (skel known.now own) span.now)) }
{
    if first_is_zero || last_is_zero {
        return Ok(());
    }
    chosen_fresh(known, graph, first, last, own, span)
}

/// A pointer that carries another one is at least that, in the lattices with an element that bounds accesses, where both are there.
fn carrying(
    known: &Known,
    graph: &mut FlowGraph,
    pointer: SkelId,
    own: SkelId,
    span: &Span,
) -> Result<(), GraphFault>
    ensures ok { OnOk result (Adds known.now graph.old graph.new (λ w.
        rows.carrying w (skel known.now pointer) (skel known.now own) span.now)) }
    ensures err { IfErr result (λ fault. Halts known.now graph.old graph.new fault (λ w.
        rows.carrying w (skel known.now pointer) (skel known.now own) span.now)) }
{
    if is_nothing(known.vars, pointer) || is_nothing(known.vars, own) {
        return Ok(());
    }
    let below = known.vars.var(pointer);
    let above = known.vars.var(own);
    add(graph, known.access_lattices(), span, Link::Le(below, above))
}

/// A pointer that carries another one points at its place, and is at least that one.
fn pointed(
    known: &Known,
    graph: &mut FlowGraph,
    place: SkelId,
    pointer: SkelId,
    own: SkelId,
    span: &Span,
) -> Result<(), GraphFault>
    ensures ok { OnOk result (Adds known.now graph.old graph.new (λ w. pointed w
        (skel known.now place) (skel known.now pointer) (skel known.now own) span.now)) }
    ensures err { IfErr result (λ fault. Halts known.now graph.old graph.new fault (λ w.
        pointed w (skel known.now place) (skel known.now pointer) (skel known.now own)
        span.now)) }
{
    flowing_in_all(known, graph, false, place, own, span)?;
    carrying(known, graph, pointer, own, span)
}

/// A pointer that `&` makes to a place that was come to by a pointer: what passes inside its fresh value, that it points at the place, and
/// that it is at least that pointer, in the lattices with an element that bounds accesses.
pub fn carried(
    known: &Known,
    graph: &mut FlowGraph,
    place: SkelId,
    pointer: SkelId,
    own: SkelId,
    span: &Span,
) -> Result<(), GraphFault>
    ensures ok { OnOk result (Adds known.now graph.old graph.new (λ w. rows.carried w
        (skel known.now place) (skel known.now pointer) (skel known.now own) span.now)) }
    ensures err { IfErr result (λ fault. Halts known.now graph.old graph.new fault (λ w.
        rows.carried w (skel known.now place) (skel known.now pointer) (skel known.now own)
        span.now)) }
{
    form(known, graph, own, span)?;
    pointed(known, graph, place, pointer, own, span)
}

/// An operator before an operand: what `++` and `--` write to and what `*` dereferences is bounded, and the operand of `+`, `-`
/// and `~` flows into its fresh value.
pub fn prefixed(
    known: &Known,
    graph: &mut FlowGraph,
    sign: Punct,
    is_zero: bool,
    operand: &Operand,
    own: SkelId,
    aims: bool,
    span: &Span,
) -> Result<(), GraphFault>
    ensures ok { OnOk result (Adds known.now graph.old graph.new (λ w. rows.prefixed w sign is_zero
        (val known.now operand.now) (skel known.now own) aims span.now)) }
    ensures err { IfErr result (λ fault. Halts known.now graph.old graph.new fault (λ w.
        rows.prefixed w sign is_zero (val known.now operand.now) (skel known.now own) aims
        span.now)) }
{
    match sign {
        Punct::PlusPlus => written(known, graph, operand.skel, span),
        Punct::MinusMinus => written(known, graph, operand.skel, span),
        Punct::Star => dereferenced(known, graph, value(known.vars, operand), aims, span),
        Punct::Plus => {
            flowing_in_all(known, graph, is_zero, value(known.vars, operand), own, span)
        }
        Punct::Minus => {
            flowing_in_all(known, graph, is_zero, value(known.vars, operand), own, span)
        }
        Punct::Tilde => {
            flowing_in_all(known, graph, is_zero, value(known.vars, operand), own, span)
        }
        _ => Ok(()),
    }
}

/// What is behind all parameters flows into the variable of a function's further arguments.
fn passed_further(
    known: &Known,
    graph: &mut FlowGraph,
    is_zero: bool,
    argument: SkelId,
    further: VarId,
    span: &Span,
) -> Result<(), GraphFault>
    requires { IsVar further }
    ensures ok { OnOk result (Adds known.now graph.old graph.new (λ w.
        rows.passed w is_zero (skel known.now argument) None (Some further) span.now)) }
    ensures err { IfErr result (λ fault. Halts known.now graph.old graph.new fault (λ w.
        rows.passed w is_zero (skel known.now argument) None (Some further) span.now)) }
{
    if is_zero || is_empty(known.vars, argument) {
        return Ok(());
    }
    smash_in_all(known, graph, argument, further, span)
}

/// An argument: into its parameter, or past the parameters into what stands for all further arguments.
pub fn passed(
    known: &Known,
    graph: &mut FlowGraph,
    is_zero: bool,
    argument: SkelId,
    parameter: &Option<SkelId>,
    further: &Option<VarId>,
    span: &Span,
) -> Result<(), GraphFault>
    requires { IsSomeVar further.now }
    ensures ok { OnOk result (Adds known.now graph.old graph.new (λ w. rows.passed w is_zero
        (skel known.now argument) (option_map (skel known.now) parameter.now) further.now
        span.now)) }
    ensures err { IfErr result (λ fault. Halts known.now graph.old graph.new fault (λ w.
        rows.passed w is_zero (skel known.now argument)
        (option_map (skel known.now) parameter.now) further.now span.now)) }
{
    match parameter {
        Some(into) => flowing_in_all(known, graph, is_zero, argument, *into, span),
        None => match further {
            Some(further) => passed_further(known, graph, is_zero, argument, *further, span),
            None => Ok(()),
        },
    }
}
