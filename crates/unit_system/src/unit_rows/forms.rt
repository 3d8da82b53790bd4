//! The constraints that casts and the GNU forms give.

ghost use Rattle.std.specs.Prelude.{IfErr, OnOk};
ghost use Rattle.tape_ops.specs.declared.form.FormOp.TheVariants as forms;
ghost use Rattle.row_rules.specs.RowSteps.OpRows as op_rows;
ghost use Rattle.row_adding.specs.Adding.{Adds, Halts};
ghost use Rattle.skel_steps.specs.Stepping.{state_of};

use crate::unit_rows::flows::function_skeleton;
use flow_graph::{FlowGraph, GraphFault};
use qual_base::TokenId;
use row_adding as adding;
use row_world::Known;
use skel_steps::skel_stacks::Stacks;
use skel_steps::value_at;
use std::alloc::Global;

/// A cast.
pub(crate) fn cast_row(
    alloc: Global,
    known: &Known,
    stacks: &Stacks,
    graph: &mut FlowGraph,
    token: TokenId,
    last: TokenId,
) -> Result<(), GraphFault>
    ensures ok { OnOk result (Adds known.now graph.old graph.new (λ w.
        op_rows.form_row w (state_of known.now stacks.now) (forms.Cast token last))) }
    ensures err { IfErr result (λ fault. Halts known.now graph.old graph.new fault (λ w.
        op_rows.form_row w (state_of known.now stacks.now) (forms.Cast token last))) }
{
    let ty = stacks.type_at(1);
    let is_zero = stacks.is_zero_at(0);
    let value = value_at(known, stacks, 0);
    let own = known.own(token);
    let span = known.span(token, last);
    adding::cast(alloc, known, graph, &ty, is_zero, value, own, &span)
}

/// An argument of a list of them.
pub(crate) fn va_arg_row(
    alloc: Global,
    known: &Known,
    stacks: &Stacks,
    graph: &mut FlowGraph,
    token: TokenId,
    last: TokenId,
) -> Result<(), GraphFault>
    ensures ok { OnOk result (Adds known.now graph.old graph.new (λ w.
        op_rows.form_row w (state_of known.now stacks.now) (forms.VaArg token last))) }
    ensures err { IfErr result (λ fault. Halts known.now graph.old graph.new fault (λ w.
        op_rows.form_row w (state_of known.now stacks.now) (forms.VaArg token last))) }
{
    let ty = stacks.type_at(0);
    let list = value_at(known, stacks, 1);
    let span = known.span(token, last);
    adding::taken_fresh(alloc, known, graph, token, &ty, list, &span)
}

/// `va_start`.
pub(crate) fn va_start_row(
    known: &Known,
    stacks: &Stacks,
    graph: &mut FlowGraph,
    token: TokenId,
    last: TokenId,
) -> Result<(), GraphFault>
    ensures ok { OnOk result (Adds known.now graph.old graph.new (λ w.
        op_rows.form_row w (state_of known.now stacks.now) (forms.VaStart token last))) }
    ensures err { IfErr result (λ fault. Halts known.now graph.old graph.new fault (λ w.
        op_rows.form_row w (state_of known.now stacks.now) (forms.VaStart token last))) }
{
    let own = function_skeleton(known, &stacks.body());
    let list = value_at(known, stacks, 1);
    let span = known.span(token, last);
    adding::started(known, graph, &own, list, &span)
}

/// `va_copy`.
pub(crate) fn va_copy_row(
    known: &Known,
    stacks: &Stacks,
    graph: &mut FlowGraph,
    token: TokenId,
    last: TokenId,
) -> Result<(), GraphFault>
    ensures ok { OnOk result (Adds known.now graph.old graph.new (λ w.
        op_rows.form_row w (state_of known.now stacks.now) (forms.VaCopy token last))) }
    ensures err { IfErr result (λ fault. Halts known.now graph.old graph.new fault (λ w.
        op_rows.form_row w (state_of known.now stacks.now) (forms.VaCopy token last))) }
{
    let is_zero = stacks.is_zero_at(0);
    let from = value_at(known, stacks, 0);
    let to = value_at(known, stacks, 1);
    let span = known.span(token, last);
    adding::flowing_in_all(known, graph, is_zero, from, to, &span)
}
