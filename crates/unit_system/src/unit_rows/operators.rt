//! The constraints that operators give.

ghost use Rattle.std.specs.Prelude.{◌≡◌, ◌+◌, if◌then◌else◌, IfErr, OnOk};
ghost use Rattle.tape_ops.specs.declared.expression.ExprOp.TheVariants as exprs;
ghost use Rattle.row_rules.specs.Worlds.{span};
ghost use Rattle.row_rules.specs.Annotations.{write_bounds};
ghost use Rattle.row_rules.specs.Vals as vals;
ghost use Rattle.row_rules.specs.Rows as rows;
ghost use Rattle.qual_types.specs.Skel.{root};
ghost use Rattle.row_rules.specs.RowSteps.State as states;
ghost use Rattle.row_rules.specs.RowSteps.OpRows as op_rows;
ghost use Rattle.row_world.specs.Shown.{skel};
ghost use Rattle.row_adding.specs.Adding.{Adds, Halts};
ghost use Rattle.skel_steps.specs.Stepping.{state_of};

use c_words::Punct;
use flow_graph::{FlowGraph, GraphFault};
use qual_base::{SkelId, TokenId};
use row_adding as adding;
use row_world::{Known, contents, further, parameter};
use skel_steps::skel_stacks::Stacks;
use skel_steps::{indexed, is_carrying, is_vector_index, value_at};

/// An assignment.
pub(crate) fn assign_row(
    known: &Known,
    stacks: &Stacks,
    graph: &mut FlowGraph,
    sign: Punct,
    first: TokenId,
    last: TokenId,
) -> Result<(), GraphFault>
    ensures ok { OnOk result (Adds known.now graph.old graph.new (λ w.
        rows.assigned w sign (states.is_zero_at 0 (state_of known.now stacks.now))
        (states.val_at 1 (state_of known.now stacks.now)).skel
        (states.value_at 0 (state_of known.now stacks.now)) (span w first last))) }
    ensures err { IfErr result (λ fault. Halts known.now graph.old graph.new fault (λ w.
        rows.assigned w sign (states.is_zero_at 0 (state_of known.now stacks.now))
        (states.val_at 1 (state_of known.now stacks.now)).skel
        (states.value_at 0 (state_of known.now stacks.now)) (span w first last))) }
{
    let is_zero = stacks.is_zero_at(0);
    let place = stacks.val_at(known.vars, 1);
    let value = value_at(known, stacks, 0);
    let span = known.span(first, last);
    adding::assigned(known, graph, sign, is_zero, place.skel, value, &span)
}

/// A condition.
pub(crate) fn cond_row(
    known: &Known,
    stacks: &Stacks,
    graph: &mut FlowGraph,
    token: TokenId,
    first: TokenId,
    last: TokenId,
) -> Result<(), GraphFault>
    ensures ok { OnOk result (Adds known.now graph.old graph.new (λ w.
        rows.chosen w (states.is_zero_at 1 (state_of known.now stacks.now))
        (states.is_zero_at 0 (state_of known.now stacks.now))
        (states.value_at 1 (state_of known.now stacks.now))
        (states.value_at 0 (state_of known.now stacks.now)) (vals.own w token)
        (span w first last))) }
    ensures err { IfErr result (λ fault. Halts known.now graph.old graph.new fault (λ w.
        rows.chosen w (states.is_zero_at 1 (state_of known.now stacks.now))
        (states.is_zero_at 0 (state_of known.now stacks.now))
        (states.value_at 1 (state_of known.now stacks.now))
        (states.value_at 0 (state_of known.now stacks.now)) (vals.own w token)
        (span w first last))) }
{
    let first_is_zero = stacks.is_zero_at(1);
    let last_is_zero = stacks.is_zero_at(0);
    let one = value_at(known, stacks, 1);
    let other = value_at(known, stacks, 0);
    let own = known.own(token);
    let span = known.span(first, last);
    adding::chosen(
        known,
        graph,
        first_is_zero,
        last_is_zero,
        one,
        other,
        own,
        &span,
    )
}

/// A binary operator.
pub(crate) fn binary_row(
    known: &Known,
    stacks: &Stacks,
    graph: &mut FlowGraph,
    sign: Punct,
    token: TokenId,
    first: TokenId,
    last: TokenId,
) -> Result<(), GraphFault>
    ensures ok { OnOk result (Adds known.now graph.old graph.new (λ w.
        op_rows.expr_row w (state_of known.now stacks.now)
        (exprs.Binary sign token first last))) }
    ensures err { IfErr result (λ fault. Halts known.now graph.old graph.new fault (λ w.
        op_rows.expr_row w (state_of known.now stacks.now)
        (exprs.Binary sign token first last))) }
{
    let first_is_zero = stacks.is_zero_at(1);
    let last_is_zero = stacks.is_zero_at(0);
    let one = value_at(known, stacks, 1);
    let other = value_at(known, stacks, 0);
    let own = known.own(token);
    let span = known.span(first, last);
    adding::computed(
        known,
        graph,
        sign,
        first_is_zero,
        last_is_zero,
        one,
        other,
        own,
        &span,
    )
}

/// A `&` before a place that was come to by a pointer.
fn address_row(
    known: &Known,
    stacks: &Stacks,
    graph: &mut FlowGraph,
    token: TokenId,
) -> Result<(), GraphFault>
    ensures ok { OnOk result (Adds known.now graph.old graph.new (λ w.
        rows.carried w (states.val_at 0 (state_of known.now stacks.now)).skel
        (state_of known.now stacks.now).carried (vals.own w token) (span w token token))) }
    ensures err { IfErr result (λ fault. Halts known.now graph.old graph.new fault (λ w.
        rows.carried w (states.val_at 0 (state_of known.now stacks.now)).skel
        (state_of known.now stacks.now).carried (vals.own w token) (span w token token))) }
{
    let operand = stacks.val_at(known.vars, 0);
    let pointer = stacks.carried(known.vars);
    let own = known.own(token);
    let span = known.span(token, token);
    adding::carried(known, graph, operand.skel, pointer, own, &span)
}

/// An operator before its operand.
pub(crate) fn prefix_row(
    known: &Known,
    stacks: &Stacks,
    graph: &mut FlowGraph,
    sign: Punct,
    token: TokenId,
    last: TokenId,
    aims: bool,
) -> Result<(), GraphFault>
    ensures ok { OnOk result (Adds known.now graph.old graph.new (λ w.
        op_rows.expr_row w (state_of known.now stacks.now) (exprs.Prefix sign token last aims))) }
    ensures err { IfErr result (λ fault. Halts known.now graph.old graph.new fault (λ w.
        op_rows.expr_row w (state_of known.now stacks.now) (exprs.Prefix sign token last aims))) }
{
    if is_carrying(known, sign, aims) {
        return address_row(known, stacks, graph, token);
    }
    let is_zero = stacks.is_zero_at(0);
    let operand = stacks.val_at(known.vars, 0);
    let own = known.own(token);
    let span = known.span(token, last);
    adding::prefixed(known, graph, sign, is_zero, &operand, own, aims, &span)
}

/// `++` or `--` behind its operand.
pub(crate) fn post_row(
    known: &Known,
    stacks: &Stacks,
    graph: &mut FlowGraph,
    token: TokenId,
    first: TokenId,
) -> Result<(), GraphFault>
    ensures ok { OnOk result (Adds known.now graph.old graph.new (λ w.
        write_bounds w (root (states.val_at 0 (state_of known.now stacks.now)).skel)
        (span w first token))) }
    ensures err { IfErr result (λ fault. Halts known.now graph.old graph.new fault (λ w.
        write_bounds w (root (states.val_at 0 (state_of known.now stacks.now)).skel)
        (span w first token))) }
{
    let operand = stacks.val_at(known.vars, 0);
    let span = known.span(first, token);
    adding::write_bounds(known, graph, known.vars.var(operand.skel), &span)
}

/// `[ ]`.
pub(crate) fn index_row(
    known: &Known,
    stacks: &Stacks,
    graph: &mut FlowGraph,
    first: TokenId,
    last: TokenId,
    aims: bool,
) -> Result<(), GraphFault>
    ensures ok { OnOk result (Adds known.now graph.old graph.new (λ w.
        rows.index_demand w (states.value_at 1 (state_of known.now stacks.now))
        (states.value_at 0 (state_of known.now stacks.now)) aims (span w first last))) }
    ensures err { IfErr result (λ fault. Halts known.now graph.old graph.new fault (λ w.
        rows.index_demand w (states.value_at 1 (state_of known.now stacks.now))
        (states.value_at 0 (state_of known.now stacks.now)) aims (span w first last))) }
{
    let one = value_at(known, stacks, 1);
    let other = value_at(known, stacks, 0);
    if is_vector_index(known, one, other) {
        return Ok(());
    }
    let at = indexed(known.vars, one, other);
    let span = known.span(first, last);
    adding::dereferenced(known, graph, at, aims, &span)
}

/// What a pointer before `->` points at.
pub(crate) fn arrow_row(
    known: &Known,
    stacks: &Stacks,
    graph: &mut FlowGraph,
    first: TokenId,
    last: TokenId,
    aims: bool,
) -> Result<(), GraphFault>
    ensures ok { OnOk result (Adds known.now graph.old graph.new (λ w.
        rows.dereferenced w (states.value_at 0 (state_of known.now stacks.now)) aims
        (span w first last))) }
    ensures err { IfErr result (λ fault. Halts known.now graph.old graph.new fault (λ w.
        rows.dereferenced w (states.value_at 0 (state_of known.now stacks.now)) aims
        (span w first last))) }
{
    let at = value_at(known, stacks, 0);
    let span = known.span(first, last);
    adding::dereferenced(known, graph, at, aims, &span)
}

/// The function that is called, under so many arguments that are not behind us. Constant time.
fn called_at(known: &Known, stacks: &Stacks, behind: u32) -> SkelId
    ensures { skel known.now result ≡ op_rows.called_at behind (state_of known.now stacks.now) }
{
    let below = behind as usize + stacks.passed() as usize + 1;
    contents(known.vars, value_at(known, stacks, below))
}

/// The next argument of a call. Linear in the number of the arguments before it, too.
pub(crate) fn argument_row(
    known: &Known,
    stacks: &Stacks,
    graph: &mut FlowGraph,
    behind: u32,
    first: TokenId,
    last: TokenId,
) -> Result<(), GraphFault>
    ensures ok { OnOk result (Adds known.now graph.old graph.new (λ w.
        op_rows.expr_row w (state_of known.now stacks.now) (exprs.Arg behind first last))) }
    ensures err { IfErr result (λ fault. Halts known.now graph.old graph.new fault (λ w.
        op_rows.expr_row w (state_of known.now stacks.now) (exprs.Arg behind first last))) }
{
    let is_zero = stacks.is_zero_at(behind as usize);
    let argument = value_at(known, stacks, behind as usize);
    let called = called_at(known, stacks, behind);
    let number = stacks.passed();
    let parameter = parameter(known.vars, called, number);
    let further = further(known.vars, called);
    let span = known.span(first, last);
    adding::passed(known, graph, is_zero, argument, &parameter, &further, &span)
}
