//! The constraints that choices and selections by a type give.

ghost use Rattle.std.specs.Prelude.{◌∷◌, ◌++◌, [], OnOk, IfErr, if◌then◌else◌};
ghost use Rattle.tape_ops.specs.declared.form.FormOp.TheVariants as forms;
ghost use Rattle.row_rules.specs.RowSteps.OpRows as op_rows;
ghost use Rattle.row_rules.specs.Rows as rows;
ghost use Rattle.row_rules.specs.Vals.{own};
ghost use Rattle.row_rules.specs.Worlds.{all_lattices, span};
ghost use Rattle.row_adding.specs.Adding.{Adds, Halts};
ghost use Rattle.row_rules.specs.RowSteps.State as states;
ghost use Rattle.row_rules.specs.RowSteps.Steps as steps;
ghost use Rattle.skel_steps.specs.Stepping.{state_of};
ghost use Rattle.unit_system.specs.UnitRows.Picking.{picking_row};

use flow_graph::{FlowGraph, GraphFault};
use qual_base::TokenId;
use row_adding as adding;
use row_world::Known;
use skel_steps::skel_stacks::Stacks;
use skel_steps::{chosen, depth_of, selected, value_at};

/// A candidate flows into the value of its pick, in all lattices.
fn candidate_row(
    known: &Known,
    stacks: &Stacks,
    graph: &mut FlowGraph,
    token: TokenId,
    depth: usize,
) -> Result<(), GraphFault>
    ensures ok { OnOk result (Adds known.now graph.old graph.new (λ w.
        rows.flowing (states.is_zero_at depth (state_of known.now stacks.now))
        (states.value_at depth (state_of known.now stacks.now)) (own w token)
        (all_lattices w) (span w token token))) }
    ensures err { IfErr result (λ fault. Halts known.now graph.old graph.new fault (λ w.
        rows.flowing (states.is_zero_at depth (state_of known.now stacks.now))
        (states.value_at depth (state_of known.now stacks.now)) (own w token)
        (all_lattices w) (span w token token))) }
{
    let is_zero = stacks.is_zero_at(depth);
    let value = value_at(known, stacks, depth);
    let own = known.own(token);
    let span = known.span(token, token);
    adding::flowing_in_all(known, graph, is_zero, value, own, &span)
}

/// An expression flows into the value of its pick, where it is a candidate.
fn row_where(
    known: &Known,
    stacks: &Stacks,
    graph: &mut FlowGraph,
    token: TokenId,
    is: bool,
    depth: usize,
) -> Result<(), GraphFault>
    ensures ok { OnOk result (Adds known.now graph.old graph.new (λ w. picking_row w token
        (if is then steps.candidate_at depth (state_of known.now stacks.now) ∷ [] else []))) }
    ensures err { IfErr result (λ fault. Halts known.now graph.old graph.new fault (λ w.
        picking_row w token
        (if is then steps.candidate_at depth (state_of known.now stacks.now) ∷ [] else []))) }
{
    if is {
        candidate_row(known, stacks, graph, token, depth)
    } else {
        Ok(())
    }
}

/// The candidates of a choice flow into its value, in order.
fn choice_rows(
    known: &Known,
    stacks: &Stacks,
    graph: &mut FlowGraph,
    token: TokenId,
) -> Result<(), GraphFault>
    ensures ok { OnOk result (Adds known.now graph.old graph.new (λ w.
        picking_row w token (steps.chosen (state_of known.now stacks.now)))) }
    ensures err { IfErr result (λ fault. Halts known.now graph.old graph.new fault (λ w.
        picking_row w token (steps.chosen (state_of known.now stacks.now)))) }
{
    candidate_row(known, stacks, graph, token, 1)?;
    row_where(known, stacks, graph, token, true, 0)
}

/// What passes inside the value of a choice, and its candidates flow into it.
fn fresh_choice(
    known: &Known,
    stacks: &Stacks,
    graph: &mut FlowGraph,
    token: TokenId,
) -> Result<(), GraphFault>
    ensures ok { OnOk result (Adds known.now graph.old graph.new (λ w. rows.formed_here w token
        ++ picking_row w token (steps.chosen (state_of known.now stacks.now)))) }
    ensures err { IfErr result (λ fault. Halts known.now graph.old graph.new fault (λ w.
        rows.formed_here w token
        ++ picking_row w token (steps.chosen (state_of known.now stacks.now)))) }
{
    adding::form_here(known, graph, token)?;
    choice_rows(known, stacks, graph, token)
}

/// A choice.
pub(crate) fn choose_row(
    known: &Known,
    stacks: &Stacks,
    graph: &mut FlowGraph,
    token: TokenId,
) -> Result<(), GraphFault>
    ensures ok { OnOk result (Adds known.now graph.old graph.new (λ w.
        op_rows.form_row w (state_of known.now stacks.now) (forms.Choose token))) }
    ensures err { IfErr result (λ fault. Halts known.now graph.old graph.new fault (λ w.
        op_rows.form_row w (state_of known.now stacks.now) (forms.Choose token))) }
{
    let picked = chosen(known, stacks);
    if picked.is_fresh() {
        fresh_choice(known, stacks, graph, token)
    } else {
        Ok(())
    }
}

/// The candidates of a selection flow into its value, in order.
fn selection_rows(
    known: &Known,
    stacks: &Stacks,
    graph: &mut FlowGraph,
    token: TokenId,
    count: u32,
) -> Result<(), GraphFault>
    ensures ok { OnOk result (Adds known.now graph.old graph.new (λ w. picking_row w token
        (steps.selected w token 0 count (state_of known.now stacks.now)))) }
    ensures err { IfErr result (λ fault. Halts known.now graph.old graph.new fault (λ w.
        picking_row w token (steps.selected w token 0 count (state_of known.now stacks.now)))) }
{
    for number in 0..count {
        let is = known.is_candidate(token, number as usize);
        let depth = depth_of(count, number);
        row_where(known, stacks, graph, token, is, depth)?;
    }
    Ok(())
}

/// What passes inside the value of a selection, and its candidates flow into it.
fn fresh_selection(
    known: &Known,
    stacks: &Stacks,
    graph: &mut FlowGraph,
    token: TokenId,
    count: u32,
) -> Result<(), GraphFault>
    ensures ok { OnOk result (Adds known.now graph.old graph.new (λ w. rows.formed_here w token
        ++ picking_row w token (steps.selected w token 0 count (state_of known.now stacks.now)))) }
    ensures err { IfErr result (λ fault. Halts known.now graph.old graph.new fault (λ w.
        rows.formed_here w token ++ picking_row w token
        (steps.selected w token 0 count (state_of known.now stacks.now)))) }
{
    adding::form_here(known, graph, token)?;
    selection_rows(known, stacks, graph, token, count)
}

/// A selection by a type.
pub(crate) fn select_row(
    known: &Known,
    stacks: &Stacks,
    graph: &mut FlowGraph,
    token: TokenId,
    count: u32,
) -> Result<(), GraphFault>
    ensures ok { OnOk result (Adds known.now graph.old graph.new (λ w.
        op_rows.form_row w (state_of known.now stacks.now) (forms.Generic token count))) }
    ensures err { IfErr result (λ fault. Halts known.now graph.old graph.new fault (λ w.
        op_rows.form_row w (state_of known.now stacks.now) (forms.Generic token count))) }
{
    let picked = selected(known, stacks, token, count);
    if picked.is_fresh() {
        fresh_selection(known, stacks, graph, token, count)
    } else {
        Ok(())
    }
}
