//! The constraints that each op gives.

ghost use Rattle.std.specs.Prelude.{IfErr, OnOk};
ghost use Rattle.row_rules.specs.RowSteps.OpRows as op_rows;
ghost use Rattle.row_adding.specs.Adding.{Adds, Halts};
ghost use Rattle.skel_steps.specs.Stepping.{state_of};

use crate::unit_rows::flows::{
    declared_row, leaf_row, literal_row, name_row, return_row, value_row,
};
use crate::unit_rows::forms::{cast_row, va_arg_row, va_copy_row, va_start_row};
use crate::unit_rows::operators::{
    argument_row, arrow_row, assign_row, binary_row, cond_row, index_row, post_row, prefix_row,
};
use crate::unit_rows::picks::{choose_row, select_row};
use flow_graph::{FlowGraph, GraphFault};
use row_adding as adding;
use row_world::Known;
use skel_steps::skel_stacks::Stacks;
use std::alloc::Global;
use tape_ops::{DeclrOp, ExprOp, FormOp, InitOp, Op, SpecOp, StmtOp};

/// What an operand or operator gives. Linear in its row, but for what is said at its parts.
fn expression_row(
    known: &Known,
    stacks: &Stacks,
    graph: &mut FlowGraph,
    op: ExprOp,
) -> Result<(), GraphFault>
    ensures ok { OnOk result (Adds known.now graph.old graph.new
        (λ w. op_rows.expr_row w (state_of known.now stacks.now) op)) }
    ensures err { IfErr result (λ fault. Halts known.now graph.old graph.new fault
        (λ w. op_rows.expr_row w (state_of known.now stacks.now) op)) }
{
    match op {
        ExprOp::Name { token, .. } => name_row(known, graph, token),
        ExprOp::Number { .. } => Ok(()),
        ExprOp::Char { .. } => Ok(()),
        ExprOp::Text { token } => adding::form_here(known, graph, token),
        ExprOp::Paren { .. } => Ok(()),
        ExprOp::Ext { .. } => Ok(()),
        ExprOp::Comma { .. } => Ok(()),
        ExprOp::Assign {
            sign,
            first,
            last,
            ..
        } => assign_row(known, stacks, graph, sign, first, last),
        ExprOp::Cond {
            token,
            first,
            last,
            ..
        } => cond_row(known, stacks, graph, token, first, last),
        ExprOp::Binary {
            sign,
            token,
            first,
            last,
        } => binary_row(known, stacks, graph, sign, token, first, last),
        ExprOp::Prefix {
            sign,
            token,
            last,
            aims,
        } => prefix_row(known, stacks, graph, sign, token, last, aims),
        ExprOp::Post { token, first, .. } => post_row(known, stacks, graph, token, first),
        ExprOp::Index {
            first,
            last,
            aims,
            ..
        } => index_row(known, stacks, graph, first, last, aims),
        ExprOp::Arg {
            behind,
            first,
            last,
        } => argument_row(known, stacks, graph, behind, first, last),
        ExprOp::Call { .. } => Ok(()),
        ExprOp::Arrow {
            first,
            last,
            aims,
            ..
        } => arrow_row(known, stacks, graph, first, last, aims),
        ExprOp::Dot { .. } => Ok(()),
        ExprOp::Label { token } => adding::form_here(known, graph, token),
    }
}

/// What a form gives. Linear in its row.
fn form_row(
    alloc: Global,
    known: &Known,
    stacks: &Stacks,
    graph: &mut FlowGraph,
    op: FormOp,
) -> Result<(), GraphFault>
    ensures ok { OnOk result (Adds known.now graph.old graph.new
        (λ w. op_rows.form_row w (state_of known.now stacks.now) op)) }
    ensures err { IfErr result (λ fault. Halts known.now graph.old graph.new fault
        (λ w. op_rows.form_row w (state_of known.now stacks.now) op)) }
{
    match op {
        FormOp::Cast { token, last } => cast_row(alloc, known, stacks, graph, token, last),
        FormOp::Sizeof { .. } => Ok(()),
        FormOp::StmtExpr { .. } => Ok(()),
        FormOp::VaArg { token, last } => va_arg_row(alloc, known, stacks, graph, token, last),
        FormOp::VaStart { token, last } => va_start_row(known, stacks, graph, token, last),
        FormOp::VaCopy { token, last } => va_copy_row(known, stacks, graph, token, last),
        FormOp::OffsetMember { .. } => Ok(()),
        FormOp::OffsetIndex { .. } => Ok(()),
        FormOp::Offset { .. } => Ok(()),
        FormOp::Compat { .. } => Ok(()),
        FormOp::Control => Ok(()),
        FormOp::NoType => Ok(()),
        FormOp::Choose { token } => choose_row(known, stacks, graph, token),
        FormOp::Generic { token, count } => select_row(known, stacks, graph, token, count),
    }
}

/// What a part of an initialiser gives. Linear in its row.
fn initialiser_row(
    alloc: Global,
    known: &Known,
    stacks: &Stacks,
    graph: &mut FlowGraph,
    op: InitOp,
) -> Result<(), GraphFault>
    ensures ok { OnOk result (Adds known.now graph.old graph.new
        (λ w. op_rows.init_row w (state_of known.now stacks.now) op)) }
    ensures err { IfErr result (λ fault. Halts known.now graph.old graph.new fault
        (λ w. op_rows.init_row w (state_of known.now stacks.now) op)) }
{
    match op {
        InitOp::Value { first, last } => value_row(known, stacks, graph, first, last),
        InitOp::Begin => Ok(()),
        InitOp::Rule => Ok(()),
        InitOp::Literal { token } => literal_row(alloc, known, stacks, graph, token),
        InitOp::ListBegin => Ok(()),
        InitOp::Member { .. } => Ok(()),
        InitOp::Index { .. } => Ok(()),
        InitOp::Leaf { first, last } => leaf_row(known, stacks, graph, first, last),
        InitOp::ListEnd => Ok(()),
        InitOp::End => Ok(()),
        InitOp::LiteralEnd => Ok(()),
    }
}

/// What a part of specifiers gives. Linear in its row.
fn specifier_row(known: &Known, graph: &mut FlowGraph, op: SpecOp) -> Result<(), GraphFault>
    ensures ok { OnOk result (Adds known.now graph.old graph.new (λ w. op_rows.spec_row w op)) }
    ensures err { IfErr result (λ fault. Halts known.now graph.old graph.new fault
        (λ w. op_rows.spec_row w op)) }
{
    match op {
        SpecOp::Word { .. } => Ok(()),
        SpecOp::Storage { .. } => Ok(()),
        SpecOp::Void => Ok(()),
        SpecOp::Typedef { .. } => Ok(()),
        SpecOp::TagUse { .. } => Ok(()),
        SpecOp::TagAlone { .. } => Ok(()),
        SpecOp::TagBody { .. } => Ok(()),
        SpecOp::Untagged { .. } => Ok(()),
        SpecOp::BodyEnd => Ok(()),
        SpecOp::Enumerator { .. } => Ok(()),
        SpecOp::UnnamedMember { token } => adding::form_here(known, graph, token),
        SpecOp::PartBegin => Ok(()),
        SpecOp::TypeofEnd { .. } => Ok(()),
        SpecOp::TypeEnd => Ok(()),
        SpecOp::SpecsEnd => Ok(()),
    }
}

/// What a part of a declarator gives. Linear in its row.
fn declarator_row(
    alloc: Global,
    known: &Known,
    stacks: &Stacks,
    graph: &mut FlowGraph,
    op: DeclrOp,
) -> Result<(), GraphFault>
    ensures ok { OnOk result (Adds known.now graph.old graph.new
        (λ w. op_rows.declr_row w (state_of known.now stacks.now) op)) }
    ensures err { IfErr result (λ fault. Halts known.now graph.old graph.new fault
        (λ w. op_rows.declr_row w (state_of known.now stacks.now) op)) }
{
    match op {
        DeclrOp::DeclName { token, .. } => declared_row(alloc, known, stacks, graph, token),
        DeclrOp::ParamsBegin { .. } => Ok(()),
        DeclrOp::Param => Ok(()),
        DeclrOp::ParamsEnd => Ok(()),
        DeclrOp::Pointer => Ok(()),
        DeclrOp::Array => Ok(()),
        DeclrOp::Function { .. } => Ok(()),
        DeclrOp::Declare => Ok(()),
        DeclrOp::AutoBegin => Ok(()),
        DeclrOp::AutoEnd { .. } => Ok(()),
        DeclrOp::Identifier { .. } => Ok(()),
        DeclrOp::OldParam => Ok(()),
        DeclrOp::Member => Ok(()),
        DeclrOp::TypeName { .. } => Ok(()),
        DeclrOp::DeclarationEnd => Ok(()),
    }
}

/// What a statement gives. Linear in its row.
fn statement_row(
    known: &Known,
    stacks: &Stacks,
    graph: &mut FlowGraph,
    op: StmtOp,
) -> Result<(), GraphFault>
    ensures ok { OnOk result (Adds known.now graph.old graph.new
        (λ w. op_rows.stmt_row w (state_of known.now stacks.now) op)) }
    ensures err { IfErr result (λ fault. Halts known.now graph.old graph.new fault
        (λ w. op_rows.stmt_row w (state_of known.now stacks.now) op)) }
{
    match op {
        StmtOp::Quiet => Ok(()),
        StmtOp::Loud => Ok(()),
        StmtOp::Pop => Ok(()),
        StmtOp::Return { token, last } => return_row(known, stacks, graph, token, last),
        StmtOp::Enter => Ok(()),
        StmtOp::Leave => Ok(()),
        StmtOp::FunctionBody => Ok(()),
        StmtOp::FunctionEnd => Ok(()),
    }
}

/// What an op gives where it is not quiet. Linear in its row.
fn loud_row(
    alloc: Global,
    known: &Known,
    stacks: &Stacks,
    graph: &mut FlowGraph,
    op: Op,
) -> Result<(), GraphFault>
    ensures ok { OnOk result (Adds known.now graph.old graph.new
        (λ w. op_rows.loud_row w (state_of known.now stacks.now) op)) }
    ensures err { IfErr result (λ fault. Halts known.now graph.old graph.new fault
        (λ w. op_rows.loud_row w (state_of known.now stacks.now) op)) }
{
    match op {
        Op::Expr(op) => expression_row(known, stacks, graph, op),
        Op::Form(op) => form_row(alloc, known, stacks, graph, op),
        Op::Init(op) => initialiser_row(alloc, known, stacks, graph, op),
        Op::Spec(op) => specifier_row(known, graph, op),
        Op::Declr(op) => declarator_row(alloc, known, stacks, graph, op),
        Op::Stmt(op) => statement_row(known, stacks, graph, op),
    }
}

/// Adds the constraints that an op gives, by the stacks before it. Linear in its row.
pub(crate) fn add_row(
    alloc: Global,
    known: &Known,
    stacks: &Stacks,
    graph: &mut FlowGraph,
    op: &Op,
) -> Result<(), GraphFault>
    ensures ok { OnOk result (Adds known.now graph.old graph.new
        (λ w. op_rows.op_row w (state_of known.now stacks.now) op.now)) }
    ensures err { IfErr result (λ fault. Halts known.now graph.old graph.new fault
        (λ w. op_rows.op_row w (state_of known.now stacks.now) op.now)) }
{
    if stacks.is_quiet() {
        return Ok(());
    }
    loud_row(alloc, known, stacks, graph, *op)
}
