//! What operands and operators do to the stacks.

ghost use Rattle.std.specs.Prelude.{OnOk};
ghost use Rattle.row_rules.specs.RowSteps.Steps as steps;
ghost use Rattle.skel_steps.specs.Stepping.{Steps};

use crate::operands::{extension, name, number, put_own, text};
use crate::operators::{
    arrow, assign, binary_operator, call, comma, condition, index, member, post, prefix,
};
use crate::skel_stacks::Stacks;
use qual_base::NoMemory;
use row_world::Known;
use tape_ops::ExprOp;

/// What an operand or operator does. Constant time for each operand that it takes, and linear in the members of the struct that
/// it takes one of.
pub(crate) fn step_expression(
    known: &Known,
    stacks: &mut Stacks,
    op: ExprOp,
) -> Result<(), NoMemory>
    ensures { OnOk result
        (Steps known.now (λ w st. steps.expr_step w st op) stacks.old stacks.new) }
{
    match op {
        ExprOp::Name { token, .. } => name(known, stacks, token),
        ExprOp::Number { token } => number(known, stacks, token),
        ExprOp::Char { token } => put_own(known, stacks, 0, token),
        ExprOp::Text { token } => text(known, stacks, token),
        ExprOp::Paren { .. } => Ok(()),
        ExprOp::Ext { .. } => extension(known, stacks),
        ExprOp::Comma { .. } => comma(known, stacks),
        ExprOp::Assign { .. } => assign(known, stacks),
        ExprOp::Cond {
            has_middle,
            token,
            ..
        } => condition(known, stacks, has_middle, token),
        ExprOp::Binary { sign, token, .. } => binary_operator(known, stacks, sign, token),
        ExprOp::Prefix {
            sign,
            token,
            aims,
            ..
        } => prefix(known, stacks, sign, token, aims),
        ExprOp::Post { .. } => post(known, stacks),
        ExprOp::Index { aims, .. } => index(known, stacks, aims),
        ExprOp::Arg { .. } => stacks.pass_argument(),
        ExprOp::Call { count, .. } => call(known, stacks, count),
        ExprOp::Arrow { aims, .. } => arrow(known, stacks, aims),
        ExprOp::Dot { name, .. } => member(known, stacks, name),
        ExprOp::Label { token } => put_own(known, stacks, 0, token),
    }
}
