//! Left operands that wait for the right operands of their operators.

ghost use Rattle.c_nodes.specs.Sized.{expr, Makes};
ghost use Rattle.expr_rows.specs.OpRows.Rows.{joined, IsTaken, Settles};

use crate::op_rows::heights::above_three;
use crate::op_rows::op::SizedOp;
use c_nodes::SizedExpr;
use c_ops::operated;
use qual_base::{NoMemory, TokenId};
use std::alloc::Global;

/// A left operand with its operator.
#[derive(Drop)]
pub(crate) struct Waiting {
    pub(crate) left: SizedExpr,
    pub(crate) op: SizedOp,
    pub(crate) token: TokenId,
}

/// The operator with both its operands.
fn join(alloc: Global, waiting: Waiting, right: SizedExpr) -> Result<SizedExpr, NoMemory>
    ensures { Makes result (joined waiting (expr right)) }
{
    let Waiting { left, op, token } = waiting;
    let height = above_three(left.height, op.height, right.height);
    match Box::new(alloc, operated(left.tree, token, op.op, right.tree)) {
        Ok(tree) => Ok(SizedExpr { tree, height }),
        Err(_) => Err(NoMemory),
    }
}

/// Takes the newest, where its right operand ends before an operator of a level.
fn take_ended(waiting: &mut Vec<Waiting>, level: u8) -> Option<Waiting>
    ensures { IsTaken level waiting.old.items result waiting.new.items }
{
    let newest = waiting.last()?;
    if newest.op.continues(level) {
        None
    } else {
        waiting.pop()
    }
}

/// Joins all whose right operands end before an operator of a level.
///
/// Linear in those that are joined.
pub(crate) fn settle(
    alloc: Global,
    waiting: &mut Vec<Waiting>,
    last: SizedExpr,
    level: u8,
) -> Result<SizedExpr, NoMemory>
    ensures { Settles level waiting.old.items (expr last) result waiting.new.items }
{
    let mut last = last;
    while let Some(left) = take_ended(waiting, level) {
        last = join(alloc, left, last)?;
    }
    Ok(last)
}
