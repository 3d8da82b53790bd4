//! Operands that wait with their operators, and the last operand.

ghost use Rattle.std.specs.Prelude.{◌≡◌, nat_le, IfOk};
ghost use Rattle.c_tree.specs.Capped.{capped};
ghost use Rattle.c_tree.specs.Levels.{expr_level};
ghost use Rattle.c_nodes.specs.Sized.{expr, Makes};
ghost use Rattle.c_ops.specs.Joining.{bottom, finished};
ghost use Rattle.c_reading.specs.Expressing.{settled, depth_of};
ghost use Rattle.expr_rows.specs.OpRows.Rows.{row_of, settled_of, row_with, least_height};

use crate::op_rows::heights::{count_of, sum_of};
use crate::op_rows::op::SizedOp;
use crate::op_rows::target::is_unary;
use crate::op_rows::waiting::{Waiting, settle};
use c_nodes::SizedExpr;
use qual_base::{NoMemory, TokenId};
use std::alloc::Global;

/// The last operand that was read, and what waits before it: left operands with their operators.
///
/// Memory is linear in what waits.
#[derive(Drop)]
pub struct OpRow {
    waiting: Vec<Waiting>,
    last: SizedExpr,
}

impl OpRow {
    /// A row of one operand. Takes no memory.
    pub fn new(alloc: Global, first: SizedExpr) -> Self
        ensures { row_of result ≡ record { waiting = bottom; last = expr first } }
    {
        OpRow {
            waiting: Vec::new(alloc),
            last: first,
        }
    }

    /// Whether an assignment may come next: what it would have on its left is one unary form (C99,
    /// 6.5.16). Constant time.
    pub fn is_target(&self) -> bool
        ensures { result ≡ nat_le 14 (expr_level (settled (row_of self.now) 1).last) }
    {
        match self.waiting.last() {
            Some(newest) => newest.op.continues(1) && is_unary(&self.last.tree),
            None => is_unary(&self.last.tree),
        }
    }

    /// Joins what an operator of a level ends.
    ///
    /// Linear in what is joined; over all calls each operator is joined once. Where memory is
    /// wanting the row is lost.
    pub fn settle(self, alloc: Global, level: u8) -> Result<Self, NoMemory>
        ensures { IfOk result (λ r. settled_of r ≡ settled (row_of self) level) }
    {
        let OpRow { waiting, last } = self;
        let mut waiting = waiting;
        let last = settle(alloc, &mut waiting, last, level)?;
        Ok(OpRow { waiting, last })
    }

    /// Behind how many operands that wait the next one would stand, the last among them, at most
    /// 2^32 - 1. Constant time.
    pub fn depth(&self) -> u32
        ensures { result ≡ capped (depth_of (settled_of self.now)) }
    {
        sum_of(count_of(self.waiting.len()), 1)
    }

    /// The least height of a tree in which an operator and an operand come next, at most 2^32 - 1.
    /// Constant time.
    pub fn least_height(&self) -> u32
        ensures { result ≡ capped (least_height (settled_of self.now)) }
    {
        sum_of(self.depth(), self.last.height)
    }

    /// Puts an operator and the operand behind it. What the operator ends was joined by `settle`.
    ///
    /// Constant time but for growth. Where memory is wanting the row is lost.
    pub fn put(self, op: SizedOp, token: TokenId, operand: SizedExpr) -> Result<Self, NoMemory>
        ensures { IfOk result (λ r. row_of r ≡ row_with self op token operand) }
    {
        let OpRow { waiting, last } = self;
        let mut waiting = waiting;
        match waiting.push(Waiting {
            left: last,
            op,
            token,
        }) {
            Ok(()) => Ok(OpRow {
                waiting,
                last: operand,
            }),
            Err(_) => Err(NoMemory),
        }
    }

    /// The tree of the row, where no operator follows.
    ///
    /// Linear in the operators that wait.
    pub fn finish(self, alloc: Global) -> Result<SizedExpr, NoMemory>
        ensures { Makes result (finished (row_of self).waiting (row_of self).last) }
    {
        let OpRow { waiting, last } = self;
        let mut waiting = waiting;
        settle(alloc, &mut waiting, last, 0)
    }
}
