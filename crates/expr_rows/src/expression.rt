//! Rows of operators with their operands.

ghost use Rattle.c_reading.specs.Expressing.{operation_turn};
ghost use Rattle.c_reading.specs.Knot.{knot};
ghost use Rattle.reader_base.specs.Lent.{Lends, ReadsExpr, begun_of};
ghost use Rattle.reader_base.specs.Looping.{IsLoop};
ghost use Rattle.expr_rows.specs.Turning.{ReadsRow, operations_at, row_at, expr_at};

use crate::choice::chosen;
use crate::op_rows::OpRow;
use crate::operand::operand;
use crate::operation::operation_by;
use c_nodes::SizedExpr;
use c_reading::{Reach, turns_take_tokens};
use expr_forms::unary;
use reader_base::{Answer, Ask, Begun, Cursor, ReadError};

/// Each operator that is read takes a token.
fn operations_step(reach: Reach, room: u16, depth: u32)
    ensures { IsLoop (operation_turn (knot depth) reach room) }
{
    turns_take_tokens(depth);
}

/// Operators with their operands behind a first operand.
fn operations<'a, F>(
    lent: &F,
    reach: Reach,
    first: SizedExpr,
    room: u16,
    cursor: &mut Cursor<'a>,
    depth: u32,
) -> Result<OpRow, ReadError>
where
    F: Fn(Ask, &mut Cursor<'a>) -> Result<Answer, ReadError>,
    requires { Lends F.Fn lent.now depth }
    ensures { ReadsRow cursor.old cursor.new result (operations_at depth reach first room) }
{
    operations_step(reach, room, depth);
    let mut row = OpRow::new(cursor.alloc, first);
    while let Some(form) = chosen(reach, &row, cursor.rest)? {
        row = operation_by(lent, form, row, room, cursor, depth)?;
    }
    Ok(row)
}

/// Operands and operators in turn, and the tree of them.
#[tactic(auto, unfolding(c_reading::specs::Expressing::row_with, c_reading::specs::Reading::and_then))]
fn row<'a, F>(
    lent: &F,
    reach: Reach,
    begun: Begun,
    room: u16,
    cursor: &mut Cursor<'a>,
    depth: u32,
) -> Result<SizedExpr, ReadError>
where
    F: Fn(Ask, &mut Cursor<'a>) -> Result<Answer, ReadError>,
    requires { Lends F.Fn lent.now depth }
    ensures { ReadsExpr cursor.old cursor.new result (row_at depth reach (begun_of begun) room) }
{
    let first = operand(lent, begun, room, cursor, depth)?;
    let row = operations(lent, reach, first, room, cursor, depth)?;
    let tree = row.finish(cursor.alloc)?;
    Ok(tree)
}

/// An expression that goes so far, behind what of its first operand was read already (C99, 6.5).
///
/// Linear in the tokens. The recursion is as deep as the tree is high.
#[tactic(auto, unfolding(c_reading::specs::Expressing::expr_with))]
pub fn expr<'a, F>(
    lent: &F,
    reach: Reach,
    begun: Begun,
    room: u16,
    cursor: &mut Cursor<'a>,
    depth: u32,
) -> Result<SizedExpr, ReadError>
where
    F: Fn(Ask, &mut Cursor<'a>) -> Result<Answer, ReadError>,
    requires { Lends F.Fn lent.now depth }
    ensures { ReadsExpr cursor.old cursor.new result (expr_at depth reach (begun_of begun) room) }
{
    match reach {
        Reach::Whole => row(lent, reach, begun, room, cursor, depth),
        Reach::Assigned => row(lent, reach, begun, room, cursor, depth),
        Reach::Conditional => row(lent, reach, begun, room, cursor, depth),
        Reach::Castable => operand(lent, begun, room, cursor, depth),
        Reach::Unary => unary(lent, room, cursor, depth),
    }
}
