//! An operator behind a row, with the operand behind it.

ghost use Rattle.std.specs.Prelude.{◌≡◌, ◌-◌};
ghost use Rattle.c_tree.specs.Lists.{some_expr_from};
ghost use Rattle.c_reading.specs.Expressing.{depth_of};
ghost use Rattle.expr_rows.specs.OpRows.Rows.{settled_of, row_of, operator, least_height};
ghost use Rattle.reader_base.specs.Gives.{Reads};
ghost use Rattle.reader_base.specs.Lent.{Lends};
ghost use Rattle.reader_base.specs.Fitting.{HasRoom};
ghost use Rattle.expr_rows.specs.Turning.{IsListed, ReadsRow, ReadsMiddle};
ghost use Rattle.expr_rows.specs.Turning.{operation_on, question_on, middle_at, operation_at};

use crate::op_rows::{OpRow, SizedOp};
use c_nodes::{SizedExpr, SizedSomeExpr};
use c_ops::level_of_binary;
use c_reading::{FaultKind, Infix, Reach};
use expr_forms::cast;
use reader_base::{
    Answer, Ask, Begun, Cursor, ReadError, colon, expr_inside, is_colon, kind_at, refused,
    room_for, take_one,
};

/// An operator and an operand behind a row have room, or the first token is refused.
#[tactic(auto, using(crate::proofs::Rooms::least_capped))]
fn room_behind(left: &OpRow, room: u16, cursor: &Cursor) -> Result<(), ReadError>
    ensures { HasRoom (least_height (settled_of left.now)) room cursor.now.rest.now result }
{
    room_for(left.least_height(), room, cursor)
}

/// The greatest height of what stands behind the operands that wait and the last one.
fn inside(left: &OpRow, room: u16) -> u16
    ensures { result ≡ room - depth_of (settled_of left.now) }
{
    match u16::try_from(left.depth()) {
        Ok(depth) => room.saturating_sub(depth),
        Err(_) => 0,
    }
}

/// An operator, for which the row was settled, and the operand behind it.
#[tactic(auto, unfolding(c_reading::specs::Reading::fits, c_reading::specs::Reading::and_then))]
fn operation<'a, F>(
    lent: &F,
    op: SizedOp,
    left: OpRow,
    room: u16,
    cursor: &mut Cursor<'a>,
    depth: u32,
) -> Result<OpRow, ReadError>
where
    F: Fn(Ask, &mut Cursor<'a>) -> Result<Answer, ReadError>,
    requires { Lends F.Fn lent.now depth }
    ensures { ReadsRow cursor.old cursor.new result (operation_on depth op left room) }
{
    room_behind(&left, room, cursor)?;
    let token = take_one(cursor)?;
    let operand = cast(lent, inside(&left, room), cursor, depth)?;
    Ok(left.put(op, token, operand)?)
}

/// The middle of a conditional, or nothing.
#[tactic(auto, unfolding(c_reading::specs::Expressing::middle_with, c_reading::specs::Reading::and_then))]
fn middle<'a, F>(
    lent: &F,
    room: u16,
    cursor: &mut Cursor<'a>,
    depth: u32,
) -> Result<SizedSomeExpr, ReadError>
where
    F: Fn(Ask, &mut Cursor<'a>) -> Result<Answer, ReadError>,
    requires { Lends F.Fn lent.now depth }
    ensures { ReadsMiddle cursor.old cursor.new result (middle_at depth room) }
{
    if is_colon(kind_at(cursor.rest)) {
        return Ok(SizedSomeExpr {
            tree: None,
            height: 0,
        });
    }
    let SizedExpr { tree, height } = expr_inside(
        lent,
        Reach::Whole,
        Begun::Nothing,
        room,
        cursor,
        depth,
    )?;
    Ok(SizedSomeExpr {
        tree: Some(tree),
        height,
    })
}

/// `?`, for which the row was settled, to the operand behind `:`.
#[tactic(auto, unfolding(c_reading::specs::Reading::fits, c_reading::specs::Reading::and_then))]
fn question<'a, F>(
    lent: &F,
    left: OpRow,
    room: u16,
    cursor: &mut Cursor<'a>,
    depth: u32,
) -> Result<OpRow, ReadError>
where
    F: Fn(Ask, &mut Cursor<'a>) -> Result<Answer, ReadError>,
    requires { Lends F.Fn lent.now depth }
    ensures { ReadsRow cursor.old cursor.new result (question_on depth left room) }
{
    room_behind(&left, room, cursor)?;
    let inside = inside(&left, room);
    let token = take_one(cursor)?;
    let middle = middle(lent, inside, cursor, depth)?;
    let colon = colon(cursor)?;
    let operand = cast(lent, inside, cursor, depth)?;
    Ok(left.put(SizedOp::question(middle, colon), token, operand)?)
}

/// An operator of a kind behind a row, and the operand behind it.
pub(crate) fn operation_by<'a, F>(
    lent: &F,
    form: Infix,
    row: OpRow,
    room: u16,
    cursor: &mut Cursor<'a>,
    depth: u32,
) -> Result<OpRow, ReadError>
where
    F: Fn(Ask, &mut Cursor<'a>) -> Result<Answer, ReadError>,
    requires lent { Lends F.Fn lent.now depth }
    requires listed { IsListed form }
    ensures { ReadsRow cursor.old cursor.new result (operation_at depth form (row_of row) room) }
{
    match form {
        Infix::Comma => {
            let left = row.settle(cursor.alloc, 0)?;
            operation(lent, SizedOp::comma(), left, room, cursor, depth)
        }
        Infix::Assign(sign) => {
            let left = row.settle(cursor.alloc, 1)?;
            operation(lent, SizedOp::assign(sign), left, room, cursor, depth)
        }
        Infix::Question => {
            let left = row.settle(cursor.alloc, 2)?;
            question(lent, left, room, cursor, depth)
        }
        Infix::Binary(sign) => {
            let left = row.settle(cursor.alloc, level_of_binary(sign) + 2)?;
            operation(lent, SizedOp::binary(sign), left, room, cursor, depth)
        }
        Infix::Nothing => Err(refused(FaultKind::Unexpected, cursor.rest)),
    }
}
