//! Statements behind labels (C99, 6.8.1).

ghost use Rattle.c_reading.specs.Knot.{knot};
ghost use Rattle.c_reading.specs.Stating as stating;
ghost use Rattle.c_nodes.specs.Sized.{expr};
ghost use Rattle.reader_base.specs.Lent.{Lends, ReadsStmt};

use c_nodes::{SizedExpr, SizedStmt};
use c_reading::Reach;
use qual_base::TokenId;
use reader_base::{
    Answer, Ask, Begun, Cursor, ReadError, attrs, colon, expr_inside, is_dots, kind_at, name,
    room_for, stmt_inside, take_one,
};

/// `Name : Attr* stmt`.
#[tactic(auto, unfolding(c_reading::specs::Stating::label_with, c_reading::specs::Reading::and_then))]
pub(crate) fn label<'a, F>(
    lent: &F,
    room: u16,
    cursor: &mut Cursor<'a>,
    depth: u32,
) -> Result<SizedStmt, ReadError>
where
    F: Fn(Ask, &mut Cursor<'a>) -> Result<Answer, ReadError>,
    requires { Lends F.Fn lent.now depth }
    ensures { ReadsStmt cursor.old cursor.new result (stating.label_with (knot depth) room) }
{
    let name = name(cursor)?;
    let colon = colon(cursor)?;
    let attrs = attrs(room, cursor)?;
    let body = stmt_inside(lent, room.saturating_sub(1), cursor, depth)?;
    let made = decl_nodes::label(cursor.alloc, name, colon, attrs, body)?;
    Ok(made)
}

/// `... cond : stmt`, behind the first value of a range.
#[tactic(auto, unfolding(c_reading::specs::Stating::range_behind, c_reading::specs::Reading::and_then))]
fn range_behind<'a, F>(
    lent: &F,
    keyword: TokenId,
    first: SizedExpr,
    room: u16,
    cursor: &mut Cursor<'a>,
    depth: u32,
) -> Result<SizedStmt, ReadError>
where
    F: Fn(Ask, &mut Cursor<'a>) -> Result<Answer, ReadError>,
    requires { Lends F.Fn lent.now depth }
    ensures { ReadsStmt cursor.old cursor.new result
        (stating.range_behind (knot depth) keyword (expr first) room) }
{
    let below = room.saturating_sub(1);
    let dots = take_one(cursor)?;
    let last = expr_inside(
        lent,
        Reach::Conditional,
        Begun::Nothing,
        below,
        cursor,
        depth,
    )?;
    let colon = colon(cursor)?;
    let body = stmt_inside(lent, below, cursor, depth)?;
    let made = decl_nodes::case_range(cursor.alloc, keyword, first, dots, last, colon, body)?;
    Ok(made)
}

/// `: stmt`, behind the value.
#[tactic(auto, unfolding(c_reading::specs::Stating::value_behind, c_reading::specs::Reading::and_then))]
fn value_behind<'a, F>(
    lent: &F,
    keyword: TokenId,
    value: SizedExpr,
    room: u16,
    cursor: &mut Cursor<'a>,
    depth: u32,
) -> Result<SizedStmt, ReadError>
where
    F: Fn(Ask, &mut Cursor<'a>) -> Result<Answer, ReadError>,
    requires { Lends F.Fn lent.now depth }
    ensures { ReadsStmt cursor.old cursor.new result
        (stating.value_behind (knot depth) keyword (expr value) room) }
{
    let colon = colon(cursor)?;
    let body = stmt_inside(lent, room.saturating_sub(1), cursor, depth)?;
    let made = decl_nodes::case_stmt(cursor.alloc, keyword, value, colon, body)?;
    Ok(made)
}

/// `case cond : stmt`, in wider C `case cond ... cond : stmt` too.
#[tactic(auto, unfolding(c_reading::specs::Stating::case_with, c_reading::specs::Reading::fits, c_reading::specs::Reading::and_then))]
pub(crate) fn case_stmt<'a, F>(
    lent: &F,
    room: u16,
    cursor: &mut Cursor<'a>,
    depth: u32,
) -> Result<SizedStmt, ReadError>
where
    F: Fn(Ask, &mut Cursor<'a>) -> Result<Answer, ReadError>,
    requires { Lends F.Fn lent.now depth }
    ensures { ReadsStmt cursor.old cursor.new result (stating.case_with (knot depth) room) }
{
    room_for(2, room, cursor)?;
    let below = room.saturating_sub(1);
    let keyword = take_one(cursor)?;
    let value = expr_inside(
        lent,
        Reach::Conditional,
        Begun::Nothing,
        below,
        cursor,
        depth,
    )?;
    if cursor.scopes.is_wide() && is_dots(kind_at(cursor.rest)) {
        return range_behind(lent, keyword, value, room, cursor, depth);
    }
    value_behind(lent, keyword, value, room, cursor, depth)
}

/// `default : stmt`.
#[tactic(auto, unfolding(c_reading::specs::Stating::default_with, c_reading::specs::Reading::fits, c_reading::specs::Reading::and_then))]
pub(crate) fn default_stmt<'a, F>(
    lent: &F,
    room: u16,
    cursor: &mut Cursor<'a>,
    depth: u32,
) -> Result<SizedStmt, ReadError>
where
    F: Fn(Ask, &mut Cursor<'a>) -> Result<Answer, ReadError>,
    requires { Lends F.Fn lent.now depth }
    ensures { ReadsStmt cursor.old cursor.new result (stating.default_with (knot depth) room) }
{
    room_for(2, room, cursor)?;
    let keyword = take_one(cursor)?;
    let colon = colon(cursor)?;
    let body = stmt_inside(lent, room.saturating_sub(1), cursor, depth)?;
    let made = decl_nodes::default_stmt(cursor.alloc, keyword, colon, body)?;
    Ok(made)
}
