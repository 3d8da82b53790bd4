//! `for`, which may begin with a declaration (C99, 6.8.5.3).

ghost use Rattle.c_reading.specs.Knot.{knot};
ghost use Rattle.c_reading.specs.Stating as stating;
ghost use Rattle.reader_base.specs.Lent.{Lends, ReadsStmt, begun_of};
ghost use Rattle.stmt_forms.specs.Statements.{ReadsStart, for_with};

use crate::branches::part;
use crate::jumps::{value_before_paren, value_before_semi};
use c_nodes::{SizedStart, SizedStmt, no_expr, some_expr};
use c_reading::Reach;
use decl_forms::declaration;
use decl_nodes::{start_declaration, start_value};
use reader_base::{
    Answer, Ask, Begun, Cursor, ReadError, begins_specs, close_paren, expr_inside, extensions,
    is_extension, is_semicolon, kind_at, open_paren, room_for, semicolon, take_one,
};

/// `expr ;` behind what of its first operand was read already.
#[tactic(auto, unfolding(c_reading::specs::Stating::start_value_with, c_reading::specs::Reading::and_then))]
fn start_expr<'a, F>(
    lent: &F,
    begun: Begun,
    room: u16,
    cursor: &mut Cursor<'a>,
    depth: u32,
) -> Result<SizedStart, ReadError>
where
    F: Fn(Ask, &mut Cursor<'a>) -> Result<Answer, ReadError>,
    requires { Lends F.Fn lent.now depth }
    ensures { ReadsStart cursor.old cursor.new result
        (stating.start_value_with (knot depth) (begun_of begun) room) }
{
    let value = expr_inside(lent, Reach::Whole, begun, room, cursor, depth)?;
    let semi = semicolon(cursor)?;
    Ok(start_value(some_expr(value), semi))
}

/// `expr ;`, or a declaration, behind `__extension__` (GNU C), by the token there.
#[tactic(auto, unfolding(c_reading::specs::Stating::extended_start, c_reading::specs::Reading::and_then))]
fn extended_start<'a, F>(
    lent: &F,
    room: u16,
    cursor: &mut Cursor<'a>,
    depth: u32,
) -> Result<SizedStart, ReadError>
where
    F: Fn(Ask, &mut Cursor<'a>) -> Result<Answer, ReadError>,
    requires { Lends F.Fn lent.now depth }
    ensures { ReadsStart cursor.old cursor.new result (stating.extended_start (knot depth) room) }
{
    let exts = extensions(room, cursor)?;
    if begins_specs(&cursor.scopes, kind_at(cursor.rest)) {
        let found = declaration(lent, exts, room, cursor, depth)?;
        return Ok(start_declaration(found));
    }
    start_expr(lent, Begun::Extensions(exts), room, cursor, depth)
}

/// How a `for` begins, to the first `;`.
#[tactic(auto, unfolding(c_reading::specs::Stating::for_start_with, c_reading::specs::Reading::and_then))]
fn for_start<'a, F>(
    lent: &F,
    room: u16,
    cursor: &mut Cursor<'a>,
    depth: u32,
) -> Result<SizedStart, ReadError>
where
    F: Fn(Ask, &mut Cursor<'a>) -> Result<Answer, ReadError>,
    requires { Lends F.Fn lent.now depth }
    ensures { ReadsStart cursor.old cursor.new result (stating.for_start_with (knot depth) room) }
{
    if is_semicolon(kind_at(cursor.rest)) {
        let semi = take_one(cursor)?;
        return Ok(start_value(no_expr(), semi));
    }
    if is_extension(kind_at(cursor.rest)) {
        return extended_start(lent, room, cursor, depth);
    }
    if begins_specs(&cursor.scopes, kind_at(cursor.rest)) {
        let found = declaration(lent, Vec::new(cursor.alloc), room, cursor, depth)?;
        return Ok(start_declaration(found));
    }
    start_expr(lent, Begun::Nothing, room, cursor, depth)
}

/// `for ( (Declaration | [expr] ;) [expr] ; [expr] ) stmt` in a scope that is open.
#[tactic(auto, unfolding(c_reading::specs::Stating::for_inside, c_reading::specs::Reading::and_then))]
fn for_inside<'a, F>(
    lent: &F,
    room: u16,
    cursor: &mut Cursor<'a>,
    depth: u32,
) -> Result<SizedStmt, ReadError>
where
    F: Fn(Ask, &mut Cursor<'a>) -> Result<Answer, ReadError>,
    requires { Lends F.Fn lent.now depth }
    ensures { ReadsStmt cursor.old cursor.new result (stating.for_inside (knot depth) room) }
{
    let below = room.saturating_sub(1);
    let keyword = take_one(cursor)?;
    let opening = open_paren(cursor)?;
    let start = for_start(lent, below, cursor, depth)?;
    let condition = value_before_semi(lent, below, cursor, depth)?;
    let semi = semicolon(cursor)?;
    let step = value_before_paren(lent, below, cursor, depth)?;
    let closing = close_paren(cursor)?;
    let body = part(lent, below, cursor, depth)?;
    let made = decl_nodes::for_stmt(
        cursor.alloc,
        keyword,
        opening,
        start,
        condition,
        semi,
        step,
        closing,
        body,
    )?;
    Ok(made)
}

/// `for ( (Declaration | [expr] ;) [expr] ; [expr] ) stmt`, in a scope of its own (C99, 6.8.5.3).
#[tactic(auto, unfolding(c_reading::specs::Reading::fits, c_reading::specs::Reading::and_then))]
pub(crate) fn for_stmt<'a, F>(
    lent: &F,
    room: u16,
    cursor: &mut Cursor<'a>,
    depth: u32,
) -> Result<SizedStmt, ReadError>
where
    F: Fn(Ask, &mut Cursor<'a>) -> Result<Answer, ReadError>,
    requires { Lends F.Fn lent.now depth }
    ensures { ReadsStmt cursor.old cursor.new result (for_with depth room) }
{
    room_for(2, room, cursor)?;
    cursor.scopes.enter()?;
    let made = for_inside(lent, room, cursor, depth)?;
    cursor.scopes.leave();
    Ok(made)
}
