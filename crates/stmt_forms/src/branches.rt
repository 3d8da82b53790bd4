//! Branches and loops, each in a scope of its own (C99, 6.8.4 and 6.8.5).

ghost use Rattle.c_reading.specs.Knot.{knot};
ghost use Rattle.c_reading.specs.Stating as stating;
ghost use Rattle.c_tree.specs.Tree as trees;
ghost use Rattle.reader_base.specs.Lent.{Lends, ReadsStmt};
ghost use Rattle.stmt_forms.specs.Statements.{ReadsElse, if_with, switch_with, while_with, do_with};

use c_nodes::{SizedElse, SizedStmt};
use c_reading::Reach;
use decl_nodes::{no_else, some_else};
use reader_base::{
    Answer, Ask, Begun, Cursor, ReadError, close_paren, expr_inside, is_else, kind_at, open_paren,
    room_for, semicolon, stmt_inside, take_one, while_word,
};

/// A direct part of a statement, in a scope of its own (C99, 6.8.4, 3 and 6.8.5, 5).
#[tactic(auto, unfolding(c_reading::specs::Reading::and_then))]
pub(crate) fn part<'a, F>(
    lent: &F,
    room: u16,
    cursor: &mut Cursor<'a>,
    depth: u32,
) -> Result<SizedStmt, ReadError>
where
    F: Fn(Ask, &mut Cursor<'a>) -> Result<Answer, ReadError>,
    requires { Lends F.Fn lent.now depth }
    ensures { ReadsStmt cursor.old cursor.new result (stating.part_with (knot depth) room) }
{
    cursor.scopes.enter()?;
    let body = stmt_inside(lent, room, cursor, depth)?;
    cursor.scopes.leave();
    Ok(body)
}

/// `else stmt`, or nothing where no `else` stands first.
#[tactic(auto, unfolding(c_reading::specs::Stating::some_else_with, c_reading::specs::Reading::and_then))]
fn other_branch<'a, F>(
    lent: &F,
    room: u16,
    cursor: &mut Cursor<'a>,
    depth: u32,
) -> Result<SizedElse, ReadError>
where
    F: Fn(Ask, &mut Cursor<'a>) -> Result<Answer, ReadError>,
    requires { Lends F.Fn lent.now depth }
    ensures { ReadsElse cursor.old cursor.new result (stating.some_else_with (knot depth) room) }
{
    if !is_else(kind_at(cursor.rest)) {
        return Ok(no_else());
    }
    let keyword = take_one(cursor)?;
    let body = part(lent, room, cursor, depth)?;
    Ok(some_else(keyword, body))
}

/// `if ( expr ) stmt [else stmt]` in a scope that is open.
#[tactic(auto, unfolding(c_reading::specs::Stating::if_inside, c_reading::specs::Reading::and_then))]
fn if_inside<'a, F>(
    lent: &F,
    room: u16,
    cursor: &mut Cursor<'a>,
    depth: u32,
) -> Result<SizedStmt, ReadError>
where
    F: Fn(Ask, &mut Cursor<'a>) -> Result<Answer, ReadError>,
    requires { Lends F.Fn lent.now depth }
    ensures { ReadsStmt cursor.old cursor.new result (stating.if_inside (knot depth) room) }
{
    let below = room.saturating_sub(1);
    let keyword = take_one(cursor)?;
    let opening = open_paren(cursor)?;
    let value = expr_inside(lent, Reach::Whole, Begun::Nothing, below, cursor, depth)?;
    let closing = close_paren(cursor)?;
    let body = part(lent, below, cursor, depth)?;
    let other = other_branch(lent, below, cursor, depth)?;
    let made = decl_nodes::if_stmt(cursor.alloc, keyword, opening, value, closing, body, other)?;
    Ok(made)
}

/// `switch ( expr ) stmt` in a scope that is open.
#[tactic(auto, unfolding(c_reading::specs::Stating::headed_inside, c_reading::specs::Reading::and_then))]
fn switch_inside<'a, F>(
    lent: &F,
    room: u16,
    cursor: &mut Cursor<'a>,
    depth: u32,
) -> Result<SizedStmt, ReadError>
where
    F: Fn(Ask, &mut Cursor<'a>) -> Result<Answer, ReadError>,
    requires { Lends F.Fn lent.now depth }
    ensures { ReadsStmt cursor.old cursor.new result
        (stating.headed_inside (knot depth) trees.switch_stmt room) }
{
    let below = room.saturating_sub(1);
    let keyword = take_one(cursor)?;
    let opening = open_paren(cursor)?;
    let value = expr_inside(lent, Reach::Whole, Begun::Nothing, below, cursor, depth)?;
    let closing = close_paren(cursor)?;
    let body = part(lent, below, cursor, depth)?;
    let made = decl_nodes::switch_stmt(cursor.alloc, keyword, opening, value, closing, body)?;
    Ok(made)
}

/// `while ( expr ) stmt` in a scope that is open.
#[tactic(auto, unfolding(c_reading::specs::Stating::headed_inside, c_reading::specs::Reading::and_then))]
fn while_inside<'a, F>(
    lent: &F,
    room: u16,
    cursor: &mut Cursor<'a>,
    depth: u32,
) -> Result<SizedStmt, ReadError>
where
    F: Fn(Ask, &mut Cursor<'a>) -> Result<Answer, ReadError>,
    requires { Lends F.Fn lent.now depth }
    ensures { ReadsStmt cursor.old cursor.new result
        (stating.headed_inside (knot depth) trees.while_stmt room) }
{
    let below = room.saturating_sub(1);
    let keyword = take_one(cursor)?;
    let opening = open_paren(cursor)?;
    let value = expr_inside(lent, Reach::Whole, Begun::Nothing, below, cursor, depth)?;
    let closing = close_paren(cursor)?;
    let body = part(lent, below, cursor, depth)?;
    let made = decl_nodes::while_stmt(cursor.alloc, keyword, opening, value, closing, body)?;
    Ok(made)
}

/// `do stmt while ( expr ) ;` in a scope that is open.
#[tactic(auto, unfolding(c_reading::specs::Stating::do_inside, c_reading::specs::Reading::and_then))]
fn do_inside<'a, F>(
    lent: &F,
    room: u16,
    cursor: &mut Cursor<'a>,
    depth: u32,
) -> Result<SizedStmt, ReadError>
where
    F: Fn(Ask, &mut Cursor<'a>) -> Result<Answer, ReadError>,
    requires { Lends F.Fn lent.now depth }
    ensures { ReadsStmt cursor.old cursor.new result (stating.do_inside (knot depth) room) }
{
    let below = room.saturating_sub(1);
    let keyword = take_one(cursor)?;
    let body = part(lent, below, cursor, depth)?;
    let again = while_word(cursor)?;
    let opening = open_paren(cursor)?;
    let value = expr_inside(lent, Reach::Whole, Begun::Nothing, below, cursor, depth)?;
    let closing = close_paren(cursor)?;
    let semi = semicolon(cursor)?;
    let made = decl_nodes::do_stmt(
        cursor.alloc,
        keyword,
        body,
        again,
        opening,
        value,
        closing,
        semi,
    )?;
    Ok(made)
}

/// `if ( expr ) stmt [else stmt]`, in a scope of its own (C99, 6.8.4.1).
#[tactic(auto, unfolding(c_reading::specs::Reading::fits, c_reading::specs::Reading::and_then))]
pub(crate) fn if_stmt<'a, F>(
    lent: &F,
    room: u16,
    cursor: &mut Cursor<'a>,
    depth: u32,
) -> Result<SizedStmt, ReadError>
where
    F: Fn(Ask, &mut Cursor<'a>) -> Result<Answer, ReadError>,
    requires { Lends F.Fn lent.now depth }
    ensures { ReadsStmt cursor.old cursor.new result (if_with depth room) }
{
    room_for(2, room, cursor)?;
    cursor.scopes.enter()?;
    let made = if_inside(lent, room, cursor, depth)?;
    cursor.scopes.leave();
    Ok(made)
}

/// `switch ( expr ) stmt`, in a scope of its own (C99, 6.8.4.2).
#[tactic(auto, unfolding(c_reading::specs::Reading::fits, c_reading::specs::Reading::and_then))]
pub(crate) fn switch_stmt<'a, F>(
    lent: &F,
    room: u16,
    cursor: &mut Cursor<'a>,
    depth: u32,
) -> Result<SizedStmt, ReadError>
where
    F: Fn(Ask, &mut Cursor<'a>) -> Result<Answer, ReadError>,
    requires { Lends F.Fn lent.now depth }
    ensures { ReadsStmt cursor.old cursor.new result (switch_with depth room) }
{
    room_for(2, room, cursor)?;
    cursor.scopes.enter()?;
    let made = switch_inside(lent, room, cursor, depth)?;
    cursor.scopes.leave();
    Ok(made)
}

/// `while ( expr ) stmt`, in a scope of its own (C99, 6.8.5.1).
#[tactic(auto, unfolding(c_reading::specs::Reading::fits, c_reading::specs::Reading::and_then))]
pub(crate) fn while_stmt<'a, F>(
    lent: &F,
    room: u16,
    cursor: &mut Cursor<'a>,
    depth: u32,
) -> Result<SizedStmt, ReadError>
where
    F: Fn(Ask, &mut Cursor<'a>) -> Result<Answer, ReadError>,
    requires { Lends F.Fn lent.now depth }
    ensures { ReadsStmt cursor.old cursor.new result (while_with depth room) }
{
    room_for(2, room, cursor)?;
    cursor.scopes.enter()?;
    let made = while_inside(lent, room, cursor, depth)?;
    cursor.scopes.leave();
    Ok(made)
}

/// `do stmt while ( expr ) ;`, in a scope of its own (C99, 6.8.5.2).
#[tactic(auto, unfolding(c_reading::specs::Reading::fits, c_reading::specs::Reading::and_then))]
pub(crate) fn do_stmt<'a, F>(
    lent: &F,
    room: u16,
    cursor: &mut Cursor<'a>,
    depth: u32,
) -> Result<SizedStmt, ReadError>
where
    F: Fn(Ask, &mut Cursor<'a>) -> Result<Answer, ReadError>,
    requires { Lends F.Fn lent.now depth }
    ensures { ReadsStmt cursor.old cursor.new result (do_with depth room) }
{
    room_for(2, room, cursor)?;
    cursor.scopes.enter()?;
    let made = do_inside(lent, room, cursor, depth)?;
    cursor.scopes.leave();
    Ok(made)
}
