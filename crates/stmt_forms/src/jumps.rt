//! Statements without a statement inside.

ghost use Rattle.c_reading.specs.Knot.{knot};
ghost use Rattle.c_reading.specs.Stating as stating;
ghost use Rattle.c_reading.specs.Tokens.{is_close_paren, is_semicolon};
ghost use Rattle.c_tree.specs.Tree as trees;
ghost use Rattle.reader_base.specs.Lent.{Lends, ReadsStmt, begun_of};
ghost use Rattle.stmt_forms.specs.Statements.{ReadsSomeExpr, null_with};

use c_nodes::{SizedSomeExpr, SizedStmt, no_expr, some_expr};
use c_reading::Reach;
use qual_base::TokenId;
use reader_base::{
    Answer, Ask, Begun, Cursor, ReadError, asm_words, attrs, expr_inside, group, is_close_paren,
    is_semicolon, is_star, kind_at, name, room_for, semicolon, take_one,
};

/// `;` alone (C99, 6.8.3).
#[tactic(auto, unfolding(c_reading::specs::Reading::fits, c_reading::specs::Reading::and_then))]
pub(crate) fn null_stmt(room: u16, cursor: &mut Cursor) -> Result<SizedStmt, ReadError>
    ensures { ReadsStmt cursor.old cursor.new result (null_with room) }
{
    room_for(1, room, cursor)?;
    let semi = take_one(cursor)?;
    let made = decl_nodes::expr_stmt(cursor.alloc, no_expr(), semi)?;
    Ok(made)
}

/// `goto Name ;` (C99, 6.8.6.1), in wider C `goto * expr ;` too.
#[tactic(auto, unfolding(c_reading::specs::Stating::goto_with, c_reading::specs::Reading::fits, c_reading::specs::Reading::and_then))]
pub(crate) fn goto_stmt<'a, F>(
    lent: &F,
    room: u16,
    cursor: &mut Cursor<'a>,
    depth: u32,
) -> Result<SizedStmt, ReadError>
where
    F: Fn(Ask, &mut Cursor<'a>) -> Result<Answer, ReadError>,
    requires { Lends F.Fn lent.now depth }
    ensures { ReadsStmt cursor.old cursor.new result (stating.goto_with (knot depth) room) }
{
    room_for(1, room, cursor)?;
    let keyword = take_one(cursor)?;
    if cursor.scopes.is_wide() && is_star(kind_at(cursor.rest)) {
        return goto_value(lent, keyword, room, cursor, depth);
    }
    goto_name(keyword, cursor, depth)
}

/// `* expr ;`, behind `goto`.
#[tactic(auto, unfolding(c_reading::specs::Stating::goto_value_with, c_reading::specs::Reading::fits, c_reading::specs::Reading::and_then))]
fn goto_value<'a, F>(
    lent: &F,
    keyword: TokenId,
    room: u16,
    cursor: &mut Cursor<'a>,
    depth: u32,
) -> Result<SizedStmt, ReadError>
where
    F: Fn(Ask, &mut Cursor<'a>) -> Result<Answer, ReadError>,
    requires { Lends F.Fn lent.now depth }
    ensures { ReadsStmt cursor.old cursor.new result
        (stating.goto_value_with (knot depth) keyword room) }
{
    room_for(2, room, cursor)?;
    let star = take_one(cursor)?;
    let inside = room.saturating_sub(1);
    let value = expr_inside(lent, Reach::Whole, Begun::Nothing, inside, cursor, depth)?;
    let semi = semicolon(cursor)?;
    let made = decl_nodes::goto_value(cursor.alloc, keyword, star, value, semi)?;
    Ok(made)
}

/// `Name ;`, behind `goto`.
#[tactic(auto, unfolding(c_reading::specs::Stating::goto_name, c_reading::specs::Reading::and_then))]
fn goto_name(keyword: TokenId, cursor: &mut Cursor, depth: u32) -> Result<SizedStmt, ReadError>
    ensures { ReadsStmt cursor.old cursor.new result (stating.goto_name (knot depth) keyword) }
{
    let label = name(cursor)?;
    let semi = semicolon(cursor)?;
    let made = decl_nodes::goto_stmt(cursor.alloc, keyword, label, semi)?;
    Ok(made)
}

/// `continue ;` (C99, 6.8.6.2).
#[tactic(auto, unfolding(c_reading::specs::Stating::jump_with, c_reading::specs::Reading::fits, c_reading::specs::Reading::and_then))]
pub(crate) fn continue_stmt(
    room: u16,
    cursor: &mut Cursor,
    depth: u32,
) -> Result<SizedStmt, ReadError>
    ensures { ReadsStmt cursor.old cursor.new result
        (stating.jump_with (knot depth) trees.continue_stmt room) }
{
    room_for(1, room, cursor)?;
    let keyword = take_one(cursor)?;
    let semi = semicolon(cursor)?;
    let made = decl_nodes::continue_stmt(cursor.alloc, keyword, semi)?;
    Ok(made)
}

/// `break ;` (C99, 6.8.6.3).
#[tactic(auto, unfolding(c_reading::specs::Stating::jump_with, c_reading::specs::Reading::fits, c_reading::specs::Reading::and_then))]
pub(crate) fn break_stmt(room: u16, cursor: &mut Cursor, depth: u32) -> Result<SizedStmt, ReadError>
    ensures { ReadsStmt cursor.old cursor.new result
        (stating.jump_with (knot depth) trees.break_stmt room) }
{
    room_for(1, room, cursor)?;
    let keyword = take_one(cursor)?;
    let semi = semicolon(cursor)?;
    let made = decl_nodes::break_stmt(cursor.alloc, keyword, semi)?;
    Ok(made)
}

/// An expression, or none where `;` stands first.
#[tactic(auto, unfolding(c_reading::specs::Stating::some_expr_with, c_reading::specs::Reading::and_then))]
pub(crate) fn value_before_semi<'a, F>(
    lent: &F,
    room: u16,
    cursor: &mut Cursor<'a>,
    depth: u32,
) -> Result<SizedSomeExpr, ReadError>
where
    F: Fn(Ask, &mut Cursor<'a>) -> Result<Answer, ReadError>,
    requires { Lends F.Fn lent.now depth }
    ensures { ReadsSomeExpr cursor.old cursor.new result
        (stating.some_expr_with (knot depth) is_semicolon room) }
{
    if is_semicolon(kind_at(cursor.rest)) {
        return Ok(no_expr());
    }
    let value = expr_inside(lent, Reach::Whole, Begun::Nothing, room, cursor, depth)?;
    Ok(some_expr(value))
}

/// An expression, or none where `)` stands first.
#[tactic(auto, unfolding(c_reading::specs::Stating::some_expr_with, c_reading::specs::Reading::and_then))]
pub(crate) fn value_before_paren<'a, F>(
    lent: &F,
    room: u16,
    cursor: &mut Cursor<'a>,
    depth: u32,
) -> Result<SizedSomeExpr, ReadError>
where
    F: Fn(Ask, &mut Cursor<'a>) -> Result<Answer, ReadError>,
    requires { Lends F.Fn lent.now depth }
    ensures { ReadsSomeExpr cursor.old cursor.new result
        (stating.some_expr_with (knot depth) is_close_paren room) }
{
    if is_close_paren(kind_at(cursor.rest)) {
        return Ok(no_expr());
    }
    let value = expr_inside(lent, Reach::Whole, Begun::Nothing, room, cursor, depth)?;
    Ok(some_expr(value))
}

/// `return [expr] ;` (C99, 6.8.6.4).
#[tactic(auto, unfolding(c_reading::specs::Stating::return_with, c_reading::specs::Reading::fits, c_reading::specs::Reading::and_then))]
pub(crate) fn return_stmt<'a, F>(
    lent: &F,
    room: u16,
    cursor: &mut Cursor<'a>,
    depth: u32,
) -> Result<SizedStmt, ReadError>
where
    F: Fn(Ask, &mut Cursor<'a>) -> Result<Answer, ReadError>,
    requires { Lends F.Fn lent.now depth }
    ensures { ReadsStmt cursor.old cursor.new result (stating.return_with (knot depth) room) }
{
    room_for(1, room, cursor)?;
    let keyword = take_one(cursor)?;
    let value = value_before_semi(lent, room.saturating_sub(1), cursor, depth)?;
    let semi = semicolon(cursor)?;
    let made = decl_nodes::return_stmt(cursor.alloc, keyword, value, semi)?;
    Ok(made)
}

/// `expr ;` behind what of its first operand was read already (C99, 6.8.3).
#[tactic(auto, unfolding(c_reading::specs::Stating::expr_stmt_with, c_reading::specs::Reading::and_then))]
pub(crate) fn expr_stmt<'a, F>(
    lent: &F,
    begun: Begun,
    room: u16,
    cursor: &mut Cursor<'a>,
    depth: u32,
) -> Result<SizedStmt, ReadError>
where
    F: Fn(Ask, &mut Cursor<'a>) -> Result<Answer, ReadError>,
    requires { Lends F.Fn lent.now depth }
    ensures { ReadsStmt cursor.old cursor.new result
        (stating.expr_stmt_with (knot depth) (begun_of begun) room) }
{
    let value = expr_inside(
        lent,
        Reach::Whole,
        begun,
        room.saturating_sub(1),
        cursor,
        depth,
    )?;
    let semi = semicolon(cursor)?;
    let made = decl_nodes::expr_stmt(cursor.alloc, some_expr(value), semi)?;
    Ok(made)
}

/// `asm (volatile | goto | inline)* bal ;`, a group as GNU C has it.
#[tactic(auto, unfolding(c_reading::specs::Stating::asm_with, c_reading::specs::Reading::fits, c_reading::specs::Reading::and_then))]
pub(crate) fn asm_stmt(room: u16, cursor: &mut Cursor, depth: u32) -> Result<SizedStmt, ReadError>
    ensures { ReadsStmt cursor.old cursor.new result (stating.asm_with (knot depth) room) }
{
    room_for(1, room, cursor)?;
    let keyword = take_one(cursor)?;
    let words = asm_words(cursor)?;
    let group = group(cursor)?;
    let semi = semicolon(cursor)?;
    let made = decl_nodes::asm_stmt(cursor.alloc, keyword, words, group, semi)?;
    Ok(made)
}

/// `Attr+ ;`, at the first attribute.
#[tactic(auto, unfolding(c_reading::specs::Stating::attr_stmt_with, c_reading::specs::Reading::and_then))]
pub(crate) fn attr_stmt(room: u16, cursor: &mut Cursor, depth: u32) -> Result<SizedStmt, ReadError>
    ensures { ReadsStmt cursor.old cursor.new result (stating.attr_stmt_with (knot depth) room) }
{
    let attrs = attrs(room, cursor)?;
    let semi = semicolon(cursor)?;
    let made = decl_nodes::attr_stmt(cursor.alloc, attrs, semi)?;
    Ok(made)
}
