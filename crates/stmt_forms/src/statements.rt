//! Statements of all kinds (C99, 6.8).

ghost use Rattle.c_reading.specs.Knot.{knot};
ghost use Rattle.c_reading.specs.Stating as stating;
ghost use Rattle.reader_base.specs.Lent.{Lends, ReadsStmt};
ghost use Rattle.stmt_forms.specs.InBlocks.{block_stmt_with, value_stmt_with};

use crate::blocks::block;
use crate::branches::{do_stmt, if_stmt, switch_stmt, while_stmt};
use crate::fors::for_stmt;
use crate::jumps::{
    asm_stmt, attr_stmt, break_stmt, continue_stmt, expr_stmt, goto_stmt, null_stmt, return_stmt,
};
use crate::labelled::{case_stmt, default_stmt, label};
use c_nodes::SizedStmt;
use c_reading::{FaultKind, StmtStart};
use qual_base::NameId;
use reader_base::{
    Answer, Ask, Begun, Cursor, ReadError, begins_expr, behind_first, is_colon, kind_at, refused,
    room_for, stmt_start,
};

/// A label or an expression; a type's name that is no label is refused at the token behind it.
#[tactic(auto, unfolding(c_reading::specs::Stating::named_stmt, c_reading::specs::Reading::fits))]
fn named_stmt<'a, F>(
    lent: &F,
    name: NameId,
    room: u16,
    cursor: &mut Cursor<'a>,
    depth: u32,
) -> Result<SizedStmt, ReadError>
where
    F: Fn(Ask, &mut Cursor<'a>) -> Result<Answer, ReadError>,
    requires { Lends F.Fn lent.now depth }
    ensures { ReadsStmt cursor.old cursor.new result (stating.named_stmt (knot depth) name room) }
{
    room_for(2, room, cursor)?;
    if is_colon(kind_at(behind_first(cursor.rest))) {
        return label(lent, room, cursor, depth);
    }
    if cursor.scopes.names_type(name) {
        return Err(refused(FaultKind::Unexpected, behind_first(cursor.rest)));
    }
    expr_stmt(lent, Begun::Nothing, room, cursor, depth)
}

/// A block as a statement.
#[tactic(auto, unfolding(c_reading::specs::Reading::and_then))]
fn block_stmt<'a, F>(
    lent: &F,
    room: u16,
    cursor: &mut Cursor<'a>,
    depth: u32,
) -> Result<SizedStmt, ReadError>
where
    F: Fn(Ask, &mut Cursor<'a>) -> Result<Answer, ReadError>,
    requires { Lends F.Fn lent.now depth }
    ensures { ReadsStmt cursor.old cursor.new result (block_stmt_with depth room) }
{
    let found = block(lent, room, cursor, depth)?;
    let made = decl_nodes::block(cursor.alloc, found)?;
    Ok(made)
}

/// An expression and `;`, where an expression begins.
#[tactic(auto, unfolding(c_reading::specs::Reading::fits))]
fn value_stmt<'a, F>(
    lent: &F,
    room: u16,
    cursor: &mut Cursor<'a>,
    depth: u32,
) -> Result<SizedStmt, ReadError>
where
    F: Fn(Ask, &mut Cursor<'a>) -> Result<Answer, ReadError>,
    requires { Lends F.Fn lent.now depth }
    ensures { ReadsStmt cursor.old cursor.new result (value_stmt_with depth room) }
{
    if !begins_expr(&cursor.scopes, kind_at(cursor.rest)) {
        return Err(refused(FaultKind::Unexpected, cursor.rest));
    }
    room_for(2, room, cursor)?;
    expr_stmt(lent, Begun::Nothing, room, cursor, depth)
}

/// A statement (C99, 6.8), by what it begins with.
///
/// Linear in the tokens; what is inside is read by `lent`. A height above the room is refused.
#[tactic(auto, unfolding(c_reading::specs::Stating::stmt_with, c_reading::specs::Stating::stmt_by))]
pub fn statement<'a, F>(
    lent: &F,
    room: u16,
    cursor: &mut Cursor<'a>,
    depth: u32,
) -> Result<SizedStmt, ReadError>
where
    F: Fn(Ask, &mut Cursor<'a>) -> Result<Answer, ReadError>,
    requires { Lends F.Fn lent.now depth }
    ensures { ReadsStmt cursor.old cursor.new result (stating.stmt_with (knot depth) room) }
{
    match stmt_start(kind_at(cursor.rest)) {
        StmtStart::Block => block_stmt(lent, room, cursor, depth),
        StmtStart::Semicolon => null_stmt(room, cursor),
        StmtStart::Attribute => attr_stmt(room, cursor, depth),
        StmtStart::Name(name) => named_stmt(lent, name, room, cursor, depth),
        StmtStart::Case => case_stmt(lent, room, cursor, depth),
        StmtStart::Default => default_stmt(lent, room, cursor, depth),
        StmtStart::If => if_stmt(lent, room, cursor, depth),
        StmtStart::Switch => switch_stmt(lent, room, cursor, depth),
        StmtStart::While => while_stmt(lent, room, cursor, depth),
        StmtStart::Do => do_stmt(lent, room, cursor, depth),
        StmtStart::For => for_stmt(lent, room, cursor, depth),
        StmtStart::Goto => goto_stmt(lent, room, cursor, depth),
        StmtStart::Continue => continue_stmt(room, cursor, depth),
        StmtStart::Break => break_stmt(room, cursor, depth),
        StmtStart::Return => return_stmt(lent, room, cursor, depth),
        StmtStart::Asm => asm_stmt(room, cursor, depth),
        StmtStart::Value => value_stmt(lent, room, cursor, depth),
    }
}
