//! What begins with a parenthesis (C99, 6.5.1, 6.5.2.5 and 6.5.4).

ghost use Rattle.reader_base.specs.Lent.{Lends, ReadsExpr};
ghost use Rattle.expr_forms.specs.Parts.{cast_behind_at, compound_at, opened_at, opened_by_at};
ghost use Rattle.expr_forms.specs.Parts.{paren_at, statement_at, typed_at, typed_behind_at};

use crate::postfix::postfixed;
use c_nodes::{SizedExpr, SizedTypeName};
use c_reading::{FaultKind, Reach};
use qual_base::TokenId;
use reader_base::{
    Answer, Ask, Begun, Cursor, ReadError, begins_specs, block_inside, close_paren, expr_inside,
    init_list_inside, is_open_brace, kind_at, refused, room_for, take_one, type_name_inside,
};

/// A compound literal behind its parentheses (C99, 6.5.2.5): `Compound = ( TypeName ) InitList`.
#[tactic(auto, unfolding(c_reading::specs::Expressing::compound_with, c_reading::specs::Reading::and_then))]
pub(crate) fn compound<'a, F>(
    lent: &F,
    opening: TokenId,
    of: SizedTypeName,
    closing: TokenId,
    room: u16,
    cursor: &mut Cursor<'a>,
    depth: u32,
) -> Result<SizedExpr, ReadError>
where
    F: Fn(Ask, &mut Cursor<'a>) -> Result<Answer, ReadError>,
    requires { Lends F.Fn lent.now depth }
    ensures { ReadsExpr cursor.old cursor.new result (compound_at depth opening of closing room) }
{
    let inside = room.saturating_sub(1);
    let list = init_list_inside(lent, inside, cursor, depth)?;
    let made = c_nodes::compound(cursor.alloc, opening, of, closing, list)?;
    postfixed(lent, made, room, cursor, depth)
}

/// A cast behind its parentheses (C99, 6.5.4): `Cast = ( TypeName ) cast`.
#[tactic(auto, unfolding(c_reading::specs::Expressing::cast_behind, c_reading::specs::Reading::and_then))]
fn cast_behind<'a, F>(
    lent: &F,
    opening: TokenId,
    of: SizedTypeName,
    closing: TokenId,
    room: u16,
    cursor: &mut Cursor<'a>,
    depth: u32,
) -> Result<SizedExpr, ReadError>
where
    F: Fn(Ask, &mut Cursor<'a>) -> Result<Answer, ReadError>,
    requires { Lends F.Fn lent.now depth }
    ensures { ReadsExpr cursor.old cursor.new result
        (cast_behind_at depth opening of closing room) }
{
    let inside = room.saturating_sub(1);
    let operand = expr_inside(lent, Reach::Castable, Begun::Nothing, inside, cursor, depth)?;
    Ok(c_nodes::cast(cursor.alloc, opening, of, closing, operand)?)
}

/// Behind the name of a type in parentheses, where a cast stands only if one is wanted.
#[tactic(auto, unfolding(c_reading::specs::Expressing::typed_behind))]
fn typed_behind<'a, F>(
    lent: &F,
    casts: bool,
    opening: TokenId,
    of: SizedTypeName,
    closing: TokenId,
    room: u16,
    cursor: &mut Cursor<'a>,
    depth: u32,
) -> Result<SizedExpr, ReadError>
where
    F: Fn(Ask, &mut Cursor<'a>) -> Result<Answer, ReadError>,
    requires { Lends F.Fn lent.now depth }
    ensures { ReadsExpr cursor.old cursor.new result
        (typed_behind_at depth casts opening of closing room) }
{
    if is_open_brace(kind_at(cursor.rest)) {
        compound(lent, opening, of, closing, room, cursor, depth)
    } else if casts {
        cast_behind(lent, opening, of, closing, room, cursor, depth)
    } else {
        Err(refused(FaultKind::Unexpected, cursor.rest))
    }
}

/// Behind a parenthesis with the name of a type.
#[tactic(auto, unfolding(c_reading::specs::Expressing::typed_with, c_reading::specs::Reading::and_then))]
fn typed<'a, F>(
    lent: &F,
    casts: bool,
    opening: TokenId,
    room: u16,
    cursor: &mut Cursor<'a>,
    depth: u32,
) -> Result<SizedExpr, ReadError>
where
    F: Fn(Ask, &mut Cursor<'a>) -> Result<Answer, ReadError>,
    requires { Lends F.Fn lent.now depth }
    ensures { ReadsExpr cursor.old cursor.new result (typed_at depth casts opening room) }
{
    let inside = room.saturating_sub(1);
    let of = type_name_inside(lent, inside, cursor, depth)?;
    let closing = close_paren(cursor)?;
    typed_behind(lent, casts, opening, of, closing, room, cursor, depth)
}

/// A statement expression behind its parenthesis: `StmtExpr = ( Block )`.
#[tactic(auto, unfolding(c_reading::specs::Expressing::statement_with, c_reading::specs::Reading::and_then))]
fn statement<'a, F>(
    lent: &F,
    opening: TokenId,
    room: u16,
    cursor: &mut Cursor<'a>,
    depth: u32,
) -> Result<SizedExpr, ReadError>
where
    F: Fn(Ask, &mut Cursor<'a>) -> Result<Answer, ReadError>,
    requires { Lends F.Fn lent.now depth }
    ensures { ReadsExpr cursor.old cursor.new result (statement_at depth opening room) }
{
    let inside = room.saturating_sub(1);
    let block = block_inside(lent, inside, cursor, depth)?;
    let closing = close_paren(cursor)?;
    let made = c_nodes::statement_expr(cursor.alloc, opening, block, closing)?;
    postfixed(lent, made, room, cursor, depth)
}

/// An expression in parentheses, behind the first: `Paren = ( expr )`.
#[tactic(auto, unfolding(c_reading::specs::Expressing::paren_with, c_reading::specs::Reading::and_then))]
fn paren<'a, F>(
    lent: &F,
    opening: TokenId,
    room: u16,
    cursor: &mut Cursor<'a>,
    depth: u32,
) -> Result<SizedExpr, ReadError>
where
    F: Fn(Ask, &mut Cursor<'a>) -> Result<Answer, ReadError>,
    requires { Lends F.Fn lent.now depth }
    ensures { ReadsExpr cursor.old cursor.new result (paren_at depth opening room) }
{
    let inside = room.saturating_sub(1);
    let inner = expr_inside(lent, Reach::Whole, Begun::Nothing, inside, cursor, depth)?;
    let closing = close_paren(cursor)?;
    let made = c_nodes::paren(cursor.alloc, opening, inner, closing)?;
    postfixed(lent, made, room, cursor, depth)
}

/// Behind a parenthesis, by the token there.
#[tactic(auto, unfolding(c_reading::specs::Expressing::opened_by))]
fn opened_by<'a, F>(
    lent: &F,
    casts: bool,
    opening: TokenId,
    room: u16,
    cursor: &mut Cursor<'a>,
    depth: u32,
) -> Result<SizedExpr, ReadError>
where
    F: Fn(Ask, &mut Cursor<'a>) -> Result<Answer, ReadError>,
    requires { Lends F.Fn lent.now depth }
    ensures { ReadsExpr cursor.old cursor.new result (opened_by_at depth casts opening room) }
{
    if begins_specs(&cursor.scopes, kind_at(cursor.rest)) {
        typed(lent, casts, opening, room, cursor, depth)
    } else if is_open_brace(kind_at(cursor.rest)) {
        statement(lent, opening, room, cursor, depth)
    } else {
        paren(lent, opening, room, cursor, depth)
    }
}

/// What begins with a parenthesis: a cast, where one is wanted, a compound literal, a statement
/// expression or an expression in parentheses.
#[tactic(auto, unfolding(c_reading::specs::Expressing::opened_with, c_reading::specs::Reading::fits, c_reading::specs::Reading::and_then))]
pub(crate) fn opened<'a, F>(
    lent: &F,
    casts: bool,
    room: u16,
    cursor: &mut Cursor<'a>,
    depth: u32,
) -> Result<SizedExpr, ReadError>
where
    F: Fn(Ask, &mut Cursor<'a>) -> Result<Answer, ReadError>,
    requires { Lends F.Fn lent.now depth }
    ensures { ReadsExpr cursor.old cursor.new result (opened_at depth casts room) }
{
    room_for(2, room, cursor)?;
    let opening = take_one(cursor)?;
    opened_by(lent, casts, opening, room, cursor, depth)
}
