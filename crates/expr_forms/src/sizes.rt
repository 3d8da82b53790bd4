//! `sizeof` and `alignof` (C99, 6.5.3.4).

ghost use Rattle.std.specs.Prelude.{◌+◌};
ghost use Rattle.c_reading.specs.Parts.{type_name_height};
ghost use Rattle.reader_base.specs.Fitting.{HasRoom};
ghost use Rattle.reader_base.specs.Lent.{Lends, ReadsExpr, sized_type_name};
ghost use Rattle.expr_forms.specs.Parts.{sizeof_at, sizeof_behind_at, sizeof_literal_at};
ghost use Rattle.expr_forms.specs.Parts.{sizeof_opened_at, sizeof_type_at, sizeof_typed_at};
ghost use Rattle.expr_forms.specs.Parts.{sizeof_value_at};

use crate::parens::compound;
use c_nodes::{SizedExpr, SizedTypeName, above};
use c_reading::Reach;
use c_syntax::Word;
use c_words::Keyword;
use qual_base::TokenId;
use reader_base::{
    Answer, Ask, Begun, Cursor, ReadError, begins_specs, behind_first, close_paren, expr_inside,
    is_open_brace, is_open_paren, kind_at, room_for, take_one, type_name_inside,
};

/// `sizeof` or `alignof` before a compound literal has room, or the first token is refused.
#[tactic(auto, using(crate::proofs::Rooms::least_two_above))]
fn room_above_literal(of: &SizedTypeName, room: u16, cursor: &Cursor) -> Result<(), ReadError>
    ensures { HasRoom (2 + type_name_height (sized_type_name of.now)) room
        cursor.now.rest.now result }
{
    room_for(above(above(of.height)), room, cursor)
}

/// `Sizeof = (sizeof | alignof) unary`, behind the word.
#[tactic(auto, unfolding(c_reading::specs::Expressing::sizeof_value_with, c_reading::specs::Reading::and_then))]
fn sizeof_value<'a, F>(
    lent: &F,
    word: Word,
    room: u16,
    cursor: &mut Cursor<'a>,
    depth: u32,
) -> Result<SizedExpr, ReadError>
where
    F: Fn(Ask, &mut Cursor<'a>) -> Result<Answer, ReadError>,
    requires { Lends F.Fn lent.now depth }
    ensures { ReadsExpr cursor.old cursor.new result (sizeof_value_at depth word room) }
{
    let inside = room.saturating_sub(1);
    let operand = expr_inside(lent, Reach::Unary, Begun::Nothing, inside, cursor, depth)?;
    Ok(c_nodes::sizeof_value(cursor.alloc, word, operand)?)
}

/// A compound literal that is the operand, behind its parentheses.
#[tactic(auto, unfolding(c_reading::specs::Reading::fits, c_reading::specs::Reading::and_then))]
fn sizeof_literal<'a, F>(
    lent: &F,
    word: Word,
    opening: TokenId,
    of: SizedTypeName,
    closing: TokenId,
    room: u16,
    cursor: &mut Cursor<'a>,
    depth: u32,
) -> Result<SizedExpr, ReadError>
where
    F: Fn(Ask, &mut Cursor<'a>) -> Result<Answer, ReadError>,
    requires { Lends F.Fn lent.now depth }
    ensures { ReadsExpr cursor.old cursor.new result
        (sizeof_literal_at depth word opening of closing room) }
{
    room_above_literal(&of, room, cursor)?;
    let inside = room.saturating_sub(1);
    let operand = compound(lent, opening, of, closing, inside, cursor, depth)?;
    Ok(c_nodes::sizeof_value(cursor.alloc, word, operand)?)
}

/// Behind the name of a type in parentheses: `SizeofType`, or before `{` a compound literal that is
/// the operand.
#[tactic(auto, unfolding(c_reading::specs::Expressing::sizeof_typed))]
fn sizeof_typed<'a, F>(
    lent: &F,
    word: Word,
    opening: TokenId,
    of: SizedTypeName,
    closing: TokenId,
    room: u16,
    cursor: &mut Cursor<'a>,
    depth: u32,
) -> Result<SizedExpr, ReadError>
where
    F: Fn(Ask, &mut Cursor<'a>) -> Result<Answer, ReadError>,
    requires { Lends F.Fn lent.now depth }
    ensures { ReadsExpr cursor.old cursor.new result
        (sizeof_typed_at depth word opening of closing room) }
{
    if is_open_brace(kind_at(cursor.rest)) {
        sizeof_literal(lent, word, opening, of, closing, room, cursor, depth)
    } else {
        Ok(c_nodes::sizeof_type(cursor.alloc, word, opening, of, closing)?)
    }
}

/// `SizeofType = (sizeof | alignof) ( TypeName )`, behind the word.
#[tactic(auto, unfolding(c_reading::specs::Expressing::sizeof_type_with, c_reading::specs::Reading::and_then))]
fn sizeof_type<'a, F>(
    lent: &F,
    word: Word,
    room: u16,
    cursor: &mut Cursor<'a>,
    depth: u32,
) -> Result<SizedExpr, ReadError>
where
    F: Fn(Ask, &mut Cursor<'a>) -> Result<Answer, ReadError>,
    requires { Lends F.Fn lent.now depth }
    ensures { ReadsExpr cursor.old cursor.new result (sizeof_type_at depth word room) }
{
    let opening = take_one(cursor)?;
    let inside = room.saturating_sub(1);
    let of = type_name_inside(lent, inside, cursor, depth)?;
    let closing = close_paren(cursor)?;
    sizeof_typed(lent, word, opening, of, closing, room, cursor, depth)
}

/// Behind the word with a parenthesis behind it, by the token there.
#[tactic(auto, unfolding(c_reading::specs::Reading::fits))]
fn sizeof_opened<'a, F>(
    lent: &F,
    word: Word,
    room: u16,
    cursor: &mut Cursor<'a>,
    depth: u32,
) -> Result<SizedExpr, ReadError>
where
    F: Fn(Ask, &mut Cursor<'a>) -> Result<Answer, ReadError>,
    requires { Lends F.Fn lent.now depth }
    ensures { ReadsExpr cursor.old cursor.new result (sizeof_opened_at depth word room) }
{
    room_for(3, room, cursor)?;
    if begins_specs(&cursor.scopes, kind_at(behind_first(cursor.rest))) {
        sizeof_type(lent, word, room, cursor, depth)
    } else {
        sizeof_value(lent, word, room, cursor, depth)
    }
}

/// Behind the word, by the token there.
#[tactic(auto, unfolding(c_reading::specs::Expressing::sizeof_behind))]
fn sizeof_behind<'a, F>(
    lent: &F,
    word: Word,
    room: u16,
    cursor: &mut Cursor<'a>,
    depth: u32,
) -> Result<SizedExpr, ReadError>
where
    F: Fn(Ask, &mut Cursor<'a>) -> Result<Answer, ReadError>,
    requires { Lends F.Fn lent.now depth }
    ensures { ReadsExpr cursor.old cursor.new result (sizeof_behind_at depth word room) }
{
    if is_open_paren(kind_at(cursor.rest)) {
        sizeof_opened(lent, word, room, cursor, depth)
    } else {
        sizeof_value(lent, word, room, cursor, depth)
    }
}

/// `sizeof` or `alignof` with its operand.
#[tactic(auto, unfolding(c_reading::specs::Expressing::sizeof_with, c_reading::specs::Reading::fits, c_reading::specs::Reading::and_then))]
pub(crate) fn sizeof<'a, F>(
    lent: &F,
    keyword: Keyword,
    room: u16,
    cursor: &mut Cursor<'a>,
    depth: u32,
) -> Result<SizedExpr, ReadError>
where
    F: Fn(Ask, &mut Cursor<'a>) -> Result<Answer, ReadError>,
    requires { Lends F.Fn lent.now depth }
    ensures { ReadsExpr cursor.old cursor.new result (sizeof_at depth keyword room) }
{
    room_for(2, room, cursor)?;
    let token = take_one(cursor)?;
    sizeof_behind(lent, Word { token, keyword }, room, cursor, depth)
}
