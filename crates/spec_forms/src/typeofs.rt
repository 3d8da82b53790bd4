//! Types by an expression or by the name of a type in parentheses: `typeof` and `_Atomic` (C23, 6.7.2.5; C11, 6.7.2.4).

ghost use Rattle.c_reading.specs.Knot.{knot};
ghost use Rattle.c_reading.specs.Specifying as specs;
ghost use Rattle.reader_base.specs.Lent.{Lends};
ghost use Rattle.spec_forms.specs.Forms.{ReadsWord};

use c_nodes::SizedWord;
use c_reading::Reach;
use c_syntax::Word;
use c_words::Keyword;
use decl_nodes::{typeof_type, typeof_value};
use qual_base::TokenId;
use reader_base::{
    Answer, Ask, Begun, Cursor, ReadError, begins_specs, close_paren, expr_inside, kind_at,
    open_paren, take_one, type_name_inside,
};

/// The name of a type, behind the word and the parenthesis.
#[tactic(auto, unfolding(c_reading::specs::Specifying::typed_word_with, c_reading::specs::Reading::and_then))]
fn typed_word<'a, F>(
    lent: &F,
    keyword: Keyword,
    token: TokenId,
    opening: TokenId,
    room: u16,
    cursor: &mut Cursor<'a>,
    depth: u32,
) -> Result<SizedWord, ReadError>
where
    F: Fn(Ask, &mut Cursor<'a>) -> Result<Answer, ReadError>,
    requires { Lends F.Fn lent.now depth }
    ensures { ReadsWord cursor.old cursor.new result
        (specs.typed_word_with (knot depth) keyword token opening room) }
{
    let of = type_name_inside(lent, room.saturating_sub(1), cursor, depth)?;
    let closing = close_paren(cursor)?;
    Ok(typeof_type(Word { token, keyword }, opening, of, closing))
}

/// An expression, behind the word and the parenthesis.
#[tactic(auto, unfolding(c_reading::specs::Specifying::typeof_value_with, c_reading::specs::Reading::and_then))]
fn typed_by_value<'a, F>(
    lent: &F,
    token: TokenId,
    opening: TokenId,
    room: u16,
    cursor: &mut Cursor<'a>,
    depth: u32,
) -> Result<SizedWord, ReadError>
where
    F: Fn(Ask, &mut Cursor<'a>) -> Result<Answer, ReadError>,
    requires { Lends F.Fn lent.now depth }
    ensures { ReadsWord cursor.old cursor.new result
        (specs.typeof_value_with (knot depth) token opening room) }
{
    let inside = room.saturating_sub(1);
    let operand = expr_inside(lent, Reach::Whole, Begun::Nothing, inside, cursor, depth)?;
    let closing = close_paren(cursor)?;
    Ok(typeof_value(token, opening, operand, closing))
}

/// `Typeof = typeof ( expr )` or `TypeofType = typeof ( TypeName )`, by the token behind the parenthesis.
#[tactic(auto, unfolding(c_reading::specs::Specifying::typeof_with, c_reading::specs::Reading::and_then))]
pub(crate) fn typeof_word<'a, F>(
    lent: &F,
    room: u16,
    cursor: &mut Cursor<'a>,
    depth: u32,
) -> Result<SizedWord, ReadError>
where
    F: Fn(Ask, &mut Cursor<'a>) -> Result<Answer, ReadError>,
    requires { Lends F.Fn lent.now depth }
    ensures { ReadsWord cursor.old cursor.new result (specs.typeof_with (knot depth) room) }
{
    let token = take_one(cursor)?;
    let opening = open_paren(cursor)?;
    if begins_specs(&cursor.scopes, kind_at(cursor.rest)) {
        return typed_word(lent, Keyword::Typeof, token, opening, room, cursor, depth);
    }
    typed_by_value(lent, token, opening, room, cursor, depth)
}

/// `AtomicType = _Atomic ( TypeName )`.
#[tactic(auto, unfolding(c_reading::specs::Specifying::atomic_with, c_reading::specs::Reading::and_then))]
pub(crate) fn atomic_word<'a, F>(
    lent: &F,
    room: u16,
    cursor: &mut Cursor<'a>,
    depth: u32,
) -> Result<SizedWord, ReadError>
where
    F: Fn(Ask, &mut Cursor<'a>) -> Result<Answer, ReadError>,
    requires { Lends F.Fn lent.now depth }
    ensures { ReadsWord cursor.old cursor.new result (specs.atomic_with (knot depth) room) }
{
    let token = take_one(cursor)?;
    let opening = open_paren(cursor)?;
    typed_word(
        lent,
        Keyword::AtomicType,
        token,
        opening,
        room,
        cursor,
        depth,
    )
}
