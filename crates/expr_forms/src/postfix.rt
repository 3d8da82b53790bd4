//! The postfix forms behind an operand (C99, 6.5.2).

ghost use Rattle.std.specs.Prelude.{suc};
ghost use Rattle.c_tree.specs.Height.{expr_height};
ghost use Rattle.c_reading.specs.Expressing.{arrow_with, dot_with, post_with};
ghost use Rattle.c_reading.specs.Parts.{Inner};
ghost use Rattle.c_nodes.specs.Sized.{expr};
ghost use Rattle.reader_base.specs.Fitting.{HasRoom};
ghost use Rattle.reader_base.specs.Looping.{IsLoop};
ghost use Rattle.reader_base.specs.Lent.{Lends, ReadsExpr};
ghost use Rattle.expr_forms.specs.Parts.{IsChosen, call_at, form_at, form_turn, index_at};
ghost use Rattle.expr_forms.specs.Parts.{postfixed_at};

use crate::arguments::arguments;
use c_nodes::{SizedExpr, above};
use c_reading::{FaultKind, PostfixForm, Reach, turns_take_tokens};
use c_words::Punct;
use reader_base::{
    Answer, Ask, Begun, Cursor, ReadError, close_bracket, close_paren, expr_inside, form_of,
    kind_at, name, refused, room_for, take_one,
};

/// `Index = postfix [ expr ]`.
#[tactic(auto, unfolding(c_reading::specs::Expressing::index_with, c_reading::specs::Reading::and_then))]
fn index<'a, F>(
    lent: &F,
    base: SizedExpr,
    room: u16,
    cursor: &mut Cursor<'a>,
    depth: u32,
) -> Result<SizedExpr, ReadError>
where
    F: Fn(Ask, &mut Cursor<'a>) -> Result<Answer, ReadError>,
    requires { Lends F.Fn lent.now depth }
    ensures { ReadsExpr cursor.old cursor.new result (index_at depth base room) }
{
    let opening = take_one(cursor)?;
    let inside = room.saturating_sub(1);
    let index = expr_inside(lent, Reach::Whole, Begun::Nothing, inside, cursor, depth)?;
    let closing = close_bracket(cursor)?;
    Ok(c_nodes::index(cursor.alloc, base, opening, index, closing)?)
}

/// `Call = postfix ( [assign (, assign)*] )`.
#[tactic(auto, unfolding(c_reading::specs::Expressing::call_with, c_reading::specs::Reading::and_then))]
fn call<'a, F>(
    lent: &F,
    callee: SizedExpr,
    room: u16,
    cursor: &mut Cursor<'a>,
    depth: u32,
) -> Result<SizedExpr, ReadError>
where
    F: Fn(Ask, &mut Cursor<'a>) -> Result<Answer, ReadError>,
    requires { Lends F.Fn lent.now depth }
    ensures { ReadsExpr cursor.old cursor.new result (call_at depth callee room) }
{
    let opening = take_one(cursor)?;
    let arguments = arguments(lent, room, cursor, depth)?;
    let closing = close_paren(cursor)?;
    Ok(c_nodes::call(cursor.alloc, callee, opening, arguments, closing)?)
}

/// `Dot = postfix . Name`.
#[tactic(auto, unfolding(c_reading::specs::Expressing::dot_with, c_reading::specs::Reading::and_then))]
fn dot(base: SizedExpr, cursor: &mut Cursor) -> Result<SizedExpr, ReadError>
    ensures { (inner : Inner) →
        ReadsExpr cursor.old cursor.new result (dot_with inner (expr base)) }
{
    let token = take_one(cursor)?;
    let member = name(cursor)?;
    Ok(c_nodes::dot(cursor.alloc, base, token, member)?)
}

/// `Arrow = postfix -> Name`.
#[tactic(auto, unfolding(c_reading::specs::Expressing::arrow_with, c_reading::specs::Reading::and_then))]
fn arrow(base: SizedExpr, cursor: &mut Cursor) -> Result<SizedExpr, ReadError>
    ensures { (inner : Inner) →
        ReadsExpr cursor.old cursor.new result (arrow_with inner (expr base)) }
{
    let token = take_one(cursor)?;
    let member = name(cursor)?;
    Ok(c_nodes::arrow(cursor.alloc, base, token, member)?)
}

/// `Post = postfix (++ | --)`.
#[tactic(auto, unfolding(c_reading::specs::Expressing::post_with, c_reading::specs::Reading::and_then))]
fn post(base: SizedExpr, sign: Punct, cursor: &mut Cursor) -> Result<SizedExpr, ReadError>
    ensures { (inner : Inner) →
        ReadsExpr cursor.old cursor.new result (post_with inner (expr base) sign) }
{
    let token = take_one(cursor)?;
    Ok(c_nodes::post(cursor.alloc, base, token, sign)?)
}

/// A postfix form of a kind behind an operand.
fn form_behind<'a, F>(
    lent: &F,
    form: PostfixForm,
    base: SizedExpr,
    room: u16,
    cursor: &mut Cursor<'a>,
    depth: u32,
) -> Result<SizedExpr, ReadError>
where
    F: Fn(Ask, &mut Cursor<'a>) -> Result<Answer, ReadError>,
    requires { Lends F.Fn lent.now depth }
    ensures { ReadsExpr cursor.old cursor.new result (form_at depth form base room) }
{
    match form {
        PostfixForm::Index => index(lent, base, room, cursor, depth),
        PostfixForm::Call => call(lent, base, room, cursor, depth),
        PostfixForm::Dot => dot(base, cursor),
        PostfixForm::Arrow => arrow(base, cursor),
        PostfixForm::Post(sign) => post(base, sign, cursor),
        PostfixForm::Nothing => Err(refused(FaultKind::Unexpected, cursor.rest)),
    }
}

/// What is put round an operand has room, or the first token is refused.
#[tactic(auto, using(crate::proofs::Rooms::least_above))]
fn room_above(base: &SizedExpr, room: u16, cursor: &Cursor) -> Result<(), ReadError>
    ensures { HasRoom (suc (expr_height (expr base.now))) room cursor.now.rest.now result }
{
    room_for(above(base.height), room, cursor)
}

/// The postfix form that the first token begins, for which there is room, or none.
#[tactic(auto, unfolding(c_reading::specs::Reading::fits))]
fn chosen(base: &SizedExpr, room: u16, cursor: &Cursor) -> Result<Option<PostfixForm>, ReadError>
    ensures { IsChosen room (expr base.now) cursor.now.rest.now result }
{
    let form = form_of(kind_at(cursor.rest));
    match form {
        PostfixForm::Nothing => Ok(None),
        PostfixForm::Index | PostfixForm::Call | PostfixForm::Dot => {
            room_above(base, room, cursor)?;
            Ok(Some(form))
        }
        PostfixForm::Arrow | PostfixForm::Post(_) => {
            room_above(base, room, cursor)?;
            Ok(Some(form))
        }
    }
}

/// Each postfix form that is read takes a token.
fn forms_step(room: u16, depth: u32)
    ensures { IsLoop (form_turn depth room) }
{
    turns_take_tokens(depth);
}

/// The postfix forms behind a primary expression or a compound literal.
#[tactic(auto, unfolding(c_reading::specs::Expressing::postfixed))]
pub(crate) fn postfixed<'a, F>(
    lent: &F,
    base: SizedExpr,
    room: u16,
    cursor: &mut Cursor<'a>,
    depth: u32,
) -> Result<SizedExpr, ReadError>
where
    F: Fn(Ask, &mut Cursor<'a>) -> Result<Answer, ReadError>,
    requires { Lends F.Fn lent.now depth }
    ensures { ReadsExpr cursor.old cursor.new result (postfixed_at depth base room) }
{
    forms_step(room, depth);
    let mut known = base;
    while let Some(form) = chosen(&known, room, cursor)? {
        known = form_behind(lent, form, known, room, cursor, depth)?;
    }
    Ok(known)
}
