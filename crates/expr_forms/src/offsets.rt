//! Offsets of members (C99, 7.17).

ghost use Rattle.reader_base.specs.Lent.{Lends, ReadsExpr};
ghost use Rattle.reader_base.specs.Looping.{IsLoop, Turns};
ghost use Rattle.expr_forms.specs.Parts.{ReadsStep, ReadsSteps, index_step_at, known_steps};
ghost use Rattle.expr_forms.specs.Parts.{member_step_at, offset_at, step_at, step_turn, steps_at};

use crate::postfix::postfixed;
use c_nodes::{SizedExpr, SizedStep, SizedSteps};
use c_reading::{Reach, turns_take_tokens};
use reader_base::{
    Answer, Ask, Begun, Cursor, ReadError, begins_desig, close_bracket, close_paren, comma,
    expr_inside, is_dot, kind_at, name, open_paren, room_for, take_one, type_name_inside,
};

/// Each step that is read takes a token.
fn steps_step(room: u16, depth: u32)
    ensures { IsLoop (step_turn depth room) }
{
    turns_take_tokens(depth);
}

/// `. Name`.
#[tactic(auto, unfolding(c_reading::specs::Reading::and_then))]
fn member_step(cursor: &mut Cursor) -> Result<SizedStep, ReadError>
    ensures { ReadsStep cursor.old cursor.new result member_step_at }
{
    let dot = take_one(cursor)?;
    let name = name(cursor)?;
    Ok(c_nodes::member_step(dot, name))
}

/// `[ expr ]`.
#[tactic(auto, unfolding(c_reading::specs::Reading::and_then))]
fn index_step<'a, F>(
    lent: &F,
    room: u16,
    cursor: &mut Cursor<'a>,
    depth: u32,
) -> Result<SizedStep, ReadError>
where
    F: Fn(Ask, &mut Cursor<'a>) -> Result<Answer, ReadError>,
    requires { Lends F.Fn lent.now depth }
    ensures { ReadsStep cursor.old cursor.new result (index_step_at depth room) }
{
    let opening = take_one(cursor)?;
    let inside = room.saturating_sub(1);
    let index = expr_inside(lent, Reach::Whole, Begun::Nothing, inside, cursor, depth)?;
    let closing = close_bracket(cursor)?;
    Ok(c_nodes::index_step(opening, index, closing))
}

/// A step of an offset, by its first token.
#[tactic(auto, unfolding(c_reading::specs::Expressing::step_with))]
fn step<'a, F>(
    lent: &F,
    room: u16,
    cursor: &mut Cursor<'a>,
    depth: u32,
) -> Result<SizedStep, ReadError>
where
    F: Fn(Ask, &mut Cursor<'a>) -> Result<Answer, ReadError>,
    requires { Lends F.Fn lent.now depth }
    ensures { ReadsStep cursor.old cursor.new result (step_at depth room) }
{
    if is_dot(kind_at(cursor.rest)) {
        member_step(cursor)
    } else {
        index_step(lent, room, cursor, depth)
    }
}

/// A step more, where one begins.
#[tactic(auto, unfolding(c_reading::specs::Reading::and_then), using(crate::proofs::Lists::one_step_mapped))]
fn step_turn<'a, F>(
    lent: &F,
    known: &mut SizedSteps,
    room: u16,
    cursor: &mut Cursor<'a>,
    depth: u32,
) -> Result<bool, ReadError>
where
    F: Fn(Ask, &mut Cursor<'a>) -> Result<Answer, ReadError>,
    requires { Lends F.Fn lent.now depth }
    ensures { Turns (known_steps known.old) (known_steps known.new) cursor.old cursor.new
        result (step_turn depth room) }
{
    if !begins_desig(kind_at(cursor.rest)) {
        return Ok(false);
    }
    let next = step(lent, room, cursor, depth)?;
    known.push(next)?;
    Ok(true)
}

/// Steps, as many as stand.
#[tactic(auto, unfolding(c_reading::specs::Reading::repeated))]
fn steps<'a, F>(
    lent: &F,
    room: u16,
    cursor: &mut Cursor<'a>,
    depth: u32,
) -> Result<SizedSteps, ReadError>
where
    F: Fn(Ask, &mut Cursor<'a>) -> Result<Answer, ReadError>,
    requires { Lends F.Fn lent.now depth }
    ensures { ReadsSteps cursor.old cursor.new result (steps_at depth room) }
{
    steps_step(room, depth);
    let mut known = SizedSteps::new(cursor.alloc);
    while step_turn(lent, &mut known, room, cursor, depth)? {}
    Ok(known)
}

/// `Offset = __builtin_offsetof ( TypeName , Name (. Name | [ expr ])* )`, with its postfix forms
/// (C99, 7.17).
#[tactic(auto, unfolding(c_reading::specs::Expressing::offset_with, c_reading::specs::Reading::fits, c_reading::specs::Reading::and_then), using(crate::proofs::Lists::steps_same))]
pub(crate) fn offset<'a, F>(
    lent: &F,
    room: u16,
    cursor: &mut Cursor<'a>,
    depth: u32,
) -> Result<SizedExpr, ReadError>
where
    F: Fn(Ask, &mut Cursor<'a>) -> Result<Answer, ReadError>,
    requires { Lends F.Fn lent.now depth }
    ensures { ReadsExpr cursor.old cursor.new result (offset_at depth room) }
{
    room_for(3, room, cursor)?;
    let inside = room.saturating_sub(1);
    let keyword = take_one(cursor)?;
    let opening = open_paren(cursor)?;
    let of = type_name_inside(lent, inside, cursor, depth)?;
    let separator = comma(cursor)?;
    let member = name(cursor)?;
    let steps = steps(lent, room, cursor, depth)?;
    let closing = close_paren(cursor)?;
    let made = c_nodes::offset(
        cursor.alloc,
        keyword,
        opening,
        of,
        separator,
        member,
        steps,
        closing,
    )?;
    postfixed(lent, made, room, cursor, depth)
}
