//! The arguments of a call.

ghost use Rattle.reader_base.specs.Lent.{Lends};
ghost use Rattle.reader_base.specs.Looping.{IsLoop, Turns};
ghost use Rattle.expr_forms.specs.Parts.{argument_turn, arguments_at, behind_argument};
ghost use Rattle.expr_forms.specs.Parts.{known_arguments, ReadsArguments, ReadsList};

use c_nodes::{SizedExpr, SizedExprs};
use c_reading::{Reach, turns_take_tokens};
use reader_base::{
    Answer, Ask, Begun, Cursor, ReadError, expr_inside, is_close_paren, is_comma, kind_at,
};

/// Each argument that is read takes a token.
fn arguments_step(room: u16, depth: u32)
    ensures { IsLoop (argument_turn depth room) }
{
    turns_take_tokens(depth);
}

/// One argument more behind a comma, where one stands.
#[tactic(auto, unfolding(crate::specs::Parts::argument_turn, c_reading::specs::Expressing::next_argument, c_reading::specs::Reading::and_then), using(crate::proofs::Lists::one_expr_mapped))]
fn argument<'a, F>(
    lent: &F,
    known: &mut SizedExprs,
    room: u16,
    cursor: &mut Cursor<'a>,
    depth: u32,
) -> Result<bool, ReadError>
where
    F: Fn(Ask, &mut Cursor<'a>) -> Result<Answer, ReadError>,
    requires { Lends F.Fn lent.now depth }
    ensures { Turns (known_arguments known.old) (known_arguments known.new) cursor.old cursor.new
        result (argument_turn depth room) }
{
    let [first, rest @ ..] = cursor.rest else {
        return Ok(false);
    };
    if !is_comma(first.kind) {
        return Ok(false);
    }
    cursor.rest = rest;
    let inside = room.saturating_sub(1);
    let next = expr_inside(lent, Reach::Assigned, Begun::Nothing, inside, cursor, depth)?;
    known.push(next)?;
    Ok(true)
}

/// The arguments behind the first.
fn more_arguments<'a, F>(
    lent: &F,
    first: SizedExpr,
    room: u16,
    cursor: &mut Cursor<'a>,
    depth: u32,
) -> Result<SizedExprs, ReadError>
where
    F: Fn(Ask, &mut Cursor<'a>) -> Result<Answer, ReadError>,
    requires { Lends F.Fn lent.now depth }
    ensures { ReadsList cursor.old cursor.new result (behind_argument depth first room) }
{
    arguments_step(room, depth);
    let mut known = SizedExprs::new(cursor.alloc);
    known.push(first)?;
    while argument(lent, &mut known, room, cursor, depth)? {}
    Ok(known)
}

/// The arguments of a call, none before `)`.
#[tactic(auto, unfolding(crate::specs::Parts::argument_turn, c_reading::specs::Expressing::arguments_with, c_reading::specs::Reading::listed, c_reading::specs::Reading::and_then), using(crate::proofs::Lists::exprs_same))]
pub(crate) fn arguments<'a, F>(
    lent: &F,
    room: u16,
    cursor: &mut Cursor<'a>,
    depth: u32,
) -> Result<SizedExprs, ReadError>
where
    F: Fn(Ask, &mut Cursor<'a>) -> Result<Answer, ReadError>,
    requires { Lends F.Fn lent.now depth }
    ensures { ReadsArguments cursor.old cursor.new result (arguments_at depth room) }
{
    if is_close_paren(kind_at(cursor.rest)) {
        return Ok(SizedExprs::new(cursor.alloc));
    }
    let inside = room.saturating_sub(1);
    let first = expr_inside(lent, Reach::Assigned, Begun::Nothing, inside, cursor, depth)?;
    more_arguments(lent, first, room, cursor, depth)
}
