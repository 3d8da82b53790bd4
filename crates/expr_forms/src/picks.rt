//! What is chosen by types or by a constant: GNU forms, and the selection of C11 (6.5.1.1).

ghost use Rattle.std.specs.Prelude.{◌≡◌};
ghost use Rattle.c_reading.specs.Expressing as exprs;
ghost use Rattle.c_reading.specs.Knot.{knot};
ghost use Rattle.reader_base.specs.Lent.{Lends, ReadsExpr};
ghost use Rattle.reader_base.specs.Looping.{IsLoop, Turns};
ghost use Rattle.expr_forms.specs.Picks.{ReadsAssoc, ReadsAssocList, assoc_turn, assocs_at, behind_assoc, known_assocs};

use crate::postfix::postfixed;
use c_nodes::{SizedAssoc, SizedAssocs, SizedExpr};
use c_reading::{FaultKind, Reach, Role, turns_take_tokens};
use reader_base::{
    Answer, Ask, Begun, Cursor, ReadError, begins_role, close_paren, colon, comma, expr_inside,
    is_comma, is_default, kind_at, open_paren, refused, room_for, take_one, type_name_inside,
};

/// `Compat = __builtin_types_compatible_p ( TypeName , TypeName )`, with its postfix forms.
#[tactic(auto, unfolding(c_reading::specs::Expressing::compat_with, c_reading::specs::Reading::fits, c_reading::specs::Reading::and_then))]
pub(crate) fn compat<'a, F>(
    lent: &F,
    room: u16,
    cursor: &mut Cursor<'a>,
    depth: u32,
) -> Result<SizedExpr, ReadError>
where
    F: Fn(Ask, &mut Cursor<'a>) -> Result<Answer, ReadError>,
    requires { Lends F.Fn lent.now depth }
    ensures { ReadsExpr cursor.old cursor.new result (exprs.compat_with (knot depth) room) }
{
    room_for(3, room, cursor)?;
    let inside = room.saturating_sub(1);
    let keyword = take_one(cursor)?;
    let opening = open_paren(cursor)?;
    let left = type_name_inside(lent, inside, cursor, depth)?;
    let separator = comma(cursor)?;
    let right = type_name_inside(lent, inside, cursor, depth)?;
    let closing = close_paren(cursor)?;
    let made = c_nodes::compat(
        cursor.alloc,
        keyword,
        opening,
        left,
        separator,
        right,
        closing,
    )?;
    postfixed(lent, made, room, cursor, depth)
}

/// `Choose = __builtin_choose_expr ( assign , assign , assign )`, with its postfix forms.
#[tactic(auto, unfolding(c_reading::specs::Expressing::choose_with, c_reading::specs::Reading::fits, c_reading::specs::Reading::and_then))]
pub(crate) fn choose<'a, F>(
    lent: &F,
    room: u16,
    cursor: &mut Cursor<'a>,
    depth: u32,
) -> Result<SizedExpr, ReadError>
where
    F: Fn(Ask, &mut Cursor<'a>) -> Result<Answer, ReadError>,
    requires { Lends F.Fn lent.now depth }
    ensures { ReadsExpr cursor.old cursor.new result (exprs.choose_with (knot depth) room) }
{
    room_for(2, room, cursor)?;
    let inside = room.saturating_sub(1);
    let keyword = take_one(cursor)?;
    let opening = open_paren(cursor)?;
    let condition = expr_inside(lent, Reach::Assigned, Begun::Nothing, inside, cursor, depth)?;
    let separator = comma(cursor)?;
    let first = expr_inside(lent, Reach::Assigned, Begun::Nothing, inside, cursor, depth)?;
    let second_separator = comma(cursor)?;
    let second = expr_inside(lent, Reach::Assigned, Begun::Nothing, inside, cursor, depth)?;
    let closing = close_paren(cursor)?;
    let made = c_nodes::choose(
        cursor.alloc,
        keyword,
        opening,
        condition,
        separator,
        first,
        second_separator,
        second,
        closing,
    )?;
    postfixed(lent, made, room, cursor, depth)
}

/// `Assoc = default : assign`, at its word.
#[tactic(auto, unfolding(c_reading::specs::Expressing::default_assoc_with, c_reading::specs::Reading::fits, c_reading::specs::Reading::and_then))]
fn default_assoc<'a, F>(
    lent: &F,
    room: u16,
    cursor: &mut Cursor<'a>,
    depth: u32,
) -> Result<SizedAssoc, ReadError>
where
    F: Fn(Ask, &mut Cursor<'a>) -> Result<Answer, ReadError>,
    requires { Lends F.Fn lent.now depth }
    ensures { ReadsAssoc cursor.old cursor.new result (exprs.default_assoc_with (knot depth) room) }
{
    room_for(2, room, cursor)?;
    let inside = room.saturating_sub(1);
    let keyword = take_one(cursor)?;
    let colon = colon(cursor)?;
    let value = expr_inside(lent, Reach::Assigned, Begun::Nothing, inside, cursor, depth)?;
    Ok(c_nodes::default_assoc(keyword, colon, value))
}

/// `Assoc = TypeName : assign`.
#[tactic(auto, unfolding(c_reading::specs::Expressing::typed_assoc_with, c_reading::specs::Reading::fits, c_reading::specs::Reading::and_then))]
fn typed_assoc<'a, F>(
    lent: &F,
    room: u16,
    cursor: &mut Cursor<'a>,
    depth: u32,
) -> Result<SizedAssoc, ReadError>
where
    F: Fn(Ask, &mut Cursor<'a>) -> Result<Answer, ReadError>,
    requires { Lends F.Fn lent.now depth }
    ensures { ReadsAssoc cursor.old cursor.new result (exprs.typed_assoc_with (knot depth) room) }
{
    room_for(3, room, cursor)?;
    let inside = room.saturating_sub(1);
    let of = type_name_inside(lent, inside, cursor, depth)?;
    let colon = colon(cursor)?;
    let value = expr_inside(lent, Reach::Assigned, Begun::Nothing, inside, cursor, depth)?;
    Ok(c_nodes::typed_assoc(of, colon, value))
}

/// An association.
#[tactic(auto, unfolding(c_reading::specs::Expressing::assoc_with))]
fn assoc<'a, F>(
    lent: &F,
    room: u16,
    cursor: &mut Cursor<'a>,
    depth: u32,
) -> Result<SizedAssoc, ReadError>
where
    F: Fn(Ask, &mut Cursor<'a>) -> Result<Answer, ReadError>,
    requires { Lends F.Fn lent.now depth }
    ensures { ReadsAssoc cursor.old cursor.new result (exprs.assoc_with (knot depth) room) }
{
    if is_default(kind_at(cursor.rest)) {
        return default_assoc(lent, room, cursor, depth);
    }
    if begins_role(Role::Naming, &cursor.scopes, kind_at(cursor.rest)) {
        return typed_assoc(lent, room, cursor, depth);
    }
    Err(refused(FaultKind::Unexpected, cursor.rest))
}

/// Each association that is read takes a token.
fn assocs_step(room: u16, depth: u32)
    ensures { IsLoop (assoc_turn depth room) }
{
    turns_take_tokens(depth);
}

/// One association more behind a comma, where one stands.
#[tactic(auto, unfolding(crate::specs::Picks::assoc_turn, c_reading::specs::Expressing::next_assoc, c_reading::specs::Reading::and_then), using(crate::proofs::Lists::one_assoc_mapped))]
fn next_assoc<'a, F>(
    lent: &F,
    known: &mut SizedAssocs,
    room: u16,
    cursor: &mut Cursor<'a>,
    depth: u32,
) -> Result<bool, ReadError>
where
    F: Fn(Ask, &mut Cursor<'a>) -> Result<Answer, ReadError>,
    requires { Lends F.Fn lent.now depth }
    ensures { Turns (known_assocs known.old) (known_assocs known.new) cursor.old cursor.new
        result (assoc_turn depth room) }
{
    let [first, rest @ ..] = cursor.rest else {
        return Ok(false);
    };
    if !is_comma(first.kind) {
        return Ok(false);
    }
    cursor.rest = rest;
    let next = assoc(lent, room, cursor, depth)?;
    known.push(next)?;
    Ok(true)
}

/// The associations behind the first.
fn more_assocs<'a, F>(
    lent: &F,
    first: SizedAssoc,
    room: u16,
    cursor: &mut Cursor<'a>,
    depth: u32,
) -> Result<SizedAssocs, ReadError>
where
    F: Fn(Ask, &mut Cursor<'a>) -> Result<Answer, ReadError>,
    requires { Lends F.Fn lent.now depth }
    ensures { ReadsAssocList cursor.old cursor.new result (behind_assoc depth first room) }
{
    assocs_step(room, depth);
    let mut known = SizedAssocs::new(cursor.alloc);
    known.push(first)?;
    while next_assoc(lent, &mut known, room, cursor, depth)? {}
    Ok(known)
}

/// `Assoc (, Assoc)*`.
#[tactic(auto, unfolding(crate::specs::Picks::assoc_turn, c_reading::specs::Reading::listed, c_reading::specs::Reading::and_then))]
fn assocs<'a, F>(
    lent: &F,
    room: u16,
    cursor: &mut Cursor<'a>,
    depth: u32,
) -> Result<SizedAssocs, ReadError>
where
    F: Fn(Ask, &mut Cursor<'a>) -> Result<Answer, ReadError>,
    requires { Lends F.Fn lent.now depth }
    ensures { ReadsAssocList cursor.old cursor.new result (assocs_at depth room) }
{
    let first = assoc(lent, room, cursor, depth)?;
    more_assocs(lent, first, room, cursor, depth)
}

/// `Generic = _Generic ( assign , Assoc (, Assoc)* )`, with its postfix forms.
#[tactic(auto, unfolding(c_reading::specs::Expressing::generic_with, c_reading::specs::Reading::fits, c_reading::specs::Reading::and_then), using(crate::proofs::Lists::assocs_same))]
pub(crate) fn generic<'a, F>(
    lent: &F,
    room: u16,
    cursor: &mut Cursor<'a>,
    depth: u32,
) -> Result<SizedExpr, ReadError>
where
    F: Fn(Ask, &mut Cursor<'a>) -> Result<Answer, ReadError>,
    requires { Lends F.Fn lent.now depth }
    ensures { ReadsExpr cursor.old cursor.new result (exprs.generic_with (knot depth) room) }
{
    room_for(3, room, cursor)?;
    let inside = room.saturating_sub(1);
    let keyword = take_one(cursor)?;
    let opening = open_paren(cursor)?;
    let control = expr_inside(lent, Reach::Assigned, Begun::Nothing, inside, cursor, depth)?;
    let _separator = comma(cursor)?;
    let associations = assocs(lent, inside, cursor, depth)?;
    let closing = close_paren(cursor)?;
    let made = c_nodes::generic(
        cursor.alloc,
        keyword,
        opening,
        control,
        associations,
        closing,
    )?;
    postfixed(lent, made, room, cursor, depth)
}
