//! Designators (C99, 6.7.8).

ghost use Rattle.std.specs.Prelude.{◌≡◌, IfOk};
ghost use Rattle.c_reading.specs.Expressing.{begins_desig};
ghost use Rattle.c_reading.specs.Initialising.{member_desig_with, index_desig_with, desig_with};
ghost use Rattle.c_reading.specs.Initialising.{equal_behind};
ghost use Rattle.c_reading.specs.Knot.{knot};
ghost use Rattle.c_reading.specs.Reading.{repeated, repeated_turn};
ghost use Rattle.c_tree.specs.Lists.{desigs_from};
ghost use Rattle.decl_forms.specs.InitForms.Seen.{ReadsDesig, ReadsDesigs, desig_trees};
ghost use Rattle.c_nodes.specs.Sized.{expr};
ghost use Rattle.c_reading.specs.Initialising as inits;
ghost use Rattle.c_tree.specs.Tree.{more_desigs, no_desigs, old_desig};
ghost use Rattle.reader_base.specs.Gives.{Takes};
ghost use Rattle.reader_base.specs.Lent.{Lends};
ghost use Rattle.reader_base.specs.Looping.{IsLoop, Turns};

use c_nodes::{SizedDesig, SizedDesigs, SizedExpr};
use c_reading::{Reach, turns_take_tokens};
use c_syntax::Identifier;
use decl_nodes::{index_desig, member_desig, old_desig, range_desig};
use qual_base::{NoMemory, TokenId};
use reader_base::{
    Answer, Ask, Begun, Cursor, ReadError, begins_desig, close_bracket, equal, expr_inside, is_dot,
    is_dots, kind_at, name, room_for, take_one,
};
use std::alloc::Global;

/// `Desig = . Name`, at the dot.
#[tactic(auto, unfolding(c_reading::specs::Initialising::member_desig_with, c_reading::specs::Reading::fits, c_reading::specs::Reading::and_then))]
fn member(room: u16, cursor: &mut Cursor, depth: u32) -> Result<SizedDesig, ReadError>
    ensures { ReadsDesig cursor.old cursor.new result (member_desig_with (knot depth) room) }
{
    room_for(2, room, cursor)?;
    let dot = take_one(cursor)?;
    let name = name(cursor)?;
    Ok(member_desig(dot, name))
}

/// `... cond ]`, behind the first value of a range.
#[tactic(auto, unfolding(c_reading::specs::Initialising::range_behind, c_reading::specs::Reading::and_then))]
fn range_behind<'a, F>(
    lent: &F,
    opening: TokenId,
    first: SizedExpr,
    room: u16,
    cursor: &mut Cursor<'a>,
    depth: u32,
) -> Result<SizedDesig, ReadError>
where
    F: Fn(Ask, &mut Cursor<'a>) -> Result<Answer, ReadError>,
    requires { Lends F.Fn lent.now depth }
    ensures { ReadsDesig cursor.old cursor.new result
        (inits.range_behind (knot depth) opening (expr first) room) }
{
    let dots = take_one(cursor)?;
    let inside = room.saturating_sub(2);
    let last = expr_inside(
        lent,
        Reach::Conditional,
        Begun::Nothing,
        inside,
        cursor,
        depth,
    )?;
    let closing = close_bracket(cursor)?;
    Ok(range_desig(opening, first, dots, last, closing))
}

/// `Desig = [ cond ]`, in wider C `[ cond ... cond ]` too, behind the first value.
#[tactic(auto, unfolding(c_reading::specs::Initialising::index_behind, c_reading::specs::Reading::and_then))]
fn index_behind<'a, F>(
    lent: &F,
    opening: TokenId,
    first: SizedExpr,
    room: u16,
    cursor: &mut Cursor<'a>,
    depth: u32,
) -> Result<SizedDesig, ReadError>
where
    F: Fn(Ask, &mut Cursor<'a>) -> Result<Answer, ReadError>,
    requires { Lends F.Fn lent.now depth }
    ensures { ReadsDesig cursor.old cursor.new result
        (inits.index_behind (knot depth) opening (expr first) room) }
{
    if cursor.scopes.is_wide() && is_dots(kind_at(cursor.rest)) {
        return range_behind(lent, opening, first, room, cursor, depth);
    }
    let closing = close_bracket(cursor)?;
    Ok(index_desig(opening, first, closing))
}

/// `Desig = [ cond ]`, at the bracket.
#[tactic(auto, unfolding(c_reading::specs::Initialising::index_desig_with, c_reading::specs::Reading::fits, c_reading::specs::Reading::and_then))]
fn index<'a, F>(
    lent: &F,
    room: u16,
    cursor: &mut Cursor<'a>,
    depth: u32,
) -> Result<SizedDesig, ReadError>
where
    F: Fn(Ask, &mut Cursor<'a>) -> Result<Answer, ReadError>,
    requires { Lends F.Fn lent.now depth }
    ensures { ReadsDesig cursor.old cursor.new result (index_desig_with (knot depth) room) }
{
    room_for(3, room, cursor)?;
    let opening = take_one(cursor)?;
    let inside = room.saturating_sub(2);
    let index = expr_inside(
        lent,
        Reach::Conditional,
        Begun::Nothing,
        inside,
        cursor,
        depth,
    )?;
    index_behind(lent, opening, index, room, cursor, depth)
}

/// A designator.
#[tactic(auto, unfolding(c_reading::specs::Initialising::desig_with))]
fn desig<'a, F>(
    lent: &F,
    room: u16,
    cursor: &mut Cursor<'a>,
    depth: u32,
) -> Result<SizedDesig, ReadError>
where
    F: Fn(Ask, &mut Cursor<'a>) -> Result<Answer, ReadError>,
    requires { Lends F.Fn lent.now depth }
    ensures { ReadsDesig cursor.old cursor.new result (desig_with (knot depth) room) }
{
    if is_dot(kind_at(cursor.rest)) {
        member(room, cursor, depth)
    } else {
        index(lent, room, cursor, depth)
    }
}

/// Each turn over designators takes a token.
fn desigs_step(room: u16, depth: u32)
    ensures { IsLoop (repeated_turn begins_desig (desig_with (knot depth) room)) }
{
    turns_take_tokens(depth);
}

/// One designator more, where one begins.
#[tactic(auto, unfolding(c_reading::specs::Reading::and_then), using(crate::proofs::InitForms::Pushed::desigs_pushed))]
fn desig_turn<'a, F>(
    lent: &F,
    known: &mut SizedDesigs,
    room: u16,
    cursor: &mut Cursor<'a>,
    depth: u32,
) -> Result<bool, ReadError>
where
    F: Fn(Ask, &mut Cursor<'a>) -> Result<Answer, ReadError>,
    requires { Lends F.Fn lent.now depth }
    ensures { Turns (desig_trees known.old) (desig_trees known.new) cursor.old cursor.new result
        (repeated_turn begins_desig (desig_with (knot depth) room)) }
{
    if !begins_desig(kind_at(cursor.rest)) {
        return Ok(false);
    }
    let next = desig(lent, room, cursor, depth)?;
    known.push(next)?;
    Ok(true)
}

/// Designators, as many as stand.
#[tactic(auto, unfolding(c_reading::specs::Reading::repeated))]
pub(crate) fn desigs<'a, F>(
    lent: &F,
    room: u16,
    cursor: &mut Cursor<'a>,
    depth: u32,
) -> Result<SizedDesigs, ReadError>
where
    F: Fn(Ask, &mut Cursor<'a>) -> Result<Answer, ReadError>,
    requires { Lends F.Fn lent.now depth }
    ensures { ReadsDesigs cursor.old cursor.new result
        (repeated begins_desig (desig_with (knot depth) room)) }
{
    desigs_step(room, depth);
    let mut known = SizedDesigs::new(cursor.alloc);
    while desig_turn(lent, &mut known, room, cursor, depth)? {}
    Ok(known)
}

/// `=` behind designators, which must stand there; without designators nothing is taken.
#[tactic(auto, unfolding(c_reading::specs::Reading::and_then))]
pub(crate) fn equal_behind(
    known: &SizedDesigs,
    cursor: &mut Cursor,
) -> Result<Option<TokenId>, ReadError>
    ensures { Takes cursor.old cursor.new result (equal_behind
        (desigs_from known.now.items.items)) }
{
    match known.items.as_slice().split_first() {
        None => Ok(None),
        Some(_) => {
            let equal = equal(cursor)?;
            Ok(Some(equal))
        }
    }
}

/// `OldDesig = Name :`, as designators that stand alone.
pub(crate) fn old_desigs(
    alloc: Global,
    name: Identifier,
    colon: TokenId,
) -> Result<SizedDesigs, NoMemory>
    ensures { IfOk result (λ ds. desigs_from ds.items.items
        ≡ more_desigs (old_desig name colon) no_desigs) }
{
    let mut known = SizedDesigs::new(alloc);
    known.push(old_desig(name, colon))?;
    Ok(known)
}
