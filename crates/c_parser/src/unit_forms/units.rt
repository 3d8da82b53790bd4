//! The items of a unit (C99, 6.9).

ghost use Rattle.c_reading.specs.Items as listed;
ghost use Rattle.c_reading.specs.Knot.{knot};
ghost use Rattle.reader_base.specs.Gives.{Reads};
ghost use Rattle.reader_base.specs.Lent.{Lends};
ghost use Rattle.reader_base.specs.Looping.{IsLoop, Turns};
ghost use Rattle.c_parser.specs.UnitForms.Listed.{ReadsItem, semi_with, asm_with, assert_with};
ghost use Rattle.c_parser.specs.UnitForms.Listed.{known_items, item_turn, items_at};

use crate::unit_forms::declared::declaration_here;
use crate::unit_forms::functions::first_declr;
use c_reading::{Role, turns_take_tokens};
use c_syntax::Item;
use decl_forms::{has_auto, has_typedef};
use decl_nodes::{push_item, semi_item};
use reader_base::{
    Answer, Ask, Cursor, ReadError, extensions, group, is_asm, is_end, is_semicolon,
    is_static_assert, kind_at, room_for, semicolon, specs_here, static_assert, take_one,
};

/// `Semi = ;`.
#[tactic(auto, unfolding(c_reading::specs::Reading::fits, c_reading::specs::Reading::and_then))]
fn semi(room: u16, cursor: &mut Cursor) -> Result<Item, ReadError>
    ensures { ReadsItem cursor.old cursor.new result (semi_with room) }
{
    room_for(1, room, cursor)?;
    let semi = take_one(cursor)?;
    Ok(semi_item(semi))
}

/// `AsmDecl = asm bal ;`.
#[tactic(auto, unfolding(c_reading::specs::Items::asm_item_with, c_reading::specs::Reading::fits, c_reading::specs::Reading::and_then))]
fn asm_item(room: u16, cursor: &mut Cursor, depth: u32) -> Result<Item, ReadError>
    ensures { ReadsItem cursor.old cursor.new result (asm_with depth room) }
{
    room_for(1, room, cursor)?;
    let keyword = take_one(cursor)?;
    let group = group(cursor)?;
    let semi = semicolon(cursor)?;
    Ok(decl_nodes::asm_item(keyword, group, semi))
}

/// `Assert = _Static_assert bal ;`.
#[tactic(auto, unfolding(c_reading::specs::Reading::fits, c_reading::specs::Reading::and_then))]
fn assert_item(room: u16, cursor: &mut Cursor) -> Result<Item, ReadError>
    ensures { ReadsItem cursor.old cursor.new result (assert_with room) }
{
    room_for(1, room, cursor)?;
    let found = static_assert(cursor)?;
    Ok(decl_nodes::assert_item(cursor.alloc, found)?)
}

/// `Function = ext* Specs declr Attr* Block`, or a declaration: by the token behind the words, and
/// whether `typedef` is among these.
#[tactic(auto, unfolding(c_reading::specs::Items::declared_item, c_reading::specs::Stating::declaration_behind, c_reading::specs::Reading::and_then))]
fn declared_item<'a, F>(
    lent: &F,
    room: u16,
    cursor: &mut Cursor<'a>,
    depth: u32,
) -> Result<Item, ReadError>
where
    F: Fn(Ask, &mut Cursor<'a>) -> Result<Answer, ReadError>,
    requires { Lends F.Fn lent.now depth }
    ensures { ReadsItem cursor.old cursor.new result (listed.declared_item (knot depth) room) }
{
    let exts = extensions(room, cursor)?;
    let words = specs_here(lent, Role::Declaring, room, cursor, depth)?;
    if has_auto(words.words.as_slice())
        || is_semicolon(kind_at(cursor.rest))
        || has_typedef(words.words.as_slice())
    {
        return declaration_here(lent, exts, words, room, cursor, depth);
    }
    first_declr(lent, exts, words, room, cursor, depth)
}

/// `item = Function | decl | AsmDecl | Semi`, by its first token (C99, 6.9).
///
/// Linear in its tokens; what is inside is read by `lent`. A height above the room is refused.
#[tactic(auto, unfolding(c_reading::specs::Items::item_with))]
pub fn item<'a, F>(
    lent: &F,
    room: u16,
    cursor: &mut Cursor<'a>,
    depth: u32,
) -> Result<Item, ReadError>
where
    F: Fn(Ask, &mut Cursor<'a>) -> Result<Answer, ReadError>,
    requires { Lends F.Fn lent.now depth }
    ensures { ReadsItem cursor.old cursor.new result (listed.item_with (knot depth) room) }
{
    if is_semicolon(kind_at(cursor.rest)) {
        return semi(room, cursor);
    }
    if is_asm(kind_at(cursor.rest)) {
        return asm_item(room, cursor, depth);
    }
    if is_static_assert(kind_at(cursor.rest)) {
        return assert_item(room, cursor);
    }
    declared_item(lent, room, cursor, depth)
}

/// Each item takes a token.
fn items_step(room: u16, depth: u32)
    ensures { IsLoop (item_turn depth room) }
{
    turns_take_tokens(depth);
}

/// An item more, where the unit does not end.
#[tactic(auto, unfolding(c_reading::specs::Reading::and_then), using(crate::proofs::UnitForms::Pushed::one_item_mapped))]
fn turn<'a, F>(
    lent: &F,
    known: &mut Vec<Item>,
    room: u16,
    cursor: &mut Cursor<'a>,
    depth: u32,
) -> Result<bool, ReadError>
where
    F: Fn(Ask, &mut Cursor<'a>) -> Result<Answer, ReadError>,
    requires { Lends F.Fn lent.now depth }
    ensures { Turns (known_items known.old.items) (known_items known.new.items) cursor.old
        cursor.new result (item_turn depth room) }
{
    if is_end(kind_at(cursor.rest)) {
        return Ok(false);
    }
    let next = item(lent, room, cursor, depth)?;
    push_item(known, next)?;
    Ok(true)
}

/// `Unit = item*`, up to the end (C99, 6.9).
///
/// Linear in the tokens; what is inside is read by `lent`. A height above the room is refused.
#[tactic(auto, unfolding(c_reading::specs::Items::items_with, c_reading::specs::Reading::repeated))]
pub fn items<'a, F>(
    lent: &F,
    room: u16,
    cursor: &mut Cursor<'a>,
    depth: u32,
) -> Result<Vec<Item>, ReadError>
where
    F: Fn(Ask, &mut Cursor<'a>) -> Result<Answer, ReadError>,
    requires { Lends F.Fn lent.now depth }
    ensures { Reads (λ x. known_items x.items) cursor.old cursor.new result
        (listed.items_with (knot depth) room) }
{
    items_step(room, depth);
    let mut known = Vec::new(cursor.alloc);
    while turn(lent, &mut known, room, cursor, depth)? {}
    Ok(known)
}
