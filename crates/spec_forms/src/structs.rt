//! Structs and unions with their members (C99, 6.7.2.1).

ghost use Rattle.reader_base.specs.Lent.{Lends};
ghost use Rattle.reader_base.specs.Looping.{IsLoop, Turns};
ghost use Rattle.spec_forms.specs.Forms.{ReadsWord, ReadsMemDeclr, ReadsMember, ReadsMemberList, ReadsMembers, ReadsStructItem, ReadsStructItems, ReadsItems, ReadsBody, member_list, struct_items};
ghost use Rattle.spec_forms.specs.Forms.{width_at, field_at, mem_declr_at, first_member_at, member_behind, member_turn, more_members_at, mem_declrs_at, member_at, struct_item_at, struct_item_turn, more_items_at, items_at, members_at, body_at, struct_at};

use crate::values::value;
use c_nodes::{
    SizedBody, SizedMemDeclr, SizedMember, SizedMembers, SizedStructItem, SizedStructItems,
    SizedWord,
};
use c_reading::{FaultKind, Reach, Role, turns_take_tokens};
use c_syntax::{Identifier, Word};
use c_words::Keyword;
use decl_nodes::{
    listed_member, member, member_assert, member_semi, named, no_body, some_body, struct_type,
    unnamed,
};
use qual_base::TokenId;
use reader_base::{
    Answer, Ask, Begun, Cursor, ReadError, attrs, close_brace, expr_inside, extensions,
    is_close_brace, is_colon, is_comma, is_open_brace, is_semicolon, is_static_assert, kind_at,
    named_declr, refused, room_for, semicolon, specs_here, static_assert, tag, take_one,
};

/// A width alone, the colon of which stands first.
#[tactic(auto, unfolding(c_reading::specs::Specifying::width_with, c_reading::specs::Reading::fits, c_reading::specs::Reading::and_then))]
fn width<'a, F>(
    lent: &F,
    room: u16,
    cursor: &mut Cursor<'a>,
    depth: u32,
) -> Result<SizedMemDeclr, ReadError>
where
    F: Fn(Ask, &mut Cursor<'a>) -> Result<Answer, ReadError>,
    requires { Lends F.Fn lent.now depth }
    ensures { ReadsMemDeclr cursor.old cursor.new result (width_at depth room) }
{
    room_for(2, room, cursor)?;
    let colon = take_one(cursor)?;
    let inside = room.saturating_sub(1);
    let found = expr_inside(
        lent,
        Reach::Conditional,
        Begun::Nothing,
        inside,
        cursor,
        depth,
    )?;
    let attrs = attrs(room, cursor)?;
    Ok(unnamed(colon, found, attrs))
}

/// A declarator of a member, with its width.
#[tactic(auto, unfolding(c_reading::specs::Specifying::field_with, c_reading::specs::Specifying::value_with, c_reading::specs::Reading::and_then))]
fn field<'a, F>(
    lent: &F,
    room: u16,
    cursor: &mut Cursor<'a>,
    depth: u32,
) -> Result<SizedMemDeclr, ReadError>
where
    F: Fn(Ask, &mut Cursor<'a>) -> Result<Answer, ReadError>,
    requires { Lends F.Fn lent.now depth }
    ensures { ReadsMemDeclr cursor.old cursor.new result (field_at depth room) }
{
    let declr = named_declr(lent, None, room.saturating_sub(1), cursor, depth)?;
    let width = value(lent, is_colon(kind_at(cursor.rest)), room, cursor, depth)?;
    let attrs = attrs(room, cursor)?;
    Ok(named(declr, width, attrs))
}

/// A declarator of a member, or a width alone.
#[tactic(auto, unfolding(c_reading::specs::Specifying::mem_declr_with))]
fn member_declr<'a, F>(
    lent: &F,
    room: u16,
    cursor: &mut Cursor<'a>,
    depth: u32,
) -> Result<SizedMemDeclr, ReadError>
where
    F: Fn(Ask, &mut Cursor<'a>) -> Result<Answer, ReadError>,
    requires { Lends F.Fn lent.now depth }
    ensures { ReadsMemDeclr cursor.old cursor.new result (mem_declr_at depth room) }
{
    if is_colon(kind_at(cursor.rest)) {
        width(lent, room, cursor, depth)
    } else {
        field(lent, room, cursor, depth)
    }
}

/// The first declarator of a member.
#[tactic(auto, unfolding(c_reading::specs::Specifying::first_member, c_reading::specs::Reading::and_then))]
fn first_member<'a, F>(
    lent: &F,
    room: u16,
    cursor: &mut Cursor<'a>,
    depth: u32,
) -> Result<SizedMember, ReadError>
where
    F: Fn(Ask, &mut Cursor<'a>) -> Result<Answer, ReadError>,
    requires { Lends F.Fn lent.now depth }
    ensures { ReadsMember cursor.old cursor.new result (first_member_at depth room) }
{
    let declr = member_declr(lent, room, cursor, depth)?;
    Ok(listed_member(Vec::new(cursor.alloc), declr))
}

/// One declarator more of a member, behind a comma.
#[tactic(auto, unfolding(c_reading::specs::Specifying::next_member, c_reading::specs::Reading::and_then))]
fn push_member<'a, F>(
    lent: &F,
    comma: TokenId,
    known: &mut SizedMembers,
    room: u16,
    cursor: &mut Cursor<'a>,
    depth: u32,
) -> Result<(), ReadError>
where
    F: Fn(Ask, &mut Cursor<'a>) -> Result<Answer, ReadError>,
    requires { Lends F.Fn lent.now depth }
    ensures { ReadsMemberList known.new cursor.old cursor.new result
        (member_behind depth comma known.old room) }
{
    let attrs = attrs(room, cursor)?;
    let declr = member_declr(lent, room, cursor, depth)?;
    known.push(listed_member(attrs, declr))?;
    Ok(())
}

/// One declarator more of a member, where a comma stands.
#[tactic(auto, unfolding(crate::specs::Forms::member_turn, c_reading::specs::Reading::and_then))]
fn member_turn<'a, F>(
    lent: &F,
    known: &mut SizedMembers,
    room: u16,
    cursor: &mut Cursor<'a>,
    depth: u32,
) -> Result<bool, ReadError>
where
    F: Fn(Ask, &mut Cursor<'a>) -> Result<Answer, ReadError>,
    requires { Lends F.Fn lent.now depth }
    ensures { Turns (member_list known.old) (member_list known.new) cursor.old cursor.new result
        (member_turn depth room) }
{
    let [first, rest @ ..] = cursor.rest else {
        return Ok(false);
    };
    if !is_comma(first.kind) {
        return Ok(false);
    }
    cursor.rest = rest;
    push_member(lent, first.at, known, room, cursor, depth)?;
    Ok(true)
}

/// Each comma that is read takes a token.
fn members_step(room: u16, depth: u32)
    ensures { IsLoop (member_turn depth room) }
{
    turns_take_tokens(depth);
}

/// Declarators of a member behind others, as many as stand.
fn more_members<'a, F>(
    lent: &F,
    known: &mut SizedMembers,
    room: u16,
    cursor: &mut Cursor<'a>,
    depth: u32,
) -> Result<(), ReadError>
where
    F: Fn(Ask, &mut Cursor<'a>) -> Result<Answer, ReadError>,
    requires { Lends F.Fn lent.now depth }
    ensures { ReadsMemberList known.new cursor.old cursor.new result
        (more_members_at depth known.old room) }
{
    members_step(room, depth);
    while member_turn(lent, known, room, cursor, depth)? {}
    Ok(())
}

/// `[MemDeclr (, Attr* MemDeclr)*]`, before a semicolon.
#[tactic(auto, unfolding(crate::specs::Forms::member_turn, c_reading::specs::Specifying::mem_declrs_with, c_reading::specs::Reading::listed, c_reading::specs::Reading::and_then))]
fn member_declrs<'a, F>(
    lent: &F,
    room: u16,
    cursor: &mut Cursor<'a>,
    depth: u32,
) -> Result<SizedMembers, ReadError>
where
    F: Fn(Ask, &mut Cursor<'a>) -> Result<Answer, ReadError>,
    requires { Lends F.Fn lent.now depth }
    ensures { ReadsMembers cursor.old cursor.new result (mem_declrs_at depth room) }
{
    let mut known = SizedMembers::new(cursor.alloc);
    if is_semicolon(kind_at(cursor.rest)) {
        return Ok(known);
    }
    let first = first_member(lent, room, cursor, depth)?;
    known.push(first)?;
    more_members(lent, &mut known, room, cursor, depth)?;
    Ok(known)
}

/// `Member = ext* Specs [MemDeclr (, Attr* MemDeclr)*] ;`.
#[tactic(auto, unfolding(c_reading::specs::Specifying::member_with, c_reading::specs::Reading::and_then), using(crate::proofs::Lists::members_same))]
fn member_here<'a, F>(
    lent: &F,
    room: u16,
    cursor: &mut Cursor<'a>,
    depth: u32,
) -> Result<SizedStructItem, ReadError>
where
    F: Fn(Ask, &mut Cursor<'a>) -> Result<Answer, ReadError>,
    requires { Lends F.Fn lent.now depth }
    ensures { ReadsStructItem cursor.old cursor.new result (member_at depth room) }
{
    let extensions = extensions(room, cursor)?;
    let words = specs_here(lent, Role::Typed, room, cursor, depth)?;
    let declrs = member_declrs(lent, room.saturating_sub(1), cursor, depth)?;
    let semi = semicolon(cursor)?;
    Ok(member(extensions, words, declrs, semi))
}

/// `member = Member | Semi | Assert`.
#[tactic(auto, unfolding(c_reading::specs::Specifying::struct_item_with, c_reading::specs::Reading::fits, c_reading::specs::Reading::and_then))]
fn struct_item<'a, F>(
    lent: &F,
    room: u16,
    cursor: &mut Cursor<'a>,
    depth: u32,
) -> Result<SizedStructItem, ReadError>
where
    F: Fn(Ask, &mut Cursor<'a>) -> Result<Answer, ReadError>,
    requires { Lends F.Fn lent.now depth }
    ensures { ReadsStructItem cursor.old cursor.new result (struct_item_at depth room) }
{
    if is_semicolon(kind_at(cursor.rest)) {
        room_for(1, room, cursor)?;
        let semi = take_one(cursor)?;
        return Ok(member_semi(semi));
    }
    if is_static_assert(kind_at(cursor.rest)) {
        room_for(1, room, cursor)?;
        let it = static_assert(cursor)?;
        return Ok(member_assert(it));
    }
    member_here(lent, room, cursor, depth)
}

/// One item more, where no brace ends them.
#[tactic(auto, unfolding(crate::specs::Forms::struct_item_turn, c_reading::specs::Reading::and_then))]
fn item_turn<'a, F>(
    lent: &F,
    known: &mut SizedStructItems,
    room: u16,
    cursor: &mut Cursor<'a>,
    depth: u32,
) -> Result<bool, ReadError>
where
    F: Fn(Ask, &mut Cursor<'a>) -> Result<Answer, ReadError>,
    requires { Lends F.Fn lent.now depth }
    ensures { Turns (struct_items known.old) (struct_items known.new) cursor.old cursor.new result
        (struct_item_turn depth room) }
{
    if is_close_brace(kind_at(cursor.rest)) {
        return Ok(false);
    }
    let next = struct_item(lent, room, cursor, depth)?;
    known.push(next)?;
    Ok(true)
}

/// Each item that is read takes a token.
fn items_step(room: u16, depth: u32)
    ensures { IsLoop (struct_item_turn depth room) }
{
    turns_take_tokens(depth);
}

/// Items behind others, to the brace that ends them.
fn more_items<'a, F>(
    lent: &F,
    known: &mut SizedStructItems,
    room: u16,
    cursor: &mut Cursor<'a>,
    depth: u32,
) -> Result<(), ReadError>
where
    F: Fn(Ask, &mut Cursor<'a>) -> Result<Answer, ReadError>,
    requires { Lends F.Fn lent.now depth }
    ensures { ReadsStructItems known.new cursor.old cursor.new result
        (more_items_at depth known.old room) }
{
    items_step(room, depth);
    while item_turn(lent, known, room, cursor, depth)? {}
    Ok(())
}

/// Items, to the brace that ends them.
#[tactic(auto, unfolding(crate::specs::Forms::struct_item_turn, c_reading::specs::Reading::repeated))]
fn items_here<'a, F>(
    lent: &F,
    room: u16,
    cursor: &mut Cursor<'a>,
    depth: u32,
) -> Result<SizedStructItems, ReadError>
where
    F: Fn(Ask, &mut Cursor<'a>) -> Result<Answer, ReadError>,
    requires { Lends F.Fn lent.now depth }
    ensures { ReadsItems cursor.old cursor.new result (items_at depth room) }
{
    let mut items = SizedStructItems::new(cursor.alloc);
    more_items(lent, &mut items, room, cursor, depth)?;
    Ok(items)
}

/// `{ member* }`.
#[tactic(auto, unfolding(c_reading::specs::Specifying::members_with, c_reading::specs::Reading::and_then), using(crate::proofs::Lists::items_same))]
fn members<'a, F>(
    lent: &F,
    room: u16,
    cursor: &mut Cursor<'a>,
    depth: u32,
) -> Result<SizedBody, ReadError>
where
    F: Fn(Ask, &mut Cursor<'a>) -> Result<Answer, ReadError>,
    requires { Lends F.Fn lent.now depth }
    ensures { ReadsBody cursor.old cursor.new result (members_at depth room) }
{
    let opening = take_one(cursor)?;
    let items = items_here(lent, room.saturating_sub(1), cursor, depth)?;
    let closing = close_brace(cursor)?;
    Ok(some_body(opening, items, closing))
}

/// The body of a struct or union, without which its tag must stand.
#[tactic(auto, unfolding(c_reading::specs::Specifying::body_with))]
fn body<'a, F>(
    lent: &F,
    tag: Option<Identifier>,
    room: u16,
    cursor: &mut Cursor<'a>,
    depth: u32,
) -> Result<SizedBody, ReadError>
where
    F: Fn(Ask, &mut Cursor<'a>) -> Result<Answer, ReadError>,
    requires { Lends F.Fn lent.now depth }
    ensures { ReadsBody cursor.old cursor.new result (body_at depth tag room) }
{
    if is_open_brace(kind_at(cursor.rest)) {
        return members(lent, room, cursor, depth);
    }
    match tag {
        Some(_) => Ok(no_body()),
        None => Err(refused(FaultKind::Unexpected, cursor.rest)),
    }
}

/// `Struct = (struct | union) Attr* [Name] [{ member* }]`.
#[tactic(auto, unfolding(c_reading::specs::Specifying::struct_with, c_reading::specs::Reading::and_then))]
pub(crate) fn struct_word<'a, F>(
    lent: &F,
    keyword: Keyword,
    room: u16,
    cursor: &mut Cursor<'a>,
    depth: u32,
) -> Result<SizedWord, ReadError>
where
    F: Fn(Ask, &mut Cursor<'a>) -> Result<Answer, ReadError>,
    requires { Lends F.Fn lent.now depth }
    ensures { ReadsWord cursor.old cursor.new result (struct_at depth keyword room) }
{
    let token = take_one(cursor)?;
    let attrs = attrs(room, cursor)?;
    let tag = tag(cursor)?;
    let body = body(lent, tag, room, cursor, depth)?;
    let keyword = Word { token, keyword };
    Ok(struct_type(cursor.alloc, keyword, attrs, tag, body)?)
}
