//! Enums with their enumerators (C99, 6.7.2.2).

ghost use Rattle.std.specs.Prelude.{◌≡◌, None};
ghost use Rattle.c_reading.specs.Knot.{knot};
ghost use Rattle.reader_base.specs.Lent.{Lends};
ghost use Rattle.reader_base.specs.Looping.{IsLoop, Turns};
ghost use Rattle.spec_forms.specs.Forms.{ReadsWord, ReadsEnumerator, ReadsEnumList, ReadsEnums, ReadsEnumBody, enum_list};
ghost use Rattle.spec_forms.specs.Forms.{behind_name, named_at, enumerator_at, behind_comma, enumerator_turn, more_at, enums_at, enumerators_at, enum_body_at, enum_at};

use crate::values::value;
use c_nodes::{SizedEnumBody, SizedEnumerator, SizedEnumerators, SizedWord};
use c_reading::{FaultKind, turns_take_tokens};
use c_syntax::Identifier;
use c_tree::Lexeme;
use decl_nodes::{enum_type, enumerator, no_enum_body, some_enum_body};
use qual_base::TokenId;
use reader_base::{
    Answer, Ask, Cursor, ReadError, attrs, close_brace, is_close_brace, is_comma, is_equal,
    is_open_brace, kind_at, name, refused, room_for, tag, take_one,
};
use typedef_scope::Kind;

/// Enumerators, and the comma that ends them, if one does.
#[derive(Drop)]
pub(crate) struct EnumList {
    items: SizedEnumerators,
    ending: Option<TokenId>,
}

/// An enumerator behind its name, which is declared behind the value.
#[tactic(auto, unfolding(c_reading::specs::Specifying::enumerator_behind, c_reading::specs::Specifying::value_with, c_reading::specs::Reading::and_then))]
fn enumerator_behind<'a, F>(
    lent: &F,
    name: Identifier,
    room: u16,
    cursor: &mut Cursor<'a>,
    depth: u32,
) -> Result<SizedEnumerator, ReadError>
where
    F: Fn(Ask, &mut Cursor<'a>) -> Result<Answer, ReadError>,
    requires { Lends F.Fn lent.now depth }
    ensures { ReadsEnumerator cursor.old cursor.new result (behind_name depth name room) }
{
    let attrs = attrs(room, cursor)?;
    let value = value(lent, is_equal(kind_at(cursor.rest)), room, cursor, depth)?;
    if !cursor.scopes.declare(name.name, Kind::Constant)? {
        return Err(refused(FaultKind::Redeclared, cursor.rest));
    }
    Ok(enumerator(name, attrs, value))
}

/// An enumerator with this name, the first of the tokens that are given, where its scope may
/// declare it as one.
#[tactic(auto, unfolding(c_reading::specs::Specifying::enumerator_named, c_reading::specs::Reading::fits, c_reading::specs::Reading::and_then))]
fn enumerator_named<'a, F>(
    lent: &F,
    name: Identifier,
    at: &[Lexeme],
    room: u16,
    cursor: &mut Cursor<'a>,
    depth: u32,
) -> Result<SizedEnumerator, ReadError>
where
    F: Fn(Ask, &mut Cursor<'a>) -> Result<Answer, ReadError>,
    requires { Lends F.Fn lent.now depth }
    ensures { ReadsEnumerator cursor.old cursor.new result (named_at depth name at.now room) }
{
    if !cursor.scopes.may_declare(name.name, Kind::Constant) {
        return Err(refused(FaultKind::Redeclared, at));
    }
    if cursor.scopes.holds(name.name) {
        return Err(refused(FaultKind::Unexpected, at));
    }
    if room < 1 {
        return Err(refused(FaultKind::TooDeep, at));
    }
    enumerator_behind(lent, name, room, cursor, depth)
}

/// `Enumerator = Name Attr* [= cond]`.
#[tactic(auto, unfolding(c_reading::specs::Specifying::enumerator_with, c_reading::specs::Reading::and_then))]
fn enumerator_here<'a, F>(
    lent: &F,
    room: u16,
    cursor: &mut Cursor<'a>,
    depth: u32,
) -> Result<SizedEnumerator, ReadError>
where
    F: Fn(Ask, &mut Cursor<'a>) -> Result<Answer, ReadError>,
    requires { Lends F.Fn lent.now depth }
    ensures { ReadsEnumerator cursor.old cursor.new result (enumerator_at depth room) }
{
    let at = cursor.rest;
    let name = name(cursor)?;
    enumerator_named(lent, name, at, room, cursor, depth)
}

/// One enumerator more behind a comma, or the end of the list.
#[tactic(auto, unfolding(c_reading::specs::Specifying::next_enumerator, c_reading::specs::Reading::and_then))]
fn push_enumerator<'a, F>(
    lent: &F,
    comma: TokenId,
    known: &mut EnumList,
    room: u16,
    cursor: &mut Cursor<'a>,
    depth: u32,
) -> Result<(), ReadError>
where
    F: Fn(Ask, &mut Cursor<'a>) -> Result<Answer, ReadError>,
    requires lent { Lends F.Fn lent.now depth }
    requires open { known.old.ending ≡ None }
    ensures { ReadsEnumList known.new cursor.old cursor.new result
        (behind_comma depth comma known.old room) }
{
    if is_close_brace(kind_at(cursor.rest)) {
        known.ending = Some(comma);
        return Ok(());
    }
    let next = enumerator_here(lent, room, cursor, depth)?;
    known.items.push(next)?;
    Ok(())
}

/// One enumerator more, or the end of the list, where a comma stands.
#[tactic(auto, unfolding(crate::specs::Forms::enumerator_turn, c_reading::specs::Reading::and_then))]
fn enumerator_turn<'a, F>(
    lent: &F,
    known: &mut EnumList,
    room: u16,
    cursor: &mut Cursor<'a>,
    depth: u32,
) -> Result<bool, ReadError>
where
    F: Fn(Ask, &mut Cursor<'a>) -> Result<Answer, ReadError>,
    requires { Lends F.Fn lent.now depth }
    ensures { Turns (enum_list known.old) (enum_list known.new) cursor.old cursor.new result
        (enumerator_turn depth room) }
{
    match known.ending {
        Some(_) => return Ok(false),
        None => {}
    }
    let [first, rest @ ..] = cursor.rest else {
        return Ok(false);
    };
    if !is_comma(first.kind) {
        return Ok(false);
    }
    cursor.rest = rest;
    push_enumerator(lent, first.at, known, room, cursor, depth)?;
    Ok(true)
}

/// Each comma that is read takes a token.
fn enumerators_step(room: u16, depth: u32)
    ensures { IsLoop (enumerator_turn depth room) }
{
    turns_take_tokens(depth);
}

/// Enumerators behind others, as many as stand.
fn more_enumerators<'a, F>(
    lent: &F,
    known: &mut EnumList,
    room: u16,
    cursor: &mut Cursor<'a>,
    depth: u32,
) -> Result<(), ReadError>
where
    F: Fn(Ask, &mut Cursor<'a>) -> Result<Answer, ReadError>,
    requires { Lends F.Fn lent.now depth }
    ensures { ReadsEnumList known.new cursor.old cursor.new result (more_at depth known.old room) }
{
    enumerators_step(room, depth);
    while enumerator_turn(lent, known, room, cursor, depth)? {}
    Ok(())
}

/// `Enumerator (, Enumerator)* [,]`.
#[tactic(auto, unfolding(crate::specs::Forms::enumerator_turn, c_reading::specs::Reading::listed, c_reading::specs::Reading::and_then))]
fn enumerators_here<'a, F>(
    lent: &F,
    room: u16,
    cursor: &mut Cursor<'a>,
    depth: u32,
) -> Result<EnumList, ReadError>
where
    F: Fn(Ask, &mut Cursor<'a>) -> Result<Answer, ReadError>,
    requires { Lends F.Fn lent.now depth }
    ensures { ReadsEnums cursor.old cursor.new result (enums_at depth room) }
{
    let first = enumerator_here(lent, room, cursor, depth)?;
    let mut list = EnumList {
        items: SizedEnumerators::new(cursor.alloc),
        ending: None,
    };
    list.items.push(first)?;
    more_enumerators(lent, &mut list, room, cursor, depth)?;
    Ok(list)
}

/// `{ Enumerator (, Enumerator)* [,] }`.
#[tactic(auto, unfolding(c_reading::specs::Specifying::enumerators_with, c_reading::specs::Reading::fits, c_reading::specs::Reading::and_then), using(crate::proofs::Lists::enumerators_same))]
fn enumerators<'a, F>(
    lent: &F,
    room: u16,
    cursor: &mut Cursor<'a>,
    depth: u32,
) -> Result<SizedEnumBody, ReadError>
where
    F: Fn(Ask, &mut Cursor<'a>) -> Result<Answer, ReadError>,
    requires { Lends F.Fn lent.now depth }
    ensures { ReadsEnumBody cursor.old cursor.new result (enumerators_at depth room) }
{
    room_for(2, room, cursor)?;
    let opening = take_one(cursor)?;
    let list = enumerators_here(lent, room.saturating_sub(1), cursor, depth)?;
    let closing = close_brace(cursor)?;
    Ok(some_enum_body(opening, list.items, list.ending, closing))
}

/// The body of an enum, without which its tag must stand.
#[tactic(auto, unfolding(c_reading::specs::Specifying::enum_body_with))]
fn enum_body<'a, F>(
    lent: &F,
    tag: Option<Identifier>,
    room: u16,
    cursor: &mut Cursor<'a>,
    depth: u32,
) -> Result<SizedEnumBody, ReadError>
where
    F: Fn(Ask, &mut Cursor<'a>) -> Result<Answer, ReadError>,
    requires { Lends F.Fn lent.now depth }
    ensures { ReadsEnumBody cursor.old cursor.new result (enum_body_at depth tag room) }
{
    if is_open_brace(kind_at(cursor.rest)) {
        return enumerators(lent, room, cursor, depth);
    }
    match tag {
        Some(_) => Ok(no_enum_body()),
        None => Err(refused(FaultKind::Unexpected, cursor.rest)),
    }
}

/// `Enum = enum Attr* [Name] [{ Enumerator (, Enumerator)* [,] }]`.
#[tactic(auto, unfolding(c_reading::specs::Specifying::enum_with, c_reading::specs::Reading::and_then))]
pub(crate) fn enum_word<'a, F>(
    lent: &F,
    room: u16,
    cursor: &mut Cursor<'a>,
    depth: u32,
) -> Result<SizedWord, ReadError>
where
    F: Fn(Ask, &mut Cursor<'a>) -> Result<Answer, ReadError>,
    requires { Lends F.Fn lent.now depth }
    ensures { ReadsWord cursor.old cursor.new result (enum_at depth room) }
{
    let keyword = take_one(cursor)?;
    let attrs = attrs(room, cursor)?;
    let tag = tag(cursor)?;
    let body = enum_body(lent, tag, room, cursor, depth)?;
    Ok(enum_type(cursor.alloc, keyword, attrs, tag, body)?)
}
