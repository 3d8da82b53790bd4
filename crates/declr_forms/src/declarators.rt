//! Declarators: pointers, parentheses, and what stands before brackets and parameters (C99, 6.7.5
//! and 6.7.6).
//!
//! `depth` is the number of the readers of lists that the lent one gives; `room` is the greatest
//! height that the tree may have.

ghost use Rattle.std.specs.Prelude.{◌≡◌, is_some};
ghost use Rattle.c_reading.specs.Declaring as declaring;
ghost use Rattle.c_reading.specs.Knot.{knot};
ghost use Rattle.c_reading.specs.Reading.{kind_at};
ghost use Rattle.c_reading.specs.Specifying as specifying;
ghost use Rattle.c_reading.specs.Tokens as tokens;
ghost use Rattle.declr_forms.specs.Views.{paren_behind};
ghost use Rattle.reader_base.specs.Lent.{Lends, ReadsDeclr};

use crate::names::{base_named, name_or_none, names_base, takes_name};
use crate::prototypes::prototype;
use crate::suffixes::suffixes;
use c_nodes::{no_declr, with_paren, with_pointer};
use c_reading::{FaultKind, Mode};
use c_syntax::Attr;
use qual_base::TokenId;
use reader_base::{
    Answer, Ask, Cursor, Declared, ReadError, attrs, begins_specs, close_paren, declr_inside,
    is_close_paren, is_open_bracket, is_open_paren, is_star, kind_at, known_declr, pointer_words,
    refused, room_for, spelled_name, take_one,
};
use typedef_scope::Kind;

/// Whether specifiers begin here.
fn begins_word(cursor: &Cursor) -> bool
    ensures { result ≡ specifying.begins_specs cursor.now.scopes (kind_at cursor.now.rest.now) }
{
    begins_specs(&cursor.scopes, kind_at(cursor.rest))
}

/// Whether a name stands here.
fn is_name(cursor: &Cursor) -> bool
    ensures { result ≡ is_some (tokens.spelled_name (kind_at cursor.now.rest.now)) }
{
    match spelled_name(kind_at(cursor.rest)) {
        Some(_) => true,
        None => false,
    }
}

/// Whether what stands behind a parenthesis and attributes makes it that of parameters, where no
/// name must come.
fn opens_params(attrs: &[Attr], cursor: &Cursor) -> bool
    ensures { result ≡ declaring.opens_params attrs.now cursor.now.scopes
        (kind_at cursor.now.rest.now) }
{
    match attrs {
        [] => is_close_paren(kind_at(cursor.rest)) || begins_word(cursor),
        [_, ..] => begins_word(cursor),
    }
}

/// Whether a declarator goes on so, where no name must come.
fn opens_declr(mode: Mode, cursor: &Cursor) -> bool
    ensures { result ≡ declaring.opens_declr mode (kind_at cursor.now.rest.now) }
{
    is_star(kind_at(cursor.rest))
        || is_open_paren(kind_at(cursor.rest))
        || is_open_bracket(kind_at(cursor.rest))
        || (takes_name(mode) && is_name(cursor))
}

/// The least height of a declarator that begins with a star.
fn least_pointer(mode: Mode) -> u32
    ensures { result ≡ declaring.least_pointer mode }
{
    match mode {
        Mode::Named => 2,
        Mode::Abstract | Mode::Either => 1,
    }
}

/// `Attr* declr )`, behind the parenthesis and the attributes.
#[tactic(auto, unfolding(c_reading::specs::Declaring::paren_with, c_reading::specs::Reading::and_then))]
fn paren<'a, F>(
    lent: &F,
    mode: Mode,
    wanted: Option<Kind>,
    flag: bool,
    opening: TokenId,
    attrs: Vec<Attr>,
    room: u16,
    cursor: &mut Cursor<'a>,
    depth: u32,
) -> Result<Declared, ReadError>
where
    F: Fn(Ask, &mut Cursor<'a>) -> Result<Answer, ReadError>,
    requires { Lends F.Fn lent.now depth }
    ensures { ReadsDeclr cursor.old cursor.new result
        (paren_behind depth mode wanted flag opening attrs.items room) }
{
    let inner = room.saturating_sub(1);
    let found = declr_inside(lent, mode, wanted, flag, inner, cursor, depth)?;
    let known = known_declr(found.declr, cursor)?;
    let closing = close_paren(cursor)?;
    let declr = with_paren(cursor.alloc, opening, attrs, known, closing)?;
    Ok(Declared {
        declr,
        closed: found.closed,
    })
}

/// A declarator in parentheses, where a name must come.
#[tactic(auto, unfolding(c_reading::specs::Declaring::named_paren, c_reading::specs::Reading::and_then, c_reading::specs::Reading::fits))]
fn named_paren<'a, F>(
    lent: &F,
    wanted: Option<Kind>,
    flag: bool,
    room: u16,
    cursor: &mut Cursor<'a>,
    depth: u32,
) -> Result<Declared, ReadError>
where
    F: Fn(Ask, &mut Cursor<'a>) -> Result<Answer, ReadError>,
    requires { Lends F.Fn lent.now depth }
    ensures { ReadsDeclr cursor.old cursor.new result
        (declaring.named_paren (knot depth) wanted flag room) }
{
    room_for(2, room, cursor)?;
    let opening = take_one(cursor)?;
    let attrs = attrs(room, cursor)?;
    paren(
        lent,
        Mode::Named,
        wanted,
        flag,
        opening,
        attrs,
        room,
        cursor,
        depth,
    )
}

/// Parameters or a declarator in parentheses, by the token behind the parenthesis and attributes.
#[tactic(auto, unfolding(c_reading::specs::Declaring::opened_by))]
fn opened_by<'a, F>(
    lent: &F,
    mode: Mode,
    wanted: Option<Kind>,
    flag: bool,
    opening: TokenId,
    attrs: Vec<Attr>,
    room: u16,
    cursor: &mut Cursor<'a>,
    depth: u32,
) -> Result<Declared, ReadError>
where
    F: Fn(Ask, &mut Cursor<'a>) -> Result<Answer, ReadError>,
    requires { Lends F.Fn lent.now depth }
    ensures { ReadsDeclr cursor.old cursor.new result
        (declaring.opened_by (knot depth) mode wanted flag opening attrs.items room) }
{
    if opens_params(attrs.as_slice(), cursor) {
        let none = Declared {
            declr: no_declr(),
            closed: None,
        };
        return prototype(lent, none, opening, attrs, room, cursor, depth);
    }
    if opens_declr(mode, cursor) {
        return paren(
            lent, mode, wanted, flag, opening, attrs, room, cursor, depth,
        );
    }
    Err(refused(FaultKind::Unexpected, cursor.rest))
}

/// Parameters or a declarator in parentheses, where no name must come.
#[tactic(auto, unfolding(c_reading::specs::Declaring::opened_with, c_reading::specs::Reading::and_then, c_reading::specs::Reading::fits))]
fn opened<'a, F>(
    lent: &F,
    mode: Mode,
    wanted: Option<Kind>,
    flag: bool,
    room: u16,
    cursor: &mut Cursor<'a>,
    depth: u32,
) -> Result<Declared, ReadError>
where
    F: Fn(Ask, &mut Cursor<'a>) -> Result<Answer, ReadError>,
    requires { Lends F.Fn lent.now depth }
    ensures { ReadsDeclr cursor.old cursor.new result
        (declaring.opened_with (knot depth) mode wanted flag room) }
{
    room_for(1, room, cursor)?;
    let opening = take_one(cursor)?;
    let attrs = attrs(room, cursor)?;
    opened_by(
        lent, mode, wanted, flag, opening, attrs, room, cursor, depth,
    )
}

/// What stands in parentheses before brackets and parameters.
fn some_paren<'a, F>(
    lent: &F,
    mode: Mode,
    wanted: Option<Kind>,
    flag: bool,
    room: u16,
    cursor: &mut Cursor<'a>,
    depth: u32,
) -> Result<Declared, ReadError>
where
    F: Fn(Ask, &mut Cursor<'a>) -> Result<Answer, ReadError>,
    requires { Lends F.Fn lent.now depth }
    ensures { ReadsDeclr cursor.old cursor.new result
        (declaring.some_paren (knot depth) mode wanted flag room) }
{
    match mode {
        Mode::Named => named_paren(lent, wanted, flag, room, cursor, depth),
        Mode::Abstract => opened(lent, Mode::Abstract, wanted, flag, room, cursor, depth),
        Mode::Either => opened(lent, Mode::Either, wanted, flag, room, cursor, depth),
    }
}

/// What stands before brackets and parameters: a name, something in parentheses, or nothing.
#[tactic(auto, unfolding(c_reading::specs::Declaring::core_with))]
fn core<'a, F>(
    lent: &F,
    mode: Mode,
    wanted: Option<Kind>,
    flag: bool,
    room: u16,
    cursor: &mut Cursor<'a>,
    depth: u32,
) -> Result<Declared, ReadError>
where
    F: Fn(Ask, &mut Cursor<'a>) -> Result<Answer, ReadError>,
    requires { Lends F.Fn lent.now depth }
    ensures { ReadsDeclr cursor.old cursor.new result
        (declaring.core_with (knot depth) mode wanted flag room) }
{
    if is_open_paren(kind_at(cursor.rest)) {
        some_paren(lent, mode, wanted, flag, room, cursor, depth)
    } else if names_base(mode, wanted, cursor) {
        base_named(room, cursor)
    } else {
        name_or_none(mode, wanted, room, cursor, depth)
    }
}

/// A declarator that begins with no star.
#[tactic(auto, unfolding(c_reading::specs::Declaring::direct_with, c_reading::specs::Reading::and_then))]
fn direct<'a, F>(
    lent: &F,
    mode: Mode,
    wanted: Option<Kind>,
    flag: bool,
    room: u16,
    cursor: &mut Cursor<'a>,
    depth: u32,
) -> Result<Declared, ReadError>
where
    F: Fn(Ask, &mut Cursor<'a>) -> Result<Answer, ReadError>,
    requires { Lends F.Fn lent.now depth }
    ensures { ReadsDeclr cursor.old cursor.new result
        (declaring.direct_with (knot depth) mode wanted flag room) }
{
    let core = core(lent, mode, wanted, flag, room, cursor, depth)?;
    suffixes(lent, core, flag, room, cursor, depth)
}

/// `Pointer = * (qual | Attr)* declr`, `AbsPointer = * (qual | Attr)* [absdeclr]`.
#[tactic(auto, unfolding(c_reading::specs::Declaring::pointer_with, c_reading::specs::Reading::and_then, c_reading::specs::Reading::fits), using(crate::proofs::Named::named_pointer))]
fn pointer<'a, F>(
    lent: &F,
    mode: Mode,
    wanted: Option<Kind>,
    flag: bool,
    room: u16,
    cursor: &mut Cursor<'a>,
    depth: u32,
) -> Result<Declared, ReadError>
where
    F: Fn(Ask, &mut Cursor<'a>) -> Result<Answer, ReadError>,
    requires { Lends F.Fn lent.now depth }
    ensures { ReadsDeclr cursor.old cursor.new result
        (declaring.pointer_with (knot depth) mode wanted flag room) }
{
    room_for(least_pointer(mode), room, cursor)?;
    let token = take_one(cursor)?;
    let words = pointer_words(room, cursor)?;
    let inner = room.saturating_sub(1);
    let found = declr_inside(lent, mode, wanted, flag, inner, cursor, depth)?;
    let declr = with_pointer(cursor.alloc, token, words, found.declr)?;
    Ok(Declared {
        declr,
        closed: found.closed,
    })
}

/// A declarator, or none where none must stand: `declr` with a name, `absdeclr` without.
///
/// Its name is held where a kind is wanted; `flag` says whether it may be a function's, which has a
/// level more from the parameters directly around its name on. Time is linear in its tokens, beside
/// the readers inside.
#[tactic(auto, unfolding(c_reading::specs::Declaring::declr_with))]
pub fn declarator<'a, F>(
    lent: &F,
    mode: Mode,
    wanted: Option<Kind>,
    flag: bool,
    room: u16,
    cursor: &mut Cursor<'a>,
    depth: u32,
) -> Result<Declared, ReadError>
where
    F: Fn(Ask, &mut Cursor<'a>) -> Result<Answer, ReadError>,
    requires { Lends F.Fn lent.now depth }
    ensures { ReadsDeclr cursor.old cursor.new result
        (declaring.declr_with (knot depth) mode wanted flag room) }
{
    if is_star(kind_at(cursor.rest)) {
        pointer(lent, mode, wanted, flag, room, cursor, depth)
    } else {
        direct(lent, mode, wanted, flag, room, cursor, depth)
    }
}
