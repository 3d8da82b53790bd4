//! Brackets and parameters behind a declarator (C99, 6.7.5).
//!
//! `depth` is the number of the readers of lists that the lent one gives; `room` is the greatest
//! height that the tree may have.

ghost use Rattle.std.specs.Prelude.{◌≡◌, ◌&&◌, ◌||◌, IfOk, is_some};
ghost use Rattle.c_reading.specs.Declaring as declaring;
ghost use Rattle.c_reading.specs.Tokens as tokens;
ghost use Rattle.declr_forms.specs.Views.{brackets_at, more_suffixes, params_at, suffixes_turn};
ghost use Rattle.reader_base.specs.Lent.{Lends, ReadsDeclr, declared_of};
ghost use Rattle.reader_base.specs.Looping.{IsLoop, Turns};

use crate::arrays::array;
use crate::prototypes::{is_bare_name, params_behind};
use c_nodes::no_declr;
use c_reading::turns_take_tokens;
use c_words::TokenKind;
use qual_base::NoMemory;
use reader_base::{
    Answer, Ask, Cursor, Declared, ReadError, is_open_bracket, is_open_paren, kind_at, room_above,
};
use std::mem::replace;

/// Whether a declarator has the parameters directly around its name, or goes on with them.
fn is_functions(known: &Declared, kind: TokenKind) -> bool
    ensures { result ≡ (is_some (declared_of known.now).closed ||
        (tokens.is_open_paren kind && declaring.is_bare (declared_of known.now).declr)) }
{
    match &known.closed {
        Some(_) => true,
        None => is_open_paren(kind) && is_bare_name(&known.declr),
    }
}

/// The room of what stands behind a declarator, which has a level more behind the name of what may
/// be a function; no reader has the greatest room of 16 bits.
fn room_at(flag: bool, room: u16, known: &Declared, kind: TokenKind) -> Result<u16, NoMemory>
    ensures { IfOk result (λ r. r ≡ declaring.room_at flag room (declared_of known.now) kind) }
{
    if !(flag && is_functions(known, kind)) {
        return Ok(room);
    }
    if room == u16::MAX {
        return Err(NoMemory);
    }
    Ok(room + 1)
}

/// Brackets behind a declarator, where they have room.
#[tactic(auto, unfolding(c_reading::specs::Reading::fits))]
fn brackets<'a, F>(
    lent: &F,
    known: Declared,
    flag: bool,
    room: u16,
    cursor: &mut Cursor<'a>,
    depth: u32,
) -> Result<Declared, ReadError>
where
    F: Fn(Ask, &mut Cursor<'a>) -> Result<Answer, ReadError>,
    requires { Lends F.Fn lent.now depth }
    ensures { ReadsDeclr cursor.old cursor.new result
        (brackets_at depth flag room (declared_of known)) }
{
    let own = room_at(flag, room, &known, kind_at(cursor.rest))?;
    room_above(known.declr.height, own, cursor)?;
    array(lent, known, own, cursor, depth)
}

/// Parameters behind a declarator, where they have room.
#[tactic(auto, unfolding(c_reading::specs::Reading::fits))]
fn prototypes<'a, F>(
    lent: &F,
    known: Declared,
    flag: bool,
    room: u16,
    cursor: &mut Cursor<'a>,
    depth: u32,
) -> Result<Declared, ReadError>
where
    F: Fn(Ask, &mut Cursor<'a>) -> Result<Answer, ReadError>,
    requires { Lends F.Fn lent.now depth }
    ensures { ReadsDeclr cursor.old cursor.new result
        (params_at depth flag room (declared_of known)) }
{
    let own = room_at(flag, room, &known, kind_at(cursor.rest))?;
    room_above(known.declr.height, own, cursor)?;
    params_behind(lent, flag, known, own, cursor, depth)
}

/// No declarator.
fn none() -> Declared {
    Declared {
        declr: no_declr(),
        closed: None,
    }
}

/// Brackets or parameters more, where some stand.
fn suffix_turn<'a, F>(
    lent: &F,
    known: &mut Declared,
    flag: bool,
    room: u16,
    cursor: &mut Cursor<'a>,
    depth: u32,
) -> Result<bool, ReadError>
where
    F: Fn(Ask, &mut Cursor<'a>) -> Result<Answer, ReadError>,
    requires { Lends F.Fn lent.now depth }
    ensures { Turns (declared_of known.old) (declared_of known.new) cursor.old cursor.new result
        (suffixes_turn depth flag room) }
{
    if is_open_bracket(kind_at(cursor.rest)) {
        let inner = replace(known, none());
        *known = brackets(lent, inner, flag, room, cursor, depth)?;
        return Ok(true);
    }
    if is_open_paren(kind_at(cursor.rest)) {
        let inner = replace(known, none());
        *known = prototypes(lent, inner, flag, room, cursor, depth)?;
        return Ok(true);
    }
    Ok(false)
}

/// Each turn over brackets and parameters takes some.
fn suffixes_step(flag: bool, room: u16, depth: u32)
    ensures { IsLoop (suffixes_turn depth flag room) }
{
    turns_take_tokens(depth);
}

/// All brackets and parameters behind a declarator.
pub(crate) fn suffixes<'a, F>(
    lent: &F,
    core: Declared,
    flag: bool,
    room: u16,
    cursor: &mut Cursor<'a>,
    depth: u32,
) -> Result<Declared, ReadError>
where
    F: Fn(Ask, &mut Cursor<'a>) -> Result<Answer, ReadError>,
    requires { Lends F.Fn lent.now depth }
    ensures { ReadsDeclr cursor.old cursor.new result
        (more_suffixes depth flag room (declared_of core)) }
{
    suffixes_step(flag, room, depth);
    let mut known = core;
    while suffix_turn(lent, &mut known, flag, room, cursor, depth)? {}
    Ok(known)
}
