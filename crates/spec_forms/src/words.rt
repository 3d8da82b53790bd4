//! Words of specifiers, one by one (C99, 6.7).

ghost use Rattle.c_reading.specs.Knot.{knot};
ghost use Rattle.c_reading.specs.Specifying.{word_turn};
ghost use Rattle.reader_base.specs.Lent.{Lends, ReadsSpecs, sized_specs};
ghost use Rattle.reader_base.specs.Looping.{IsLoop, Turns};
ghost use Rattle.spec_forms.specs.Forms.{ReadsWord, ReadsMixed, words_in};
ghost use Rattle.spec_forms.specs.Forms.{word_at, words_with, words_at, specs_at};

use crate::enums::enum_word;
use crate::mixed::Mixed;
use crate::starts::{class_of_start, is_start};
use crate::structs::struct_word;
use crate::typeofs::{atomic_word, typeof_word};
use c_nodes::{SizedSpecs, SizedWord};
use c_reading::{FaultKind, Role, SpecStart, turns_take_tokens};
use c_syntax::{Qual, Word};
use decl_nodes::{
    align, attribute, auto_word, basic, inline_word, noreturn, qualifier, storage, thread,
    typedef_name,
};
use reader_base::{
    Answer, Ask, Cursor, ReadError, alignment, attr, kind_at, may_stand, refused, start_at,
    take_one,
};

/// A word that begins so.
#[tactic(auto, unfolding(c_reading::specs::Specifying::word_by, c_reading::specs::Reading::and_then))]
fn word<'a, F>(
    lent: &F,
    start: &SpecStart,
    room: u16,
    cursor: &mut Cursor<'a>,
    depth: u32,
) -> Result<SizedWord, ReadError>
where
    F: Fn(Ask, &mut Cursor<'a>) -> Result<Answer, ReadError>,
    requires { Lends F.Fn lent.now depth }
    ensures { ReadsWord cursor.old cursor.new result (word_at depth start.now room) }
{
    match *start {
        SpecStart::Storage(keyword) => {
            let token = take_one(cursor)?;
            Ok(storage(Word { token, keyword }))
        }
        SpecStart::Thread => Ok(thread(take_one(cursor)?)),
        SpecStart::Inline => Ok(inline_word(take_one(cursor)?)),
        SpecStart::Noreturn => Ok(noreturn(take_one(cursor)?)),
        SpecStart::Word(keyword) => {
            let token = take_one(cursor)?;
            Ok(qualifier(Qual::Word(Word { token, keyword })))
        }
        SpecStart::Element => {
            let token = take_one(cursor)?;
            Ok(qualifier(Qual::Element { token }))
        }
        SpecStart::Index => {
            let token = take_one(cursor)?;
            Ok(qualifier(Qual::Index { token }))
        }
        SpecStart::Basic(keyword) => {
            let token = take_one(cursor)?;
            Ok(basic(Word { token, keyword }))
        }
        SpecStart::Struct(keyword) => {
            struct_word(lent, keyword, room.saturating_sub(1), cursor, depth)
        }
        SpecStart::Enum => enum_word(lent, room.saturating_sub(1), cursor, depth),
        SpecStart::Attribute => Ok(attribute(attr(cursor)?)),
        SpecStart::Name(name) => {
            let token = take_one(cursor)?;
            Ok(typedef_name(token, name))
        }
        SpecStart::Typeof => typeof_word(lent, room.saturating_sub(1), cursor, depth),
        SpecStart::Atomic => atomic_word(lent, room.saturating_sub(1), cursor, depth),
        SpecStart::Align => Ok(align(alignment(cursor)?)),
        SpecStart::Auto => Ok(auto_word(take_one(cursor)?)),
        SpecStart::Nothing => Err(refused(FaultKind::Unexpected, cursor.rest)),
    }
}

/// One word more, which begins so.
#[tactic(auto, unfolding(c_reading::specs::Specifying::word_with, c_reading::specs::Reading::fits, c_reading::specs::Reading::and_then))]
fn push_word<'a, F>(
    lent: &F,
    role: Role,
    start: &SpecStart,
    words: &mut Mixed,
    room: u16,
    cursor: &mut Cursor<'a>,
    depth: u32,
) -> Result<(), ReadError>
where
    F: Fn(Ask, &mut Cursor<'a>) -> Result<Answer, ReadError>,
    requires { Lends F.Fn lent.now depth }
    ensures { ReadsMixed words.new cursor.old cursor.new result
        (words_with depth role start.now words.old room) }
{
    if !may_stand(role, start) {
        return Err(refused(FaultKind::Unexpected, cursor.rest));
    }
    if !words.goes_on(class_of_start(start)) {
        return Err(refused(FaultKind::BadMix, cursor.rest));
    }
    words.room_for_next(start, room, cursor)?;
    let next = word(lent, start, room, cursor, depth)?;
    words.push(next, cursor.alloc)?;
    Ok(())
}

/// One word more, where one stands.
#[tactic(auto, unfolding(c_reading::specs::Reading::and_then))]
fn word_turn<'a, F>(
    lent: &F,
    role: Role,
    words: &mut Mixed,
    room: u16,
    cursor: &mut Cursor<'a>,
    depth: u32,
) -> Result<bool, ReadError>
where
    F: Fn(Ask, &mut Cursor<'a>) -> Result<Answer, ReadError>,
    requires { Lends F.Fn lent.now depth }
    ensures { Turns (words_in words.old) (words_in words.new) cursor.old cursor.new result
        (word_turn (knot depth) role room) }
{
    let start = start_at(&cursor.scopes, words.is_typed(), kind_at(cursor.rest));
    if words.ends_before(&start, cursor) || !is_start(&start) {
        return Ok(false);
    }
    push_word(lent, role, &start, words, room, cursor, depth)?;
    Ok(true)
}

/// Each word that is read takes a token.
fn words_step(role: Role, room: u16, depth: u32)
    ensures { IsLoop (word_turn (knot depth) role room) }
{
    turns_take_tokens(depth);
}

/// Words, as many as stand.
fn more_words<'a, F>(
    lent: &F,
    role: Role,
    words: &mut Mixed,
    room: u16,
    cursor: &mut Cursor<'a>,
    depth: u32,
) -> Result<(), ReadError>
where
    F: Fn(Ask, &mut Cursor<'a>) -> Result<Answer, ReadError>,
    requires { Lends F.Fn lent.now depth }
    ensures { ReadsMixed words.new cursor.old cursor.new result
        (words_at depth role words.old room) }
{
    words_step(role, room, depth);
    while word_turn(lent, role, words, room, cursor, depth)? {}
    Ok(())
}

/// Specifiers, behind words that were read already (C99, 6.7).
///
/// Linear in the tokens and in the words that were read already. `depth` is the number of the
/// readers of lists that the lent reader gives; `room` is the greatest height of the words.
#[tactic(auto, unfolding(c_reading::specs::Specifying::specs_with, c_reading::specs::Reading::and_then))]
pub fn specifiers<'a, F>(
    lent: &F,
    role: Role,
    known: SizedSpecs,
    room: u16,
    cursor: &mut Cursor<'a>,
    depth: u32,
) -> Result<SizedSpecs, ReadError>
where
    F: Fn(Ask, &mut Cursor<'a>) -> Result<Answer, ReadError>,
    requires { Lends F.Fn lent.now depth }
    ensures { ReadsSpecs cursor.old cursor.new result
        (specs_at depth role (sized_specs known) room) }
{
    let mut words = Mixed::new(known);
    more_words(lent, role, &mut words, room, cursor, depth)?;
    if !words.is_whole() {
        return Err(refused(FaultKind::Unexpected, cursor.rest));
    }
    Ok(words.words)
}
