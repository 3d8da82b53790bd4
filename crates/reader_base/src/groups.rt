//! Groups in which brackets match, and what is made of them: attributes, labels of `asm` and static
//! assertions.

ghost use Rattle.std.specs.Prelude.{◌≡◌, reverse};
ghost use Rattle.c_reading.specs.Stating.{label_at};
ghost use Rattle.c_reading.specs.Tokens as tokens;
ghost use Rattle.reader_base.specs.Gives.{Reads, ReadsRow, Takes};
ghost use Rattle.reader_base.specs.Groups.{opened_of, insides_at};
ghost use Rattle.reader_base.specs.Looping.{IsLoop, Turns};
ghost use Rattle.reader_base.specs.Rows as rows;

use crate::cursor::{Cursor, room_for};
use crate::fault::{ReadError, refused};
use crate::kinds::{is_asm, is_attribute};
use crate::tokens::{assert_word, attribute_word, kind_at, open_paren, semicolon, take_one};
use c_reading::{Bracket, FaultKind, Inside};
use c_syntax::{AsmLabel, Assert, Attr, Group};
use c_words::{Punct, TokenKind};
use qual_base::TokenId;

/// The brackets that are open, the innermost last, and the number of the last token.
#[derive(Drop)]
pub(crate) struct Opened {
    brackets: Vec<Bracket>,
    last: TokenId,
}

/// Whether two brackets are of one kind.
fn is_same(one: Bracket, other: Bracket) -> bool
    ensures { result ≡ tokens.is_same one other }
{
    match (one, other) {
        (Bracket::Paren, Bracket::Paren)
        | (Bracket::Square, Bracket::Square)
        | (Bracket::Brace, Bracket::Brace) => true,
        _ => false,
    }
}

/// What a token of a kind is inside brackets.
fn inside_of(kind: TokenKind) -> Inside
    ensures { result ≡ tokens.inside_of kind }
{
    match kind {
        TokenKind::Punct(Punct::OpenParen) => Inside::Opens(Bracket::Paren),
        TokenKind::Punct(Punct::CloseParen) => Inside::Closes(Bracket::Paren),
        TokenKind::Punct(Punct::OpenBracket) => Inside::Opens(Bracket::Square),
        TokenKind::Punct(Punct::CloseBracket) => Inside::Closes(Bracket::Square),
        TokenKind::Punct(Punct::OpenBrace) => Inside::Opens(Bracket::Brace),
        TokenKind::Punct(Punct::CloseBrace) => Inside::Closes(Bracket::Brace),
        TokenKind::End => Inside::Stops,
        _ => Inside::Plain,
    }
}

/// Takes a token inside the innermost bracket, beside those round it.
fn bracket_step(
    innermost: Bracket,
    opened: &mut Opened,
    cursor: &mut Cursor,
) -> Result<(), ReadError>
    ensures { Reads (λ _. opened_of opened.new) cursor.old cursor.new result
        (tokens.bracket_step innermost (reverse opened.old.brackets.items)) }
{
    let [first, rest @ ..] = cursor.rest else {
        return Err(refused(FaultKind::Unexpected, cursor.rest));
    };
    match inside_of(first.kind) {
        Inside::Opens(bracket) => {
            opened.brackets.push(innermost)?;
            opened.brackets.push(bracket)?;
        }
        Inside::Closes(bracket) => {
            if !is_same(bracket, innermost) {
                return Err(refused(FaultKind::Unexpected, cursor.rest));
            }
        }
        Inside::Plain => opened.brackets.push(innermost)?,
        Inside::Stops => return Err(refused(FaultKind::Unexpected, cursor.rest)),
    }
    opened.last = first.at;
    cursor.rest = rest;
    Ok(())
}

/// Takes a token where a bracket is open.
fn bracket_turn(opened: &mut Opened, cursor: &mut Cursor) -> Result<bool, ReadError>
    ensures { Turns (opened_of opened.old)
        (opened_of opened.new) cursor.old cursor.new result tokens.bracket_turn }
{
    match opened.brackets.pop() {
        Some(innermost) => {
            bracket_step(innermost, opened, cursor)?;
            Ok(true)
        }
        None => Ok(false),
    }
}

/// Each turn inside brackets takes a token.
fn brackets_step()
    ensures { IsLoop tokens.bracket_turn }
{}

/// Takes tokens until no bracket is open.
fn insides(opened: &mut Opened, cursor: &mut Cursor) -> Result<(), ReadError>
    ensures { Reads (λ _. opened_of opened.new) cursor.old cursor.new result
        (insides_at opened.old) }
{
    brackets_step();
    while bracket_turn(opened, cursor)? {}
    Ok(())
}

/// Takes a group, from a parenthesis to its own. Time and memory are linear in its tokens.
#[tactic(auto, unfolding(c_reading::specs::Tokens::group_at, c_reading::specs::Reading::and_then))]
pub fn group(cursor: &mut Cursor) -> Result<Group, ReadError>
    ensures { Takes cursor.old cursor.new result tokens.group_at }
{
    let first = open_paren(cursor)?;
    let mut brackets = Vec::new(cursor.alloc);
    brackets.push(Bracket::Paren)?;
    let mut opened = Opened {
        brackets,
        last: first,
    };
    insides(&mut opened, cursor)?;
    Ok(Group {
        first,
        last: opened.last,
    })
}

/// Takes an attribute, which must stand first.
#[tactic(auto, unfolding(c_reading::specs::Tokens::attr_at, c_reading::specs::Reading::and_then))]
pub fn attr(cursor: &mut Cursor) -> Result<Attr, ReadError>
    ensures { Takes cursor.old cursor.new result tokens.attr_at }
{
    let keyword = attribute_word(cursor)?;
    let group = group(cursor)?;
    Ok(Attr { keyword, group })
}

/// Takes `_Alignas` with its group, where it stands first.
#[tactic(auto, unfolding(c_reading::specs::Tokens::align_at, c_reading::specs::Reading::and_then))]
pub fn alignment(cursor: &mut Cursor) -> Result<Attr, ReadError>
    ensures { Takes cursor.old cursor.new result tokens.align_at }
{
    let keyword = take_one(cursor)?;
    let group = group(cursor)?;
    Ok(Attr { keyword, group })
}

/// Takes a static assertion, which must stand first.
#[tactic(auto, unfolding(c_reading::specs::Tokens::assert_at, c_reading::specs::Reading::and_then))]
pub fn static_assert(cursor: &mut Cursor) -> Result<Assert, ReadError>
    ensures { Takes cursor.old cursor.new result tokens.assert_at }
{
    let keyword = assert_word(cursor)?;
    let group = group(cursor)?;
    let semi = semicolon(cursor)?;
    Ok(Assert {
        keyword,
        group,
        semi,
    })
}

/// Takes the label of an object in assembler, where one stands first.
#[tactic(auto, unfolding(c_reading::specs::Stating::label_at, c_reading::specs::Reading::and_then))]
pub fn label(cursor: &mut Cursor) -> Result<Option<AsmLabel>, ReadError>
    ensures { Takes cursor.old cursor.new result label_at }
{
    if !is_asm(kind_at(cursor.rest)) {
        return Ok(None);
    }
    let keyword = take_one(cursor)?;
    let group = group(cursor)?;
    Ok(Some(AsmLabel { keyword, group }))
}

/// Each turn over attributes takes one.
fn attrs_step(room: u16)
    ensures { IsLoop (rows.attr_turn room) }
{}

/// One attribute more, where one stands.
#[tactic(auto, unfolding(c_reading::specs::Reading::and_then, c_reading::specs::Reading::fits))]
fn attr_turn(known: &mut Vec<Attr>, room: u16, cursor: &mut Cursor) -> Result<bool, ReadError>
    ensures { Turns known.old.items known.new.items cursor.old cursor.new result
        (rows.attr_turn room) }
{
    if !is_attribute(kind_at(cursor.rest)) {
        return Ok(false);
    }
    room_for(2, room, cursor)?;
    let attr = attr(cursor)?;
    known.push(attr)?;
    Ok(true)
}

/// Attributes, as many as stand.
#[tactic(auto, unfolding(c_reading::specs::Tokens::attrs_at, c_reading::specs::Reading::repeated))]
pub fn attrs(room: u16, cursor: &mut Cursor) -> Result<Vec<Attr>, ReadError>
    ensures { ReadsRow cursor.old cursor.new result (tokens.attrs_at room) }
{
    attrs_step(room);
    let mut known = Vec::new(cursor.alloc);
    while attr_turn(&mut known, room, cursor)? {}
    Ok(known)
}
