//! Rows of like tokens.

ghost use Rattle.std.specs.Prelude.{◌≡◌};
ghost use Rattle.c_reading.specs.Tokens as tokens;
ghost use Rattle.reader_base.specs.Gives.{ReadsRow};
ghost use Rattle.reader_base.specs.Looping.{IsLoop, Turns};
ghost use Rattle.reader_base.specs.Rows as rows;

use crate::cursor::{Cursor, room_for};
use crate::fault::ReadError;
use crate::kinds::{is_extension, is_text};
use crate::tokens::{kind_at, take_one};
use c_syntax::Word;
use c_words::{Keyword, TokenKind};
use qual_base::TokenId;

/// Each turn over `__extension__` takes one.
fn extensions_step(room: u16)
    ensures { IsLoop (rows.extension_turn room) }
{}

/// `__extension__` once more, where it stands.
#[tactic(auto, unfolding(c_reading::specs::Reading::and_then, c_reading::specs::Reading::fits))]
fn extension_turn(
    known: &mut Vec<TokenId>,
    room: u16,
    cursor: &mut Cursor,
) -> Result<bool, ReadError>
    ensures { Turns known.old.items known.new.items cursor.old cursor.new result
        (rows.extension_turn room) }
{
    if !is_extension(kind_at(cursor.rest)) {
        return Ok(false);
    }
    room_for(2, room, cursor)?;
    let token = take_one(cursor)?;
    known.push(token)?;
    Ok(true)
}

/// `__extension__`, as often as it stands.
#[tactic(auto, unfolding(c_reading::specs::Tokens::extensions_at, c_reading::specs::Reading::repeated))]
pub fn extensions(room: u16, cursor: &mut Cursor) -> Result<Vec<TokenId>, ReadError>
    ensures { ReadsRow cursor.old cursor.new result (tokens.extensions_at room) }
{
    extensions_step(room);
    let mut known = Vec::new(cursor.alloc);
    while extension_turn(&mut known, room, cursor)? {}
    Ok(known)
}

/// Each turn over strings takes one.
fn texts_step()
    ensures { IsLoop rows.text_turn }
{}

/// One string more, where one stands.
#[tactic(auto, unfolding(c_reading::specs::Reading::and_then))]
fn text_turn(known: &mut Vec<TokenId>, cursor: &mut Cursor) -> Result<bool, ReadError>
    ensures { Turns known.old.items known.new.items cursor.old cursor.new result rows.text_turn }
{
    if !is_text(kind_at(cursor.rest)) {
        return Ok(false);
    }
    let token = take_one(cursor)?;
    known.push(token)?;
    Ok(true)
}

/// Strings, as many as stand.
#[tactic(auto, unfolding(c_reading::specs::Tokens::texts_at, c_reading::specs::Reading::repeated))]
pub fn texts(cursor: &mut Cursor) -> Result<Vec<TokenId>, ReadError>
    ensures { ReadsRow cursor.old cursor.new result tokens.texts_at }
{
    texts_step();
    let mut known = Vec::new(cursor.alloc);
    while text_turn(&mut known, cursor)? {}
    Ok(known)
}

/// The word of a statement in assembler that a token of a kind is.
fn asm_word_of(kind: TokenKind, token: TokenId) -> Option<Word>
    ensures { result ≡ rows.made_of (tokens.asm_word_of kind) token }
{
    match kind {
        TokenKind::Keyword(Keyword::Volatile) => Some(Word {
            token,
            keyword: Keyword::Volatile,
        }),
        TokenKind::Keyword(Keyword::Goto) => Some(Word {
            token,
            keyword: Keyword::Goto,
        }),
        TokenKind::Keyword(Keyword::Inline) => Some(Word {
            token,
            keyword: Keyword::Inline,
        }),
        _ => None,
    }
}

/// Each turn over the words of a statement in assembler takes one.
fn asm_words_step()
    ensures { IsLoop rows.asm_word_turn }
{}

/// One word more of a statement in assembler, where one stands.
#[tactic(auto, unfolding(c_reading::specs::Reading::and_then))]
fn asm_word_turn(known: &mut Vec<Word>, cursor: &mut Cursor) -> Result<bool, ReadError>
    ensures { Turns known.old.items known.new.items cursor.old cursor.new result
        rows.asm_word_turn }
{
    let [first, rest @ ..] = cursor.rest else {
        return Ok(false);
    };
    let Some(word) = asm_word_of(first.kind, first.at) else {
        return Ok(false);
    };
    known.push(word)?;
    cursor.rest = rest;
    Ok(true)
}

/// The words of a statement in assembler, as many as stand.
#[tactic(auto, unfolding(c_reading::specs::Tokens::asm_words_at, c_reading::specs::Reading::repeated))]
pub fn asm_words(cursor: &mut Cursor) -> Result<Vec<Word>, ReadError>
    ensures { ReadsRow cursor.old cursor.new result tokens.asm_words_at }
{
    asm_words_step();
    let mut known = Vec::new(cursor.alloc);
    while asm_word_turn(&mut known, cursor)? {}
    Ok(known)
}
