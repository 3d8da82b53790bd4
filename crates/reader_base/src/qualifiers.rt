//! Qualifiers, the words behind a star and those in the brackets of an array (C99, 6.7.3 and 6.7.5).

ghost use Rattle.std.specs.Prelude.{◌≡◌};
ghost use Rattle.c_reading.specs.Tokens as tokens;
ghost use Rattle.reader_base.specs.Gives.{ReadsRow, Takes};
ghost use Rattle.reader_base.specs.Looping.{IsLoop, Turns};
ghost use Rattle.reader_base.specs.Rows as rows;

use crate::cursor::{Cursor, room_for};
use crate::fault::{ReadError, refused};
use crate::groups::attr;
use crate::kinds::{is_attribute, is_static};
use crate::tokens::kind_at;
use c_reading::FaultKind;
use c_syntax::{ArrayWord, PointerWord, Qual, Word};
use c_tree::Lexeme;
use c_words::{Keyword, TokenKind};
use qual_base::TokenId;

/// The qualifier that a token of a kind is.
fn qual_of(kind: TokenKind, token: TokenId) -> Option<Qual>
    ensures { result ≡ rows.made_of (tokens.qual_of kind) token }
{
    match kind {
        TokenKind::Keyword(Keyword::Const) => Some(Qual::Word(Word {
            token,
            keyword: Keyword::Const,
        })),
        TokenKind::Keyword(Keyword::Volatile) => Some(Qual::Word(Word {
            token,
            keyword: Keyword::Volatile,
        })),
        TokenKind::Keyword(Keyword::Restrict) => Some(Qual::Word(Word {
            token,
            keyword: Keyword::Restrict,
        })),
        TokenKind::Keyword(Keyword::Atomic) => Some(Qual::Word(Word {
            token,
            keyword: Keyword::Atomic,
        })),
        TokenKind::Keyword(Keyword::AtomicType) => Some(Qual::Word(Word {
            token,
            keyword: Keyword::AtomicType,
        })),
        TokenKind::Keyword(Keyword::Seg) => Some(Qual::Word(Word {
            token,
            keyword: Keyword::Seg,
        })),
        TokenKind::Qual(_, _) => Some(Qual::Element { token }),
        TokenKind::Index => Some(Qual::Index { token }),
        _ => None,
    }
}

/// Whether a token of a kind is a qualifier.
fn is_qual(kind: TokenKind) -> bool
    ensures { result ≡ tokens.is_made (tokens.qual_of kind) }
{
    match kind {
        TokenKind::Keyword(Keyword::Const | Keyword::Volatile | Keyword::Restrict) => true,
        TokenKind::Keyword(Keyword::Atomic | Keyword::AtomicType | Keyword::Seg) => true,
        TokenKind::Qual(_, _) | TokenKind::Index => true,
        _ => false,
    }
}

/// Whether a token of a kind is `_Atomic` before a parenthesis.
fn is_atomic_type(kind: TokenKind) -> bool
    ensures { result ≡ rows.is_atomic_type kind }
{
    match kind {
        TokenKind::Keyword(Keyword::AtomicType) => true,
        _ => false,
    }
}

/// The qualifier among specifiers that a token is: `_Atomic` before a parenthesis begins a type there.
#[tactic(auto, using(crate::proofs::WordQuals::word_qual_is))]
fn word_qual_of(token: &Lexeme) -> Option<Qual>
    ensures { result ≡ rows.made_of (tokens.word_qual_of token.now.kind) token.now.at }
{
    if is_atomic_type(token.kind) {
        None
    } else {
        qual_of(token.kind, token.at)
    }
}

/// Each turn over qualifiers takes one.
fn quals_step()
    ensures { IsLoop rows.qual_turn }
{}

/// One qualifier more, where one stands.
#[tactic(auto, unfolding(c_reading::specs::Reading::and_then))]
fn qual_turn(known: &mut Vec<Qual>, cursor: &mut Cursor) -> Result<bool, ReadError>
    ensures { Turns known.old.items known.new.items cursor.old cursor.new result rows.qual_turn }
{
    let [first, rest @ ..] = cursor.rest else {
        return Ok(false);
    };
    let Some(qual) = word_qual_of(first) else {
        return Ok(false);
    };
    known.push(qual)?;
    cursor.rest = rest;
    Ok(true)
}

/// Qualifiers, as many as stand.
#[tactic(auto, unfolding(c_reading::specs::Tokens::quals_at, c_reading::specs::Reading::repeated))]
pub fn quals(cursor: &mut Cursor) -> Result<Vec<Qual>, ReadError>
    ensures { ReadsRow cursor.old cursor.new result tokens.quals_at }
{
    quals_step();
    let mut known = Vec::new(cursor.alloc);
    while qual_turn(&mut known, cursor)? {}
    Ok(known)
}

/// Each turn over the words in the brackets of an array takes one.
fn array_words_step()
    ensures { IsLoop rows.array_word_turn }
{}

/// One word more in the brackets of an array, where one stands.
#[tactic(auto, unfolding(c_reading::specs::Reading::and_then))]
fn array_word_turn(known: &mut Vec<ArrayWord>, cursor: &mut Cursor) -> Result<bool, ReadError>
    ensures { Turns known.old.items known.new.items cursor.old cursor.new result
        rows.array_word_turn }
{
    let [first, rest @ ..] = cursor.rest else {
        return Ok(false);
    };
    if let Some(qual) = qual_of(first.kind, first.at) {
        known.push(ArrayWord::Qual(qual))?;
    } else if is_static(first.kind) {
        known.push(ArrayWord::Static { token: first.at })?;
    } else {
        return Ok(false);
    }
    cursor.rest = rest;
    Ok(true)
}

/// The words in the brackets of an array, as many as stand.
#[tactic(auto, unfolding(c_reading::specs::Tokens::array_words_at, c_reading::specs::Reading::repeated))]
pub fn array_words(cursor: &mut Cursor) -> Result<Vec<ArrayWord>, ReadError>
    ensures { ReadsRow cursor.old cursor.new result tokens.array_words_at }
{
    array_words_step();
    let mut known = Vec::new(cursor.alloc);
    while array_word_turn(&mut known, cursor)? {}
    Ok(known)
}

/// Takes a qualifier, which must stand first.
fn qual(cursor: &mut Cursor) -> Result<Qual, ReadError>
    ensures { Takes cursor.old cursor.new result (tokens.made_at tokens.qual_of) }
{
    let [first, rest @ ..] = cursor.rest else {
        return Err(refused(FaultKind::Unexpected, cursor.rest));
    };
    let Some(qual) = qual_of(first.kind, first.at) else {
        return Err(refused(FaultKind::Unexpected, cursor.rest));
    };
    cursor.rest = rest;
    Ok(qual)
}

/// Each turn over the words behind a star takes one.
fn pointer_words_step(room: u16)
    ensures { IsLoop (rows.pointer_word_turn room) }
{}

/// One word more behind a star, where one stands.
#[tactic(auto, unfolding(c_reading::specs::Tokens::pointer_word_at, c_reading::specs::Reading::and_then, c_reading::specs::Reading::fits))]
fn pointer_word_turn(
    known: &mut Vec<PointerWord>,
    room: u16,
    cursor: &mut Cursor,
) -> Result<bool, ReadError>
    ensures { Turns known.old.items known.new.items cursor.old cursor.new result
        (rows.pointer_word_turn room) }
{
    if is_attribute(kind_at(cursor.rest)) {
        room_for(2, room, cursor)?;
        let attr = attr(cursor)?;
        known.push(PointerWord::Attr(attr))?;
        return Ok(true);
    }
    if is_qual(kind_at(cursor.rest)) {
        let qual = qual(cursor)?;
        known.push(PointerWord::Qual(qual))?;
        return Ok(true);
    }
    Ok(false)
}

/// The words behind a star, as many as stand.
#[tactic(auto, unfolding(c_reading::specs::Tokens::pointer_words_at, c_reading::specs::Reading::repeated))]
pub fn pointer_words(room: u16, cursor: &mut Cursor) -> Result<Vec<PointerWord>, ReadError>
    ensures { ReadsRow cursor.old cursor.new result (tokens.pointer_words_at room) }
{
    pointer_words_step(room);
    let mut known = Vec::new(cursor.alloc);
    while pointer_word_turn(&mut known, room, cursor)? {}
    Ok(known)
}
