//! Readers of one token.

ghost use Rattle.std.specs.Prelude.{◌≡◌};
ghost use Rattle.c_reading.specs.Reading as reading;
ghost use Rattle.c_reading.specs.Reading.{token_at};
ghost use Rattle.c_reading.specs.Tokens as tokens;
ghost use Rattle.reader_base.specs.Gives.{Reads, Takes};

use crate::cursor::Cursor;
use crate::fault::{ReadError, refused};
use crate::kinds::{
    is_asm, is_attribute, is_close_brace, is_close_bracket, is_close_paren, is_colon, is_comma,
    is_end, is_equal, is_open_brace, is_open_bracket, is_open_paren, is_semicolon,
    is_static_assert, is_while,
};
use c_reading::FaultKind;
use c_syntax::Identifier;
use c_tree::Lexeme;
use c_words::TokenKind;
use qual_base::{NameId, TokenId};

/// The kind of the first token, the end where there is none.
pub fn kind_at(tokens: &[Lexeme]) -> TokenKind
    ensures { result ≡ reading.kind_at tokens.now }
{
    match tokens {
        [first, ..] => first.kind,
        [] => TokenKind::End,
    }
}

/// The tokens behind the first.
pub fn behind_first(tokens: &[Lexeme]) -> &[Lexeme]
    ensures { result.now ≡ reading.behind_first tokens.now }
{
    match tokens {
        [_, rest @ ..] => rest,
        [] => tokens,
    }
}

/// Takes the first token, whatever it is.
pub fn take_one(cursor: &mut Cursor) -> Result<TokenId, ReadError>
    ensures { Takes cursor.old cursor.new result reading.take_one }
{
    match cursor.rest {
        [first, rest @ ..] => {
            cursor.rest = rest;
            Ok(first.at)
        }
        [] => Err(refused(FaultKind::Unexpected, cursor.rest)),
    }
}

/// Takes `(`, which must stand first.
pub fn open_paren(cursor: &mut Cursor) -> Result<TokenId, ReadError>
    ensures { Takes cursor.old cursor.new result (token_at tokens.is_open_paren) }
{
    match cursor.rest {
        [first, rest @ ..] if is_open_paren(first.kind) => {
            cursor.rest = rest;
            Ok(first.at)
        }
        _ => Err(refused(FaultKind::Unexpected, cursor.rest)),
    }
}

/// Takes `)`, which must stand first.
pub fn close_paren(cursor: &mut Cursor) -> Result<TokenId, ReadError>
    ensures { Takes cursor.old cursor.new result (token_at tokens.is_close_paren) }
{
    match cursor.rest {
        [first, rest @ ..] if is_close_paren(first.kind) => {
            cursor.rest = rest;
            Ok(first.at)
        }
        _ => Err(refused(FaultKind::Unexpected, cursor.rest)),
    }
}

/// Takes `[`, which must stand first.
pub fn open_bracket(cursor: &mut Cursor) -> Result<TokenId, ReadError>
    ensures { Takes cursor.old cursor.new result (token_at tokens.is_open_bracket) }
{
    match cursor.rest {
        [first, rest @ ..] if is_open_bracket(first.kind) => {
            cursor.rest = rest;
            Ok(first.at)
        }
        _ => Err(refused(FaultKind::Unexpected, cursor.rest)),
    }
}

/// Takes `]`, which must stand first.
pub fn close_bracket(cursor: &mut Cursor) -> Result<TokenId, ReadError>
    ensures { Takes cursor.old cursor.new result (token_at tokens.is_close_bracket) }
{
    match cursor.rest {
        [first, rest @ ..] if is_close_bracket(first.kind) => {
            cursor.rest = rest;
            Ok(first.at)
        }
        _ => Err(refused(FaultKind::Unexpected, cursor.rest)),
    }
}

/// Takes `{`, which must stand first.
pub fn open_brace(cursor: &mut Cursor) -> Result<TokenId, ReadError>
    ensures { Takes cursor.old cursor.new result (token_at tokens.is_open_brace) }
{
    match cursor.rest {
        [first, rest @ ..] if is_open_brace(first.kind) => {
            cursor.rest = rest;
            Ok(first.at)
        }
        _ => Err(refused(FaultKind::Unexpected, cursor.rest)),
    }
}

/// Takes `}`, which must stand first.
pub fn close_brace(cursor: &mut Cursor) -> Result<TokenId, ReadError>
    ensures { Takes cursor.old cursor.new result (token_at tokens.is_close_brace) }
{
    match cursor.rest {
        [first, rest @ ..] if is_close_brace(first.kind) => {
            cursor.rest = rest;
            Ok(first.at)
        }
        _ => Err(refused(FaultKind::Unexpected, cursor.rest)),
    }
}

/// Takes `:`, which must stand first.
pub fn colon(cursor: &mut Cursor) -> Result<TokenId, ReadError>
    ensures { Takes cursor.old cursor.new result (token_at tokens.is_colon) }
{
    match cursor.rest {
        [first, rest @ ..] if is_colon(first.kind) => {
            cursor.rest = rest;
            Ok(first.at)
        }
        _ => Err(refused(FaultKind::Unexpected, cursor.rest)),
    }
}

/// Takes `,`, which must stand first.
pub fn comma(cursor: &mut Cursor) -> Result<TokenId, ReadError>
    ensures { Takes cursor.old cursor.new result (token_at tokens.is_comma) }
{
    match cursor.rest {
        [first, rest @ ..] if is_comma(first.kind) => {
            cursor.rest = rest;
            Ok(first.at)
        }
        _ => Err(refused(FaultKind::Unexpected, cursor.rest)),
    }
}

/// Takes `=`, which must stand first.
pub fn equal(cursor: &mut Cursor) -> Result<TokenId, ReadError>
    ensures { Takes cursor.old cursor.new result (token_at tokens.is_equal) }
{
    match cursor.rest {
        [first, rest @ ..] if is_equal(first.kind) => {
            cursor.rest = rest;
            Ok(first.at)
        }
        _ => Err(refused(FaultKind::Unexpected, cursor.rest)),
    }
}

/// Takes `;`, which must stand first.
pub fn semicolon(cursor: &mut Cursor) -> Result<TokenId, ReadError>
    ensures { Takes cursor.old cursor.new result (token_at tokens.is_semicolon) }
{
    match cursor.rest {
        [first, rest @ ..] if is_semicolon(first.kind) => {
            cursor.rest = rest;
            Ok(first.at)
        }
        _ => Err(refused(FaultKind::Unexpected, cursor.rest)),
    }
}

/// Takes the end of the unit, which must stand first.
pub fn end(cursor: &mut Cursor) -> Result<TokenId, ReadError>
    ensures { Takes cursor.old cursor.new result (token_at tokens.is_end) }
{
    match cursor.rest {
        [first, rest @ ..] if is_end(first.kind) => {
            cursor.rest = rest;
            Ok(first.at)
        }
        _ => Err(refused(FaultKind::Unexpected, cursor.rest)),
    }
}

/// Takes `__attribute__`, which must stand first.
pub fn attribute_word(cursor: &mut Cursor) -> Result<TokenId, ReadError>
    ensures { Takes cursor.old cursor.new result (token_at tokens.is_attribute) }
{
    match cursor.rest {
        [first, rest @ ..] if is_attribute(first.kind) => {
            cursor.rest = rest;
            Ok(first.at)
        }
        _ => Err(refused(FaultKind::Unexpected, cursor.rest)),
    }
}

/// Takes `asm`, which must stand first.
pub fn asm_word(cursor: &mut Cursor) -> Result<TokenId, ReadError>
    ensures { Takes cursor.old cursor.new result (token_at tokens.is_asm) }
{
    match cursor.rest {
        [first, rest @ ..] if is_asm(first.kind) => {
            cursor.rest = rest;
            Ok(first.at)
        }
        _ => Err(refused(FaultKind::Unexpected, cursor.rest)),
    }
}

/// Takes `_Static_assert`, which must stand first.
pub fn assert_word(cursor: &mut Cursor) -> Result<TokenId, ReadError>
    ensures { Takes cursor.old cursor.new result (token_at tokens.is_static_assert) }
{
    match cursor.rest {
        [first, rest @ ..] if is_static_assert(first.kind) => {
            cursor.rest = rest;
            Ok(first.at)
        }
        _ => Err(refused(FaultKind::Unexpected, cursor.rest)),
    }
}

/// Takes `while`, which must stand first.
pub fn while_word(cursor: &mut Cursor) -> Result<TokenId, ReadError>
    ensures { Takes cursor.old cursor.new result (token_at tokens.is_while) }
{
    match cursor.rest {
        [first, rest @ ..] if is_while(first.kind) => {
            cursor.rest = rest;
            Ok(first.at)
        }
        _ => Err(refused(FaultKind::Unexpected, cursor.rest)),
    }
}

/// The name that a token of a kind is.
pub fn spelled_name(kind: TokenKind) -> Option<NameId>
    ensures { result ≡ tokens.spelled_name kind }
{
    match kind {
        TokenKind::Name(name) => Some(name),
        _ => None,
    }
}

/// Takes a name, which must stand first.
pub fn name(cursor: &mut Cursor) -> Result<Identifier, ReadError>
    ensures { Takes cursor.old cursor.new result tokens.name_at }
{
    let [first, rest @ ..] = cursor.rest else {
        return Err(refused(FaultKind::Unexpected, cursor.rest));
    };
    let Some(name) = spelled_name(first.kind) else {
        return Err(refused(FaultKind::Unexpected, cursor.rest));
    };
    cursor.rest = rest;
    Ok(Identifier {
        token: first.at,
        name,
    })
}

/// Takes a tag, where a name stands first.
pub fn tag(cursor: &mut Cursor) -> Result<Option<Identifier>, ReadError>
    ensures { Takes cursor.old cursor.new result tokens.tag_at }
{
    let [first, rest @ ..] = cursor.rest else {
        return Ok(None);
    };
    let Some(name) = spelled_name(first.kind) else {
        return Ok(None);
    };
    cursor.rest = rest;
    Ok(Some(Identifier {
        token: first.at,
        name,
    }))
}
