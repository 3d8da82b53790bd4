//! Tests of the kind of a token.

ghost use Rattle.std.specs.Prelude.{◌≡◌};
ghost use Rattle.c_reading.specs.Tokens as tokens;

use c_words::{Keyword, Punct, TokenKind};

/// Whether a token of a kind is `(`.
pub fn is_open_paren(kind: TokenKind) -> bool
    ensures { result ≡ tokens.is_open_paren kind }
{
    match kind {
        TokenKind::Punct(Punct::OpenParen) => true,
        _ => false,
    }
}

/// Whether a token of a kind is `)`.
pub fn is_close_paren(kind: TokenKind) -> bool
    ensures { result ≡ tokens.is_close_paren kind }
{
    match kind {
        TokenKind::Punct(Punct::CloseParen) => true,
        _ => false,
    }
}

/// Whether a token of a kind is `[`.
pub fn is_open_bracket(kind: TokenKind) -> bool
    ensures { result ≡ tokens.is_open_bracket kind }
{
    match kind {
        TokenKind::Punct(Punct::OpenBracket) => true,
        _ => false,
    }
}

/// Whether a token of a kind is `]`.
pub fn is_close_bracket(kind: TokenKind) -> bool
    ensures { result ≡ tokens.is_close_bracket kind }
{
    match kind {
        TokenKind::Punct(Punct::CloseBracket) => true,
        _ => false,
    }
}

/// Whether a token of a kind is `{`.
pub fn is_open_brace(kind: TokenKind) -> bool
    ensures { result ≡ tokens.is_open_brace kind }
{
    match kind {
        TokenKind::Punct(Punct::OpenBrace) => true,
        _ => false,
    }
}

/// Whether a token of a kind is `}`.
pub fn is_close_brace(kind: TokenKind) -> bool
    ensures { result ≡ tokens.is_close_brace kind }
{
    match kind {
        TokenKind::Punct(Punct::CloseBrace) => true,
        _ => false,
    }
}

/// Whether a token of a kind is `:`.
pub fn is_colon(kind: TokenKind) -> bool
    ensures { result ≡ tokens.is_colon kind }
{
    match kind {
        TokenKind::Punct(Punct::Colon) => true,
        _ => false,
    }
}

/// Whether a token of a kind is `,`.
pub fn is_comma(kind: TokenKind) -> bool
    ensures { result ≡ tokens.is_comma kind }
{
    match kind {
        TokenKind::Punct(Punct::Comma) => true,
        _ => false,
    }
}

/// Whether a token of a kind is `...`.
pub fn is_dots(kind: TokenKind) -> bool
    ensures { result ≡ tokens.is_dots kind }
{
    match kind {
        TokenKind::Punct(Punct::Ellipsis) => true,
        _ => false,
    }
}

/// Whether a token of a kind is `=`.
pub fn is_equal(kind: TokenKind) -> bool
    ensures { result ≡ tokens.is_equal kind }
{
    match kind {
        TokenKind::Punct(Punct::Equal) => true,
        _ => false,
    }
}

/// Whether a token of a kind is `;`.
pub fn is_semicolon(kind: TokenKind) -> bool
    ensures { result ≡ tokens.is_semicolon kind }
{
    match kind {
        TokenKind::Punct(Punct::Semicolon) => true,
        _ => false,
    }
}

/// Whether a token of a kind is `*`.
pub fn is_star(kind: TokenKind) -> bool
    ensures { result ≡ tokens.is_star kind }
{
    match kind {
        TokenKind::Punct(Punct::Star) => true,
        _ => false,
    }
}

/// Whether a token of a kind is the end of the unit.
pub fn is_end(kind: TokenKind) -> bool
    ensures { result ≡ tokens.is_end kind }
{
    match kind {
        TokenKind::End => true,
        _ => false,
    }
}

/// Whether a token of a kind is a string.
pub fn is_text(kind: TokenKind) -> bool
    ensures { result ≡ tokens.is_text kind }
{
    match kind {
        TokenKind::Text => true,
        _ => false,
    }
}

/// Whether a token of a kind is `__extension__`.
pub fn is_extension(kind: TokenKind) -> bool
    ensures { result ≡ tokens.is_extension kind }
{
    match kind {
        TokenKind::Keyword(Keyword::Extension) => true,
        _ => false,
    }
}

/// Whether a token of a kind is `__attribute__`.
pub fn is_attribute(kind: TokenKind) -> bool
    ensures { result ≡ tokens.is_attribute kind }
{
    match kind {
        TokenKind::Keyword(Keyword::Attribute) => true,
        _ => false,
    }
}

/// Whether a token of a kind is `asm`.
pub fn is_asm(kind: TokenKind) -> bool
    ensures { result ≡ tokens.is_asm kind }
{
    match kind {
        TokenKind::Keyword(Keyword::Asm) => true,
        _ => false,
    }
}

/// Whether a token of a kind is `_Static_assert`.
pub fn is_static_assert(kind: TokenKind) -> bool
    ensures { result ≡ tokens.is_static_assert kind }
{
    match kind {
        TokenKind::Keyword(Keyword::StaticAssert) => true,
        _ => false,
    }
}

/// Whether a token of a kind is `while`.
pub fn is_while(kind: TokenKind) -> bool
    ensures { result ≡ tokens.is_while kind }
{
    match kind {
        TokenKind::Keyword(Keyword::While) => true,
        _ => false,
    }
}

/// Whether a token of a kind is `else`.
pub fn is_else(kind: TokenKind) -> bool
    ensures { result ≡ tokens.is_else kind }
{
    match kind {
        TokenKind::Keyword(Keyword::Else) => true,
        _ => false,
    }
}

/// Whether a token of a kind is `static`.
pub fn is_static(kind: TokenKind) -> bool
    ensures { result ≡ tokens.is_static kind }
{
    match kind {
        TokenKind::Keyword(Keyword::Static) => true,
        _ => false,
    }
}

/// Whether a token of a kind is `__label__`.
pub fn is_label_word(kind: TokenKind) -> bool
    ensures { result ≡ tokens.is_label_word kind }
{
    match kind {
        TokenKind::Keyword(Keyword::LabelWord) => true,
        _ => false,
    }
}

/// Whether a token of a kind is `default`.
pub fn is_default(kind: TokenKind) -> bool
    ensures { result ≡ tokens.is_default kind }
{
    match kind {
        TokenKind::Keyword(Keyword::Default) => true,
        _ => false,
    }
}

/// Whether a token of a kind is a type word that stands alone, as `_Float64`.
pub fn is_base_word(kind: TokenKind) -> bool
    ensures { result ≡ tokens.is_base_word kind }
{
    match kind {
        TokenKind::Keyword(Keyword::BaseWord) => true,
        _ => false,
    }
}
