//! The spelling of a unit from its tokens.

ghost use Rattle.std.specs.Prelude.{◌≡◌, ◌<◌, List, length, map, slice_get, IfOk};
ghost use Rattle.c_lexer.specs.Tokens.{Lexed};
ghost use Rattle.name_tables.specs.UnitSpelling.Spelled.{spelling_of};
ghost use Rattle.c_types.specs.SourceSpelling.Tokens.{is_annotation, is_index, is_zero, is_zero_text, holds_at, spelling_behind};
ghost use Rattle.c_types.specs.SourceSpelling.Keys.{AreNamesOf};

use crate::source_spelling::earlier::EarlierNames;
use c_lexer::Tokens;
use c_words::TokenKind;
use name_tables::unit_spelling::Spelling;
use qual_base::{NoMemory, Numbered, TokenId};
use std::alloc::Global;

/// Whether a token is an index word.
fn is_index(kind: TokenKind) -> bool
    ensures { result ≡ is_index kind }
{
    match kind {
        TokenKind::Index => true,
        TokenKind::Name(_)
        | TokenKind::Keyword(_)
        | TokenKind::Number
        | TokenKind::Char
        | TokenKind::Text
        | TokenKind::Punct(_)
        | TokenKind::Qual(_, _)
        | TokenKind::End => false,
    }
}

/// Whether a token is an annotation: a `$` word, an index word, or a keyword that a lattice names.
/// Constant time.
#[tactic(auto, using(crate::proofs::SourceSpelling::Reading::annotation_is))]
fn annotates(tokens: &Tokens, at: TokenId) -> bool
    requires { at < length tokens.now.tokens }
    ensures { result ≡ holds_at (is_annotation tokens.now) tokens.now.tokens at }
{
    let is_index = is_index(tokens.kind(at));
    let has_meaning = tokens.mark_of(at).is_some();
    is_index || has_meaning
}

/// Whether a token is spelled `0`.
fn is_zero_text(bytes: &[u8]) -> bool
    ensures { result ≡ is_zero_text bytes.now }
{
    match bytes {
        [] => false,
        [digit] => *digit == b'0',
        [_, _, ..] => false,
    }
}

/// Whether a token is spelled `0`. Constant time.
#[tactic(auto, using(crate::proofs::SourceSpelling::Reading::zero_is))]
fn is_zero(tokens: &Tokens, at: TokenId) -> bool
    requires { at < length tokens.now.tokens }
    ensures { result ≡ holds_at (is_zero tokens.now) tokens.now.tokens at }
{
    is_zero_text(tokens.bytes(at))
}

/// Which tokens are annotations. Linear in the tokens.
#[tactic(auto, using(crate::proofs::SourceSpelling::Reading::mapped_on))]
fn annotations(alloc: Global, tokens: &Tokens) -> Result<Vec<bool>, NoMemory>
    ensures { IfOk result
        (λ all. all.items ≡ map (is_annotation tokens.now) tokens.now.tokens) }
{
    let mut all = Vec::new(alloc);
    for number in 0..tokens.len() {
        let is = annotates(tokens, TokenId::new(number));
        all.push(is)?;
    }
    Ok(all)
}

/// Which tokens are spelled `0`. Linear in the tokens.
#[tactic(auto, using(crate::proofs::SourceSpelling::Reading::mapped_on))]
fn zeros(alloc: Global, tokens: &Tokens) -> Result<Vec<bool>, NoMemory>
    ensures { IfOk result (λ all. all.items ≡ map (is_zero tokens.now) tokens.now.tokens) }
{
    let mut all = Vec::new(alloc);
    for number in 0..tokens.len() {
        let is = is_zero(tokens, TokenId::new(number));
        all.push(is)?;
    }
    Ok(all)
}

/// What the tokens of a unit say that its tape does not, where these are the names of the units before it: names that are spelled
/// alike have one key in all of them. Linear in the tokens and their bytes.
pub fn spelling_behind(
    alloc: Global,
    earlier: &EarlierNames,
    tokens: &Tokens,
) -> Result<Spelling, NoMemory>
    ensures { IfOk result (λ it. (units : List Lexed) → AreNamesOf units earlier.now
        → spelling_of it ≡ spelling_behind units tokens.now) }
{
    let annotates = annotations(alloc, tokens)?;
    let is_naught = zeros(alloc, tokens)?;
    let keys = earlier.keys(alloc, tokens)?;
    Ok(Spelling {
        unit: tokens.unit(),
        wide: tokens.is_wide(),
        annotates,
        is_naught,
        keys,
    })
}
