//! The parser's answer for a source, as a text.

use crate::shown_statements::unit_text;
use c_lexer::{Tokens, lex};
use c_parser::{FaultKind, ReadError, parse};
use c_syntax::Unit;
use qual_base::{Elem, LatticeNo, NoMemory, Numbered, QualWords, TokenId, UnitNo};
use std::alloc::Global;

/// The most bytes of a source.
pub(crate) const MOST: usize = 1_048_576;

/// What rows are.
#[derive(Clone, Copy, PartialEq, Eq)]
pub(crate) enum Kind {
    Faults,
    Trees,
    Prelude,
    Wide,
    Mixes,
    Typed,
    Preludes,
    WidePreludes,
}

/// `$tainted`, an element.
pub(crate) fn dollar_words(alloc: Global) -> Result<QualWords, NoMemory> {
    let mut words = QualWords::new(alloc);
    words.push(b"$tainted", LatticeNo::new(0), Elem::new(1))?;
    Ok(words)
}

/// The tokens of a source of a unit; nothing where it has none.
pub(crate) fn tokens_of<'a>(
    alloc: Global,
    unit: u32,
    is_wide: bool,
    source: &'a [u8],
) -> Result<Option<Tokens<'a>>, NoMemory> {
    if source.len() > MOST {
        return Ok(None);
    }
    let words = dollar_words(alloc)?;
    Ok(lex(alloc, UnitNo::new(unit), is_wide, source, &words).ok())
}

/// The place of a token, and a code.
fn placed(alloc: Global, tokens: &Tokens, token: TokenId, code: &str) -> Result<String, NoMemory> {
    if token.number() >= tokens.len() {
        return Ok(String::from_str(alloc, code)?);
    }
    let spot = tokens.place_of(token);
    Ok(format!(in alloc; "{}:{} {}", spot.line, spot.column, code)?)
}

/// The code of a rule that is broken.
fn code_of(rule: FaultKind) -> &'static str {
    match rule {
        FaultKind::Unexpected => "S1",
        FaultKind::TooDeep => "S2",
        FaultKind::Redeclared => "N1",
        FaultKind::BadMix => "C1",
        FaultKind::BadTarget => "O1",
    }
}

/// A fault as the rows have it, as `1:20 S1`.
fn fault_text(alloc: Global, tokens: &Tokens, fault: ReadError) -> Result<String, NoMemory> {
    match fault {
        ReadError::Fault(rule, token) => placed(alloc, tokens, token, code_of(rule)),
        ReadError::NoMemory => Err(NoMemory),
    }
}

/// A well-formed unit: its tree, if trees are asked for.
fn found_text(alloc: Global, kind: Kind, tokens: &Tokens, unit: &Unit) -> Result<String, NoMemory> {
    if kind == Kind::Faults {
        Ok(String::from_str(alloc, "a unit")?)
    } else {
        unit_text(alloc, tokens, unit)
    }
}

/// What the parser answers for a source.
pub(crate) fn answer(alloc: Global, kind: Kind, source: &[u8]) -> Result<String, NoMemory> {
    let unit = if kind == Kind::Prelude { 0 } else { 1 };
    let Some(tokens) = tokens_of(alloc, unit, kind == Kind::Wide, source)? else {
        return Ok(String::from_str(alloc, "no tokens")?);
    };
    match parse(alloc, &tokens) {
        Ok(found) => found_text(alloc, kind, &tokens, &found),
        Err(fault) => fault_text(alloc, &tokens, fault),
    }
}
