//! The tokens that the bytes of a unit spell.

ghost use Rattle.std.specs.Prelude.{ℕ, ◌≡◌, ◌+◌, ◌-◌, ◌<◌, ◌^◌, length, IfOk, IfErr, MatchResult};
ghost use Rattle.c_lexer.specs.Reading.{Reaches, Spells, StopsBehind};
ghost use Rattle.c_lexer.specs.Tokens.{IsSpelled, NamesKeywords};
ghost use Rattle.c_lexer.specs.Refusals.{IsOnly, IsRefusal};

use crate::front::{Front, Stop, push_token, read_all};
use crate::text::Text;
use crate::tokens::{KeywordMarks, Tokens};
use c_words::TokenKind;
use qual_base::{QualWords, Spot, UnitNo};
use std::alloc::Global;

/// Why a unit has no tokens.
#[derive(Clone, Copy, PartialEq, Eq, Debug)]
pub enum LexFault {
    /// No gap and no token begins at the place.
    BadByte(Spot),
    /// A string, a character constant or a comment begins at the place and does not end.
    Unended(Spot),
    /// The `$` word at the place is in no lattice.
    UnknownQualifier(Spot),
    NoMemory,
}

/// The fault for which reading stopped.
fn fault_of(text: &Text, front: &Front, stop: Stop) -> LexFault
    requires small { length text.now.1 < 2 ^ 32 - 1 }
    requires stops { (wide : _) × (words : _) × StopsBehind text.now.0 wide words text.now.1 front.now stop }
    ensures { (wide : _) (words : _) → StopsBehind text.now.0 wide words text.now.1 front.now stop →
        IsRefusal text.now.0 wide words text.now.1 result }
{
    match stop {
        Stop::BadByte => LexFault::BadByte(front.spot_in(text)),
        Stop::Unended => LexFault::Unended(front.spot_in(text)),
        Stop::UnknownQualifier => LexFault::UnknownQualifier(front.spot_in(text)),
        Stop::NoMemory => LexFault::NoMemory,
    }
}

/// The tokens of a unit that was read to its end.
fn finish<'a>(
    text: Text<'a>,
    wide: bool,
    front: Front,
    words: &QualWords,
) -> Result<Tokens<'a>, LexFault>
    requires small { length text.1 < 2 ^ 32 - 1 }
    requires whole { front.at ≡ length text.1 }
    requires reached { Reaches text.0 wide words.now text.1 front }
    ensures unit { IfOk result (λ tokens. tokens.unit ≡ text.entry.0) }
    ensures wide { IfOk result (λ tokens. tokens.wide ≡ wide) }
    ensures bytes { IfOk result (λ tokens. tokens.bytes ≡ text.entry.1) }
    ensures spelled { IfOk result (λ tokens. IsSpelled words.now tokens) }
    ensures keywords { IfOk result (λ tokens. NamesKeywords words.now tokens) }
    ensures memory { IfErr result (λ e. e ≡ LexFault.NoMemory) }
{
    let end = text.bytes().len() as u32;
    let (mut tokens, marks) = front.into_parts();
    let Ok(()) = push_token(&mut tokens, TokenKind::End, end, end) else {
        return Err(LexFault::NoMemory);
    };
    let keywords = KeywordMarks {
        constant: words.find(b"const"),
        volatile: words.find(b"volatile"),
        restrict: words.find(b"restrict"),
    };
    Ok(Tokens::new(text, wide, tokens, marks, keywords))
}

/// The tokens that the bytes of a unit spell, which is read as wider C or not.
///
/// It takes time linear in the bytes, beside look-ups of names, each linear in the name, and copies no bytes but those of
/// names. The fault is at the first place where the bytes stop to spell tokens.
pub fn lex<'a>(
    alloc: Global,
    unit: UnitNo,
    wide: bool,
    bytes: &'a [u8],
    words: &QualWords,
) -> Result<Tokens<'a>, LexFault>
    requires { length bytes.now < 2 ^ 32 - 1 }
    ensures unit { IfOk result (λ tokens. tokens.unit ≡ unit) }
    ensures wide { IfOk result (λ tokens. tokens.wide ≡ wide) }
    ensures bytes { IfOk result (λ tokens. tokens.bytes ≡ bytes.now) }
    ensures spelled { IfOk result (λ tokens. IsSpelled words.now tokens) }
    ensures keywords { IfOk result (λ tokens. NamesKeywords words.now tokens) }
    ensures refused { IfErr result (λ fault. IsRefusal unit wide words.now bytes.now fault) }
    ensures only { (tokens : _) (names : _) (marks : _) →
        Spells unit wide words.now bytes.now tokens names marks → IsOnly tokens marks result }
{
    let Ok(text) = Text::new(alloc, unit, bytes) else {
        return Err(LexFault::NoMemory);
    };
    let mut front = Front::new(alloc);
    match read_all(&mut front, unit, wide, words, bytes) {
        Ok(()) => finish(text, wide, front, words),
        Err(stop) => Err(fault_of(&text, &front, stop)),
    }
}
