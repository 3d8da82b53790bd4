//! The answers for files that are no well-formed unit.

ghost use Rattle.std.specs.Prelude.{◌≡◌, ◌≢◌, IfOk};
ghost use Rattle.reader_base.specs.declared.fault.ReadError.TheVariants as Stops;
ghost use Rattle.cqual_tool.specs.declared.status.Status.TheVariants as Statuses;
ghost use Rattle.cqual_tool.specs.Statuses.{Says};
ghost use Rattle.cqual_tool.specs.Syntax.{syntax_code, syntax_line, token_line};

use crate::answer::{Answer, malformed, placed};
use annotate::put_spot;
use c_lexer::Tokens;
use c_parser::{FaultKind, ReadError};
use qual_base::{NoMemory, Numbered, TokenId};
use std::alloc::Global;

/// The answer for a token that is refused; for the whole file where there is no such token.
pub(crate) fn token_refused(
    alloc: Global,
    file: &str,
    tokens: &Tokens,
    token: TokenId,
    code: &[u8],
) -> Result<Answer, NoMemory>
    ensures { IfOk result
        (Says Statuses.Malformed (token_line file.now tokens.now token code.now)) }
{
    if token.number() >= tokens.len() {
        return Ok(malformed(alloc, file, code)?);
    }
    let mut place = Vec::new(alloc);
    let spot = tokens.place_of(token);
    put_spot(&mut place, file, tokens.unit_bytes(), &spot)?;
    Ok(placed(alloc, &place, code)?)
}

/// The code of a rule of the grammar.
pub fn code_of(rule: FaultKind) -> &'static [u8]
    ensures { result.now ≡ syntax_code rule }
{
    match rule {
        FaultKind::Unexpected => b"S1",
        FaultKind::TooDeep => b"S2",
        FaultKind::Redeclared => b"N1",
        FaultKind::BadMix => b"C1",
        FaultKind::BadTarget => b"O1",
    }
}

/// The answer for tokens that are those of no well-formed unit.
pub fn unit_refused(
    alloc: Global,
    file: &str,
    tokens: &Tokens,
    fault: ReadError,
) -> Result<Answer, NoMemory>
    ensures line { IfOk result (Says Statuses.Malformed (syntax_line file.now tokens.now fault)) }
    ensures reason { IfOk result (λ _. fault ≢ Stops.NoMemory) }
{
    match fault {
        ReadError::Fault(rule, token) => token_refused(alloc, file, tokens, token, code_of(rule)),
        ReadError::NoMemory => Err(NoMemory),
    }
}
