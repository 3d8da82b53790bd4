//! Why bytes are no prelude.

ghost use Rattle.std.specs.Prelude.{◌≡◌};
ghost use Rattle.cq_prelude.specs.Answers.{placed_lex, placed_parse, placed_shape};
ghost use Rattle.cq_prelude.specs.Preludes.{spot_of};

use c_lexer::{LexFault, Tokens};
use c_parser::{FaultKind, ReadError};
use c_types::{Fault, ShapeFault};
use qual_base::{Numbered, Spot, TokenId};

/// Why bytes are no prelude, in the order in which that is found out.
#[derive(Clone, Copy)]
pub enum PreludeFault {
    /// The bytes stop to spell tokens.
    Lex(LexFault),
    /// The tokens are those of no well-formed unit: the token at the place breaks this rule.
    Parse(FaultKind, Spot),
    /// The body of a function begins at the place.
    HasBody(Spot),
    /// The index word at the place stands where none may, or says no numbers: it is malformed, or a number is over 65,535
    /// or stands there twice.
    BadIndex(Spot),
    /// A rule of names and types fails, first at the place.
    Shape(Fault, Spot),
    /// There was not enough memory.
    NoMemory,
}

/// The place of a token; the first one of the file where there is no such token.
pub(crate) fn place_in(tokens: &Tokens, token: TokenId) -> Spot
    ensures { result ≡ spot_of tokens.now token }
{
    if token.number() < tokens.len() {
        tokens.place_of(token)
    } else {
        Spot {
            unit: tokens.unit(),
            name_from: 0,
            name_to: 0,
            line: 1,
            column: 1,
        }
    }
}

/// The answer for bytes that spell no tokens.
pub(crate) fn lex_refused(fault: LexFault) -> PreludeFault
    ensures { result ≡ placed_lex fault }
{
    match fault {
        LexFault::BadByte(spot) => PreludeFault::Lex(LexFault::BadByte(spot)),
        LexFault::Unended(spot) => PreludeFault::Lex(LexFault::Unended(spot)),
        LexFault::UnknownQualifier(spot) => PreludeFault::Lex(LexFault::UnknownQualifier(spot)),
        LexFault::NoMemory => PreludeFault::NoMemory,
    }
}

/// The answer for tokens that are those of no well-formed unit.
pub(crate) fn parse_refused(tokens: &Tokens, fault: ReadError) -> PreludeFault
    ensures { result ≡ placed_parse tokens.now fault }
{
    match fault {
        ReadError::Fault(rule, token) => PreludeFault::Parse(rule, place_in(tokens, token)),
        ReadError::NoMemory => PreludeFault::NoMemory,
    }
}

/// The answer for a unit with this first fault of names and types.
pub(crate) fn shape_refused(tokens: &Tokens, fault: ShapeFault) -> PreludeFault
    ensures { result ≡ placed_shape tokens.now fault }
{
    match &fault {
        ShapeFault::Found(it) => {
            let (_unit, token) = it.at;
            PreludeFault::Shape(*it, place_in(tokens, token))
        }
        ShapeFault::NoMemory => PreludeFault::NoMemory,
    }
}
