//! What may be wrong at a token.

ghost use Rattle.std.specs.Prelude.{◌≡◌};
ghost use Rattle.c_reading.specs.Reading.{number_at};
ghost use Rattle.reader_base.specs.declared.fault.ReadError.TheVariants as errors;
ghost use Rattle.reader_base.specs.declared.fault.ReadError.TheVariants.{NoMemory};

use c_reading::FaultKind;
use c_tree::Lexeme;
use qual_base::{Numbered, TokenId};
use std::alloc::{AllocError, AllocFailed};

/// Why a reader gives up: a fault at a token, or want of memory.
#[derive(Clone, Copy)]
pub enum ReadError {
    Fault(FaultKind, TokenId),
    NoMemory,
}

impl From<AllocError> for ReadError {
    ghost from_gives = { λ _ e. e ≡ NoMemory };

    fn from(_error: AllocError) -> ReadError {
        ReadError::NoMemory
    }
}

impl From<qual_base::NoMemory> for ReadError {
    ghost from_gives = { λ _ e. e ≡ NoMemory };

    fn from(_error: qual_base::NoMemory) -> ReadError {
        ReadError::NoMemory
    }
}

impl<T: Drop> From<AllocFailed<T>> for ReadError {
    ghost from_gives = { λ _ e. e ≡ NoMemory };

    fn from(_error: AllocFailed<T>) -> ReadError {
        ReadError::NoMemory
    }
}

/// The number of the first token, 0 where there is none.
pub fn number_at(tokens: &[Lexeme]) -> TokenId
    ensures { result ≡ number_at tokens.now }
{
    match tokens {
        [first, ..] => first.at,
        [] => TokenId::new(0),
    }
}

/// The first token is refused.
pub fn refused(fault: FaultKind, tokens: &[Lexeme]) -> ReadError
    ensures { result ≡ errors.Fault fault (number_at tokens.now) }
{
    ReadError::Fault(fault, number_at(tokens))
}
