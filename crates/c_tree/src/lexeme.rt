//! A token as trees and their reader see it.

use c_words::TokenKind;
use qual_base::TokenId;

/// A token with its number in the unit.
#[derive(Clone, Copy, PartialEq, Eq, Debug)]
pub struct Lexeme {
    pub kind: TokenKind,
    pub at: TokenId,
}
