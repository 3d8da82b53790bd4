//! A token.

use c_words::TokenKind;

/// A token: its kind, and the byte range of the unit where it stands.
#[derive(Clone, Copy, PartialEq, Eq, Debug)]
pub struct Token {
    pub kind: TokenKind,
    pub start: u32,
    pub end: u32,
}
