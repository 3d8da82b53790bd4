//! Keywords, signs and the kinds of tokens of C sources (C99, 6.4).
//!
//! Entry: `TokenKind`. Invariant: a kind says all that the grammar asks of a token.
//! It does not know how words are spelled. Above: `c_lexer` and the grammar.
#![tactic(auto)]

mod kinds;

pub use kinds::{Keyword, Punct, TokenKind};
