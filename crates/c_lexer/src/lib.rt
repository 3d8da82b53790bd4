//! The tokens of a C source with their places (C99, 6.4).
//!
//! Entry: `lex`. Invariant: the tokens of a text are one list, and equal names have equal numbers.
//! It does not know the grammar and types. Above: the parser, and whatever prints a place.
#![tactic(auto)]

mod front;
mod fronts;
mod gaps;
mod kinds;
mod laws;
mod lexing;
mod longest;
mod marks;
mod names;
mod places;
mod signs;
mod text;
mod token;
mod tokens;
mod words;

pub use laws::names_are_numbered;
pub use lexing::{LexFault, lex};
pub use places::Mark;
pub use token::Token;
pub use tokens::Tokens;
