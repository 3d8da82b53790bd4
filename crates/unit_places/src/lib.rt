//! The place of a syntax fault: where the reader of units refuses a token, no well-formed unit goes on with it.
//! Its entries are `place_is_first`, `height_alone` and `syntax_is_allowed`.
//! The idea: what was read is completed by tokens that the reader itself reads, and what it refuses rests on the tokens up to it.
//! It knows neither the lexer nor the program's readers; `c_parser` may say its laws of the lists that it is given.
#![tactic(auto)]

mod laws;

pub use laws::{height_alone, place_is_first, syntax_is_allowed};
