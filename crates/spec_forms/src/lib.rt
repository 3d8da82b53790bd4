//! Readers of declaration specifiers (C99, 6.7): the words of one token, and structs, unions and enums with what stands
//! in their braces.
//!
//! Entry: `specifiers`. Invariant: what is answered is what `c_reading` says of the same tokens.
//! It does not know where specifiers stand. Above: `c_parser`.
#![tactic(auto)]

mod enums;
mod mixed;
mod starts;
mod structs;
mod typeofs;
mod values;
mod words;

pub use words::specifiers;
