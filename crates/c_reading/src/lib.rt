//! Readers of the whole grammar of C as functions on token lists, and their laws (C99, 6.5 and 6.7 to 6.9).
//!
//! Entry: the laws `unit_is_well_formed`, `well_formed_is_read`, `one_unit_at_most`. Invariant: a reader of a number
//! reads trees that are lower than it.
//! It does not know how the program reads. Above: the readers of the program, and the laws of places.
#![tactic(auto)]

mod kinds;
mod laws;

pub use kinds::{
    Bracket, FaultKind, Infix, Inside, Mode, Opening, PostfixForm, Reach, Role, SpecStart,
    StmtStart,
};
pub use laws::{one_unit_at_most, turns_take_tokens, unit_is_well_formed, well_formed_is_read};
