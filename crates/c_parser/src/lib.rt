//! The parser of C: the one well-formed unit that tokens have (C99, 6.9), as its tree or as its tape.
//!
//! Entry: `parse`, `parse_tape`. Invariant: a list of tokens has its one well-formed unit, or is refused at the first
//! token with which no such unit begins.
//! It does not know what declarations and types mean. Above: `cq_prelude`, `cqual_tool`.
#![tactic(auto)]

mod knot;
mod parsing;
mod taping;
pub mod unit_forms;

pub use c_reading::FaultKind;
pub use parsing::{parse, parse_tape};
pub use reader_base::ReadError;
