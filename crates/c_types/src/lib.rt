//! The names and types of sources by their tokens and tapes, or their first fault (C99, 6.2.1 to 6.2.3, 6.5 and 6.7).
//!
//! Entry: `resolve`, `resolve_tapes`, and `source_spelling::spelling_behind`. Invariant: what is answered is what
//! `type_rules` says of the trees.
//! It does not know constraints. Above: `cq_prelude`, `constraint_gen`, `cqual_tool`.
#![tactic(auto)]

mod ops;
mod resolving;
mod source;
pub mod source_spelling;
mod tapes;
mod units;

pub use resolving::{resolve, resolve_tapes};
pub use source::Source;
pub use unit_types::{Fault, Program, Rule, ShapeFault, UnitTape};
pub use units::Units;
