//! Laws that the steps over the tape of a unit give the constraints, the skeletons and the picks that the rules say of
//! its tree, and that its key tokens differ.
//!
//! Entry: `constraints_are_found`, `start_laws::starts_are_found`, `key_laws::keys_differ`. Invariant: the tape of an
//! expression leaves its skeleton.
//! It does not know any algorithm. Above: `owned_laws`, `constraint_gen`.
#![tactic(auto)]

pub mod key_laws;
mod laws;
pub mod start_laws;

pub use laws::{constraints_are_found, rows_are_found, units_leave_nothing, values_are_left};
