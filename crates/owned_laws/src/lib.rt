//! Laws that the system of every program is well owned and names elements that are there, by what is at each op of its
//! tapes.
//!
//! Entry: `systems_are_owned`, `element_laws::elements_are_named`. Invariant: what is begun along a tape is ended on
//! it.
//! It does not know any algorithm. Above: `constraint_gen`, the laws of the tool.
#![tactic(auto)]

pub mod element_laws;
mod laws;
pub mod owner_laws;
pub mod scope_laws;
pub mod tape_laws;

pub use laws::{functions_own_theirs, systems_are_owned, tapes_fit};
