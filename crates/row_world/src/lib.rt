//! What does not change while constraints are made, found at once: skeletons, uses, declarations, members, call sites,
//! marks, index words.
//!
//! Entry: `Known`, and `tape_rounds::Rounds` for the context of an op. Invariant: what is known is what the worlds of
//! `row_rules` say.
//! It does not know tapes and graphs. Above: `row_adding`, `skel_steps`, `unit_starts`.
#![tactic(auto)]

mod indexing;
mod known;
mod lattices;
mod names;
mod operand;
mod skels;
pub mod tape_rounds;
mod targets;
mod values;

pub use known::Known;
pub use lattices::access_lattices;
pub use operand::Operand;
pub use skels::{
    contents, further, is_empty, is_fun, is_nothing, is_ref, nowhere, outcome, parameter, read,
};
pub use values::{binary, is_additive, value};
