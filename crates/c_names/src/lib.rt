//! The names of a unit, by one loop over its tape (C99, 6.2.1 to 6.2.3, 6.7).
//!
//! Entry: `name_unit`, `resolve_names`. Invariant: the state is that of the steps over the ops so far; a `typeof` asks
//! `unit_shapes` for the shape of its operand.
//! It does not know trees. Above: `unit_types`.
#![tactic(auto)]

mod declarator;
mod identifiers;
mod old;
mod part;
mod run;
mod specifier;
mod stack;
mod state;

pub use run::{name_unit, resolve_names};
