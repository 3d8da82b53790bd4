//! The constraints that make one skeleton of qualifier variables flow into another.
//!
//! Entry: `flow`, `equate`, `cross`. Invariant: a list has exactly the constraints of the definition, in order.
//! It does not know where flows come from. Above: `row_adding`.
#![tactic(auto)]

mod adding;
mod arrow;
mod equating;
mod flowing;
mod laws;
mod rules;
mod tying;

pub use arrow::Arrow;
pub use laws::{crossings_lead, flows_stay, lists_turn};
pub use rules::{cross, equate, flow, smash, unsmash};
