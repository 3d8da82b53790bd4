//! Where skeletons begin along the tapes of units, and which variables they get.
//!
//! Entry: `add_starts`, `unit_skeletons::number_skeletons`, `position_laws`. Invariant: a skeleton has the place at
//! which it begins, and its variables follow those before.
//! It does not know constraints. Above: `unit_system`.
#![tactic(auto)]

mod expressions;
mod names;
mod operands;
mod ops;
pub mod position_laws;
mod start;
mod starts;
pub mod unit_skeletons;

pub use names::is_function;
pub use start::Start;
pub use starts::{Starts, add_starts};
