//! The names, types and tapes of units whose names and types have no fault, or their first fault.
//!
//! Entry: `resolve_units`. Invariant: the units before are named and without fault.
//! It does not know trees and tokens. Above: `c_types`. It stands apart from `unit_shapes` since names, which stand between
//! them, ask `unit_shapes` for the type of a `typeof`.
#![tactic(auto)]

mod fault;
mod program;
mod resolve;

pub use fault::ShapeFault;
pub use program::{Program, UnitTape};
pub use resolve::resolve_units;
pub use unit_shapes::{Fault, Rule};
