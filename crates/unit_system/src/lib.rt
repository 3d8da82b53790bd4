//! The system of constraints of units: their skeletons, call sites and owners, and their constraints.
//!
//! Entry: `number_units`, `constrain_units`. Invariant: the graph has exactly the constraints of the ops so far.
//! It does not know trees and tokens. Above: `constraint_gen`.
#![tactic(auto)]

mod adding;
mod fault;
mod owning;
pub mod source_marks;
mod system;
pub mod unit_rows;

pub use fault::GenerateFault;
pub use system::{NumberedUnits, Numbering, UnitSystem, constrain_units, number_units};
