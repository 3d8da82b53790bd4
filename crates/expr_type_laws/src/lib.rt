//! Laws of what stands at key tokens, on the trees of units.
//!
//! Entry: `shapes_are_found`. Invariant: at the key token of an expression is its shape.
//! It does not know any algorithm. Nothing stands above.
#![tactic(auto)]

mod laws;

pub use laws::{expressions_stand, shapes_are_found};
