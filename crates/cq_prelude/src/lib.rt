//! Preludes: signatures of a library, as a unit of their own, with words that tie positions of their types together.
//!
//! Entry: `read_prelude`. Invariant: a text is a prelude, or its first fault is answered.
//! It does not know constraints. Above: `cqual_tool`.
#![tactic(auto)]

mod declaring;
mod fault;
mod left;
mod placing;
mod reading;
mod rules;
mod word;

pub use fault::PreludeFault;
pub use reading::{PreludeRead, read_prelude};
