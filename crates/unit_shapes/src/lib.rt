//! The types of expressions and the faults of a unit, by one loop over its tape (C99, 6.5 and 6.7.8).
//!
//! Entry: `judge_tape`. Invariant: the stacks are those of the steps, and the fault is the first.
//! It does not know trees. Above: `c_names`, `c_types`.
#![tactic(auto)]

mod expressions;
mod fault;
mod initialisers;
mod judge;
mod members;
mod op_faults;
mod steps;
mod targets;
mod uses;

pub use fault::{Fault, Rule};
pub use judge::{first_of_names, judge_tape, keep_of_names};
pub use steps::step;
pub use uses::ImplicitTypes;
