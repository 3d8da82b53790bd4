//! Which constants reach which variables, in one lattice: least elements and exceeded bounds.
//!
//! Entry: `Solver`. Invariant: a set has only constants that a path brings.
//! It does not know sources and texts. Above: `annotate`, `error_path`, `certificate_maker`.
#![tactic(auto)]

mod passed;
mod phases;
mod solver;
mod turns;
mod waiting;
mod work;

pub use solver::Solver;
