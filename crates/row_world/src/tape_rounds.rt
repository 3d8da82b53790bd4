//! What is around an op of a tape: scopes, bodies, lists of parameters, and what gives no constraint.

mod rounds;
mod steps;

pub use rounds::{Naming, Round, Rounds};
