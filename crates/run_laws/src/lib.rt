//! What accepted says of runs of programs that are steps over registers: laws without code.
//!
//! Entry: `runs_are_safe`. Invariant: no run of an accepted program brings a label to a bound that it is not at or
//! below.
//! It does not know trees, tapes and C. Nothing stands above.
#![tactic(auto)]

mod laws;

pub use laws::{runs_are_safe, some_run_is_accepted, some_run_is_violated};
