//! Numbers of variables, sites, functions and constraints say nothing: laws without code.
//!
//! Entry: `renamed_is_alike`. Invariant: systems that differ by their numbers alone are accepted alike.
//! It does not know any algorithm. Nothing stands above.
#![tactic(auto)]

mod laws;

pub use laws::{renamed_has_as_many, renamed_is_alike, renamed_turns, some_are_renamed};
