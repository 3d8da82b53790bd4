//! Readers of declarators, parameters and names of types (C99, 6.7.5 and 6.7.6).
//!
//! Entry: `declarator`, `type_name`. Invariant: what is answered is what `c_reading` says of the same tokens; a
//! declared name is held until its declarator ends.
//! It does not know where declarators stand. Above: `c_parser`.
#![tactic(auto)]

mod arrays;
mod declarators;
mod names;
mod parameters;
mod prototypes;
mod suffixes;
mod type_names;

pub use declarators::declarator;
pub use type_names::type_name;
