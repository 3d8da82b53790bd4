//! Laws that nothing is missing in programs that are read.
//!
//! Where the tokens of each unit have numbers of their own, and units too, no two declarations, uses of names or skeletons are at
//! one place. Where scopes of names are those of the grammar, and different names of a unit have different numbers in all units,
//! what has a skeleton was first declared as what has one. So in all programs that are read and have no fault each expression has its
//! skeleton, and nothing is missing, as `missing_laws` says of accepted programs.
#![tactic(auto)]

mod laws;

pub use laws::{places_differ, read_programs_have_skeletons, read_programs_miss_nothing};
