//! The law that different names of a unit have different numbers in all units.
//!
//! The number of a name is that of its spelling: the first name of the units before that is spelled so has it, and else it is new.
#![tactic(auto)]

mod laws;

pub use laws::spelled_names_differ;
