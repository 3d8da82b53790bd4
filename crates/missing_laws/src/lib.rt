//! Laws that no look-up of the constraints of C misses.
//!
//! The definitions of skeletons and constraints are total: where nothing is found, a skeleton that is none, a number past the end
//! or an empty list stands in. The laws say that in an accepted program none of these is met, or none tells: each expression
//! whose constraints count has the skeleton of its type, and whatever is put behind the skeletons and call sites that there are,
//! the constraints are the same.
//!
//! A program is accepted that is well formed and without faults, no two of whose declarations, uses of names or skeletons are at
//! one place, and in which what has a skeleton was first declared as what has one. That programs which are read are so is a law of
//! `whole_laws`.
#![tactic(auto)]

mod laws;

pub use laws::{
    expressions_have_skeletons, expressions_have_types, nothing_is_missing, programs_are_settled,
    programs_have_skeletons, programs_miss_nothing, typed_have_skeletons,
};
