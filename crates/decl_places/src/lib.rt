//! Where readers of specifiers, declarators, parameters and names of types refuse, and what completes what they read.
//! Its entries are `specs_are_placed`, `declrs_are_placed`, `type_names_are_placed`; their lemmas stand in `proofs/`.
//! The idea: words are completed by one that makes their mix whole; an enumerator that may be declared may be behind its value.
//! It knows no statement and no initialiser; `stmt_places` and `unit_places` stand on it.
#![tactic(auto)]

mod laws;

pub use laws::{declrs_are_placed, specs_are_placed, type_names_are_placed, words_are_completed};
