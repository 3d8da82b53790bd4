//! Small sources, each with what was worked out elsewhere: trees and heights, types and faults, constraints, refusals,
//! tapes; the checker computes what the definitions say of them.
//!
//! Entry: `unit_examples`, `type_examples`, `constraint_examples`, `refusal_examples`, `tape_tests`.
//! It does not know the program. Nothing stands above.
#![tactic(auto)]

pub mod constraint_examples;
pub mod refusal_examples;
pub mod tape_tests;
pub mod type_examples;
pub mod unit_examples;
