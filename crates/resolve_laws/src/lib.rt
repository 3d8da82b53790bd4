//! Laws that the steps over the tape of a unit give its names, its shapes and its faults as the rules say of its tree.
//!
//! Entry: `name_laws::names_are_steps`, `shape_laws::shapes_are_left`, `first_fault_is_found`. Invariant: the tape of a
//! form leaves one shape more.
//! It does not know any algorithm. Above: `c_types`, and the laws of constraints.
#![tactic(auto)]

pub mod name_laws;
pub mod shape_laws;
