//! The state of names while a unit is gone through: types so far, names and members, what a declaration does, links
//! between units (C99, 6.2.2, 6.7).
//!
//! Entry: `unit_names::Names`, `name_types::Types`, `name_uses`, `name_links::link`, `found_names::FoundNames`.
//! Invariant: the state is that of the steps in `name_rules`.
//! It does not know tapes, and which op comes next. Above: `c_names`, `unit_shapes`.
#![tactic(auto)]

pub mod found_names;
pub mod name_links;
pub mod name_types;
pub mod name_uses;
pub mod unit_names;
