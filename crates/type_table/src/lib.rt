//! The types of a program, by numbers.
//!
//! Entry: `TypeTable`. Invariant: a number stands for one type for ever; equal types may have two.
//! It does not know names and qualifier variables. Above: all that speaks of types by number.
#![tactic(auto)]

mod row;
mod table;

pub use row::{Shape, TypeRow};
pub use table::TypeTable;
