//! Where expressions and initialisers of C are refused, and how what was read of them is completed (C99, 6.5 and 6.7.8).
//!
//! The entry is `exprs_are_placed`: what each reader inside owes, the readers of expressions over them owe too. A completion
//! is a number, or the parts that are still wanted up to a number; behind a type's name in parentheses it is `{ }`, which
//! stands where a cast may and where none may. It knows neither declarations nor statements; `unit_places` ties all readers.
#![tactic(auto)]

mod laws;

pub use laws::{exprs_are_placed, init_lists_are_placed};
