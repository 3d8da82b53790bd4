//! Where declarations, statements and the items of units are refused, and how what was read of them is completed (C99, 6.7 to
//! 6.9).
//!
//! The entries are `stmts_are_placed`, `blocks_are_placed` and `items_are_placed`. Behind the words of a declaration a fresh
//! name and `;` complete it, `;` alone where the room is too low for a name; a name at the beginning of a statement is
//! completed as a label; a declarator with parameters around its name by `{ }`. It knows no expression, specifier or
//! declarator, only what their readers owe; `unit_places` ties all readers.
#![tactic(auto)]

mod laws;

pub use laws::{blocks_are_placed, items_are_placed, stmts_are_placed};
