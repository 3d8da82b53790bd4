//! The constraints of a unit, by one loop over its tape.

mod adding;
mod flows;
mod forms;
mod operators;
mod picks;
mod rows;

pub use adding::add_rows;
