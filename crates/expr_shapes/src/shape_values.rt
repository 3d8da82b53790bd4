//! The types of values and of what is in places, by their numbers in a table: what operators make of those of their operands
//! (C99, 6.3.2.1 and 6.5). No type is made.

mod calls;
mod operators;
mod picks;
mod reading;
mod shape;

pub use calls::{points_to_function, result, takes};
pub use operators::{assigned, binary, cond, index, prefix};
pub use picks::{Picked, is_candidate};
pub use reading::{
    address, is_base, is_no_pointer, is_plain_void_pointer, is_pointer, read_from, target, value,
};
pub use shape::{ExprShape, ValueType};
