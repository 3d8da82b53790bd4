//! What each op of an expression does to the stacks of shapes, by the types of its operands; what was found of a name
//! and of a member is given.
//!
//! Entry: the functions of `operators`, `forms`, `picks`; `shape_values` of single types, `shape_stacks::Stacks`.
//! Invariant: the stacks are those of the steps in `name_rules`.
//! It does not know where names and members are found. Above: `unit_shapes`, `c_names`, `expr_types`.
#![tactic(auto)]

mod faults;
mod forms;
mod operands;
mod operators;
mod picks;
mod plain;
pub mod shape_stacks;
pub mod shape_values;

pub use faults::{
    calls_no_function, has_no_pointer, has_wrong_count, index_has_no_pointer, is_no_place,
    offset_has_no_pointer, prefix_has_no_place, prefix_has_no_pointer,
};
pub use forms::{cast, named, offset, offset_index, offset_member, statements, va_arg, variadic};
pub use operands::{extension, name, number, plain_operand, text};
pub use operators::{
    arrow, assign, binary, call, comma, condition, index, member, post, prefix, sizeof,
};
pub use picks::{
    choose, chosen, compat, has_of_type, is_of_type, label, no_type, select, selected,
    selected_shape,
};
pub use plain::Plain;
