//! That the steps over the tape of a unit find what the definitions of types and faults say of its tree.

mod laws;

pub use laws::{
    addressed_are_left, faults_are_found, first_fault_is_found, none_is_found, old_names_are_left,
    shapes_are_left, units_leave_nothing,
};
