//! That the skeletons which begin along the tape of a unit are those that the definition on its
//! tree says.

mod laws;

pub use laws::{
    selections_are_found, selections_of_program_are_found, starts_are_found,
    starts_of_program_are_found,
};
