//! Whose the variables of skeletons are, by where skeletons begin.

mod laws;

pub use laws::{
    calls_lead, fitting_is_well_owned, instances_fit, parts_stay, rows_fit, skeletons_are_owned,
};
