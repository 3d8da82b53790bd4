//! Skeletons of units, numbered, and the functions that they belong to.

mod functions;
mod place_numbers;
mod sites;
mod skeletons;

pub use functions::functions_of;
pub use place_numbers::PlaceNumbers;
pub use sites::{CallSites, find_sites};
pub use skeletons::{Skeletons, number_skeletons};
