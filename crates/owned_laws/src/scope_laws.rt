//! Laws of where the names of units are declared, and where they stay.

mod laws;

pub use laws::{declarations_differ, names_are_apart, names_stay};
