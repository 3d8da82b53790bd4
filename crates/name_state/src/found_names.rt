//! The names of a unit, each found at once by its place, and members of structs (C99, 6.2.1 and 6.7.2.1).

mod found;

pub use found::FoundNames;
