//! What names mean, where no two declarations are at one place.

mod laws;

pub use laws::meanings_are_first;
