//! Units with their tapes, worked out by hand.

mod laws;

pub use laws::tapes_of_examples;
