//! Laws of the order of ops on a tape.

mod laws;

pub use laws::items_are_bracketed;
