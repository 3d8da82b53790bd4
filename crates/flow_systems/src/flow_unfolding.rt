//! Whether some assignment meets the unfolding of a small system at a depth, by a plain search for the least one.
//!
//! It writes the unfolding out, copy by copy, and so decides small systems slowly. What it answers rests on the
//! definition of the unfolding alone, and on no law of paths.

mod assignment;
mod copies;
mod strings;
mod unfolding;

pub use unfolding::is_met;
