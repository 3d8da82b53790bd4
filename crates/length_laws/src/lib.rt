//! A law of how long a tape is.
//!
//! Entry: `tapes_are_short`. Invariant: the tape of a unit has at most two ops for each token.
//! It does not know any algorithm. Nothing stands above.
#![tactic(auto)]

mod laws;

pub use laws::tapes_are_short;
