//! Which bounds each variable leads to by flows, groups and calls, in one lattice: for each variable the set of their
//! elements.
//!
//! Entry: `bounds_below`. Invariant: a set has only elements that a path leads to.
//! It does not know the order of the elements. Above: `sig_writer`.
#![tactic(auto)]

mod below;
mod flows;
mod work;

pub use below::{Below, bounds_below};
