//! Which variables of a function matched paths join: the closure of the constraints under calls whose returns match.
//!
//! Entry: `summarise`, `Summaries`. Invariant: each pair of the list has a reason in the pairs before it; a closed list
//! has all pairs.
//! It does not know lattice elements. Above: `lattice_solver`, `error_path`, `bounds_below`.
#![tactic(auto)]

mod buckets;
mod chains;
mod closure;
mod crossings;
mod found;
mod inside;
mod reason;
mod summary;

pub use closure::{summarise, summarise_from};
pub use crossings::{Crossings, InnerEnd, Way};
pub use inside::joins;
pub use reason::{Reason, Summary};
pub use summary::Summaries;
