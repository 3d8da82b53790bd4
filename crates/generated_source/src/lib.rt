//! The source that the tool makes itself, the lattice under which it is read, and the summary of what is found in it.
//!
//! Entry: `generated_source`, `put_summary`. Invariant: the source of a number is one text.
//! It does not know how it is read. Above: `cqual_tool`.
#![tactic(auto)]

mod source;
mod summary;
mod writing;

pub use source::{generated_source, lattice_bytes};
pub use summary::{Counts, put_summary};
