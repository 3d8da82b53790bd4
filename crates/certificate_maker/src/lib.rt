//! The maker of certificates: the certificate of a lattice, from what the summaries and the solver of the lattice
//! found, and the text of those of all lattices, where a program is accepted.
//!
//! Entry: `certified`, `certificate`. Invariant: what is made obeys the rules.
//! It does not know how certificates are tested or read. Above: `cqual_tool`.
#![tactic(auto)]

mod all;
mod maker;
mod pairs;
mod sets;

pub use all::certified;
pub use maker::certificate;
