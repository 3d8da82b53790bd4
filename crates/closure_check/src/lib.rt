//! The checker of certificates: whether a certificate of a lattice obeys the rules over the constraints of a graph. It
//! makes no closure and no solution, and stands on no crate that does.
//!
//! Entry: `check_part`, `CheckIndex`. Invariant: each rule is tested by itself, in the order of the rules.
//! It does not know how certificates are made, spelled or read. Above: `certificate_checks`, `certificate_maker`.
#![tactic(auto)]

mod checks;
mod claim;
mod index;
mod links;
mod pairs;
mod part;
mod rounds;
mod sets;

pub use checks::check_part;
pub use index::CheckIndex;
pub use part::{Part, is_part};
