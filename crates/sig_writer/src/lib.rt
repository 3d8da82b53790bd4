//! The signatures of a library: for each external function of which a client has something to know a declaration whose
//! words say it. Read as a prelude, they stand for the library's sources.
//!
//! Entry: `signatures`. Invariant: a word is written only where a constraint of the library wants it.
//! It does not know how sources are read. Above: `cqual_tool`.
#![tactic(auto)]

mod functions;
mod laws;
mod lines;
mod marks;
mod nodes;
mod refusals;
mod says;
mod signing;
mod suiting;
mod types;

pub use functions::external_functions;
pub use laws::{externals_are_held, one_text, owned_apart};
pub use lines::{Library, SigFault};
pub use nodes::{signature_vars, skeletons_are_in_order};
pub use signing::signed;
pub use suiting::{Unsuited, suits};
