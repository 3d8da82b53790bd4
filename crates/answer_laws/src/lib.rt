//! Laws of the tool's answers: what follows from their definition.
//!
//! Entry: `certified_is_verified`, `rejected_is_checked`.
//! It does not know how anything is read, solved or written. Nothing stands above.
#![tactic(auto)]

mod laws;

pub use laws::{
    annotated_gives_the_source, certified_is_verified, programs_are_owned, rejected_is_checked,
};
