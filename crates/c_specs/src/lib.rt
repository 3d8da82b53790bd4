//! Which declaration specifiers may stand together, read word by word (C99, 6.7.1 and 6.7.2).
//!
//! Entry: `read_specs`, and the laws of mixes. Invariant: words that are a mix are read, and the first that continues
//! none is refused.
//! It does not know where specifiers stand. Above: `c_reading`, `spec_forms`.
#![tactic(auto)]

mod basic;
mod laws;
mod mix;
mod reading;
mod storage;

pub use basic::{Base, Core, Mark, Part};
pub use laws::{
    bad_tokens_begin, mixes_go_on, mixes_have_no_fault, one_fault_at_most, whole_are_mixes,
};
pub use mix::{Class, Mix, Types, class_of, words_begin_a_mix};
pub use reading::{SpecFault, read_specs};
pub use storage::Storage;
