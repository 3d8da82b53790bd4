//! The answer of the tool is one.
//!
//! Entry: `one_outcome`. Invariant: for the same words and files there is one status, and one text but for paths.
//! It does not know how anything is read, solved or written. Nothing stands above.
#![tactic(auto)]

mod laws;

pub use laws::{
    one_check, one_error_count, one_judgement, one_list_of_tokens, one_outcome, one_prelude,
    one_reading_of_lattices, one_set_of_indices,
};
