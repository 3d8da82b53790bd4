//! What the words of the command line ask.
//!
//! Entry: `meaning`. Invariant: a list of words has one meaning or none.
//! It does not know files and C. Above: `cqual_tool`.
#![tactic(auto)]

mod asked;
mod command;
mod numeral;
mod words;

pub use asked::{Asked, FileWords, Question};
pub use words::meaning;
