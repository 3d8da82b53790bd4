//! What programs of tests have in common: the text that a row of a file stands for, and writing what all rows answer.
//!
//! Entry: `row_text`, `put_all`. Invariant: what no backquotes enclose stands in a row as it is meant.
//! It does not know what rows ask. Above: the programs whose printed text the gate compares.
#![tactic(auto)]

mod rows;
mod writing;

pub use rows::row_text;
pub use writing::{MOST_BYTES, put_all};
