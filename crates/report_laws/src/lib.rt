//! Laws of the texts of reports: what they read as.
//!
//! Entry: `rejected_reads_back`.
//! It does not know how reports are made and read. Above: `answer_laws`.
#![tactic(auto)]

mod laws;

pub use laws::{errors_read_back, holds_without_lines, rejected_reads_back, tokens_have_no_feed};
