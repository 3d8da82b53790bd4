//! The reader of certificates.
//!
//! Entry: `read_certificate`. Invariant: a text has one reading or one first bad line.
//! It does not know how certificates are made or tested. Above: `certificate_checks`.
#![tactic(auto)]

mod fronts;
pub mod laws;
mod lines;
mod making;
mod reader;
mod section;

pub use lines::{Line, line_kind};
pub use reader::read_certificate;
pub use section::{CertFault, Section};
