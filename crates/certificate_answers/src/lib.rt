//! What is written as certificates, and what texts of certificates come to: laws without code.
//!
//! Entry: `written_reads`, `one_verdict`.
//! It does not know any algorithm. Above: the laws of the tool.
#![tactic(auto)]

mod laws;

pub use laws::{one_certificate, one_verdict, written_reads};
