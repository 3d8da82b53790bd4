//! The tool as one call: reads a lattice file, a prelude and sources, decides, and writes a report, a certificate, who
//! reaches a name or the signatures of a library; or checks a saved report or certificate.
//!
//! Entry: `run`. Invariant: nothing is written before everything is decided.
//! It does not know the machine: files and sink are lent to it. Above: `cqual`, `tool_rows`.
#![tactic(auto)]

mod answer;
mod deciding;
mod ending;
mod faults;
mod making;
mod preludes;
mod preparing;
mod reading;
mod running;
mod sending;
mod shapes;
mod signing;
mod status;
mod syntax;
mod taking;
mod words;

pub use running::{run, run_in_memory};
pub use status::Status;
