//! Laws of the tokens at which constraints, call sites and faults stand.
//!
//! Entry: `spans_have_tokens`, `faults_have_tokens`. Invariant: each token of a tape is one of its unit.
//! It does not know any algorithm. Nothing stands above.
#![tactic(auto)]

mod laws;

pub use laws::{counted_are_read, faults_have_tokens, sites_have_tokens, spans_have_tokens};
