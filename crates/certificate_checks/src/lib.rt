//! What the text of a certificate comes to over a constraint graph: it proves that the program is accepted, it breaks a
//! rule, or it is no certificate. Neither the closure nor the solver is linked with it.
//!
//! Entry: `judge_certificate`. Invariant: the first lattice that breaks a rule is named, with the lowest rule that it
//! breaks.
//! It does not know how certificates are made; the closure and the solver. Above: `cqual_tool`.
#![tactic(auto)]

mod judging;
mod texts;

pub use judging::{CertCode, Verdict, judge_certificate};
pub use texts::put_verdict;
