//! Certificates of acceptance, the rules that they obey, and what these rules say of the unfolding: laws without code.
//!
//! Entry: `certified_is_accepted`, `accepted_is_certified`. Invariant: a certificate that obeys the nine rules is
//! closed under matched paths.
//! It does not know any algorithm. Above: `closure_check`, `certificate_maker`.
#![tactic(auto)]

mod laws;
mod rule;

pub use laws::{accepted_is_certified, certified_has_written, certified_is_accepted};
pub use rule::CertRule;
