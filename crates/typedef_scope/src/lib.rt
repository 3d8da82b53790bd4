//! The kinds of ordinary names, and the kind that a scope gives a name (C99, 6.2.1).
//!
//! Entry: `Kind`, `specs/Scopes.antt`. Invariant: a name has the kind that was put last.
//! It does not know tokens and trees, and which scopes are open. Above: `c_units`, `held_scopes`, the readers.
#![tactic(auto)]

mod kind;

pub use kind::Kind;
