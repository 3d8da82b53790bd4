//! The scopes that are open while a source is read, in which a declarator's name is held until its declarator ends
//! (C99, 6.2.1).
//!
//! Entry: `TypedefScopes`. Invariant: the scopes are those of `c_units`, with the name that is held.
//! It does not know tokens and trees. Above: the readers of declarators.
#![tactic(auto)]

mod scope;
mod scopes;

pub use scope::Closed;
pub use scopes::TypedefScopes;
