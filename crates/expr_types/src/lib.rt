//! The type of each expression and of each type's name of a program, by key token (C99, 6.5 and 6.7.6).
//!
//! The loop over a unit's tape that judges expressions lets their types go. Here it is gone through once more, for
//! callers that ask for them, and what each expression is stays in a table by place.
//!
//! Entry: `ExpressionTypes`. Invariant: an expression has the shape of its step.
//! It does not know trees and tokens. Above: `type_listing`.
#![tactic(auto)]

mod along;
mod keys;
mod types;

pub use types::ExpressionTypes;
