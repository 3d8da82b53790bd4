//! The scopes that are open, with what names and tags stand for in them (C99, 6.2.1 and 6.2.3).

mod meant;
mod scope;
mod scopes;
mod tags;

pub use meant::{Meant, Place};
pub use scope::Scope;
pub use scopes::Scopes;
pub use tags::Tag;
