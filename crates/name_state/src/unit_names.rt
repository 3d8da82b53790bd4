//! What is known of names at a place of a unit, and what each use and declaration makes of it (C99, 6.2.1 to 6.2.3, 6.7).

mod facts;
mod found;
mod members;
mod names;
mod scope;
mod shared;

pub use names::Names;
