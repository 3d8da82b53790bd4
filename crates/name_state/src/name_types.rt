//! The types that specifiers and declarators make (C99, 6.7.2 to 6.7.5).

mod copy;
mod types;

pub use types::{SoFar, Types};
