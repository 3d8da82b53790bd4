//! What the tokens of a unit say that its tape does not.

mod spelling;

pub use spelling::Spelling;
