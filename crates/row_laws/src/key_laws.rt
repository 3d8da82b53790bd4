//! Laws of the tokens at which the ops of a tape stand.

mod laws;

pub use laws::{keys_differ, tokens_are_once};
