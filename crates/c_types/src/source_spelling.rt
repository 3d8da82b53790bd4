//! What the tokens of a unit say that its tape does not: annotations, numbers spelled `0`, and which names of several units are
//! spelled alike.

mod earlier;
mod source;

pub use earlier::EarlierNames;
pub use source::spelling_behind;
