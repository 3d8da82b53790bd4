//! Small programs whose constraints were worked out elsewhere: what the definitions say of each is computed by the checker.

mod laws;

pub use laws::{examples_hold, examples_of_several_hold, index_words_hold, wider_examples_hold};
