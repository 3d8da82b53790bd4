//! Small sources whose names, types and first faults were worked out elsewhere: what the definitions say of each is computed
//! by the checker.

mod laws;

pub use laws::{examples_hold, examples_of_several_hold, wider_examples_hold};
