//! Small sources whose trees and heights were worked out elsewhere: what the definitions of well-formed units say of each is
//! computed by the checker.

mod laws;

pub use laws::{examples_hold, wider_examples_hold};
