//! Small sources that are refused, with the token and the code that were worked out: what the definitions of allowed refusals
//! say of each is proved, but for what they say of all units, that none begins with the refused token.

mod laws;

pub use laws::{refusals_hold, wider_refusals_hold};
