//! What the tapes of units say of names is what the units say, by the definitions on trees (C99, 6.2.1 to 6.2.3, 6.7).

mod laws;

pub use laws::{names_are_steps, names_of_tapes};
