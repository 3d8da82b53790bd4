//! What is one thing in several sources, behind all units: objects and functions, and members of structs and unions (C99, 6.2.2 and
//! 6.2.7).

mod bodies;
mod externals;
mod keys;
mod linking;
mod members;

pub use bodies::body_faults;
pub use linking::{link, links};
