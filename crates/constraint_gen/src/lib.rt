//! The system of constraints of a prelude and a source (Foster et al. 2006; Rehof and Fähndrich 2001): its qualifier
//! variables, its call sites with the owner of each variable, and its constraints.
//!
//! Entry: `generate`. Invariant: the system is `system_of` of the program.
//! It does not know how it is solved. Above: `cqual_tool`.
#![tactic(auto)]

mod generating;
mod listing;
mod marking;

pub use generating::{Generated, generate};
pub use unit_system::GenerateFault;
