//! Path proofs for exceeded bounds, and walks between variables: a search from the constants of an element or from a
//! variable, and the sub-paths that what it finds rests on.
//!
//! Entry: `show`, `reach_from`, `sub_paths_for`. Invariant: what is found leads back to where the search began.
//! It does not know texts. Above: `annotate`, `flow_query`.
#![tactic(auto)]

mod marks;
mod passed;
mod places;
mod reaches;
mod room;
mod search;
mod showing;
mod steps;
mod sub_paths;
mod traces;
mod walks;

pub use reaches::{Reach, Reaches, reach_from};
pub use room::Room;
pub use showing::show;
pub use walks::sub_paths_for;
