//! What each op of a tape does to the stacks of skeletons.
//!
//! Entry: `step`, and `skel_stacks::Stacks`. Invariant: the stacks are those of the steps in `row_rules`.
//! It does not know constraints and graphs. Above: `unit_system`.
#![tactic(auto)]

mod declarators;
mod expressions;
mod forms;
mod initialisers;
mod operands;
mod operators;
mod picks;
pub mod skel_stacks;
mod steps;
mod targets;

pub use operands::value_at;
pub use operators::{indexed, is_carrying, is_vector_index};
pub use picks::{PickedVal, chosen, depth_of, selected};
pub use steps::step;
pub use targets::{initialised_by, target_in};
