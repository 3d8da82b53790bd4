//! Constraints between qualifier variables, and what they mean: the unfolding over call strings, the assignments that
//! meet it, paths whose calls and returns match, and when a path proof holds.
//!
//! Entry: `FlowGraph`; `specs/Unfolding.antt` (`IsAccepted`), `specs/PathRules.antt`. Invariant: constraints are added
//! at the end alone, up to a most.
//! It does not know where constraints come from. Above: the analysis, and all laws of systems.
#![tactic(auto)]

mod adjacency;
mod conditions;
mod constraint;
mod graph;
mod owners;
mod phase;
mod proof;
mod rows;
mod step;

pub use adjacency::{Adjacency, Beginnings};
pub use conditions::{is_well_owned, names_elements};
pub use constraint::{Constraint, Crossing, Limit, Link, Site};
pub use graph::{FlowGraph, GraphFault, MOST_CONSTRAINTS};
pub use phase::Phase;
pub use proof::{BadStep, PathProof, PathStep, SubPath, Walk, Why};
pub use step::{Path, Seen, StepInPath};
