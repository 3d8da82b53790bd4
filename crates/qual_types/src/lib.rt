//! Where qualifier variables stand: positions inside the types of names and expressions, and the table of variables.
//!
//! Entry: `VarTable`, `Look`. Invariant: a skeleton takes variables that follow on each other.
//! It does not know names and constraints. Above: `flow_rules`, `row_world`.
#![tactic(auto)]

mod growing;
mod look;
mod position;
mod row;
mod table;

pub use look::{Kind, Look};
pub use position::{Position, Step};
pub use row::{Node, Parent, VarRow};
pub use table::{QualFault, VarTable};
