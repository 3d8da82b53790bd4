//! The two reports of a program: the elements of its variables, or a path proof for each exceeded bound; and its source
//! with the elements as comments.
//!
//! Entry: `judge`, `judge_with`. Invariant: each line of a report is one that the definition has, in order.
//! It does not know how constraints are made; trees. Above: `cqual_tool`.
#![tactic(auto)]

mod annotated;
mod judging;
mod laws;
mod listing;
mod paths;
mod places;
mod reports;
mod scene;
mod solving;
mod texts;

pub use judging::{Judged, count_errors, judge, judge_with};
pub use laws::comments_come_out;
pub use paths::put_walk;
pub use places::{put, put_at, put_decimal, put_spot};
pub use scene::{Scene, UnitText, bytes_of, find_unit, unit_at};
pub use solving::{Solved, solve_all, solved_of};
pub use texts::put_var;
