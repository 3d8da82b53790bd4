//! Path proofs and walks: whether one holds of a constraint graph, how the text of a report is read, and what a report
//! comes to.
//!
//! Entry: `check`, `check_walk`, `read_report`, and `report_checks::judge_report`. Invariant: the first step that fails
//! is the one that is named.
//! It does not know how paths are found. Above: `cqual_tool`, `certificate_reader`.
#![tactic(auto)]

mod checking;
mod lines;
mod report;
pub mod report_checks;
mod rules;

pub use checking::{check, check_walk};
pub use flow_graph::{BadStep, PathProof, PathStep, SubPath, Walk, Why};
pub use lines::{Line, line_kind, split_at_first};
pub use report::{ReportFault, Section, read_report};
