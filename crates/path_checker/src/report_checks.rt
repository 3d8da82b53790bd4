//! What the text of a report comes to over a constraint graph: all its path proofs hold, or the first line at which
//! something is wrong.

mod judging;
mod texts;

pub use judging::{Checked, Code, judge_report};
pub use texts::put_checked;
