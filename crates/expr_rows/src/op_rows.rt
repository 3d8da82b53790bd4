//! Rows of operands and operators as they are read, by the precedence table of C (C99, 6.5).
//!
//! An operator joins what stands before it as far as the table says, and then waits with that for
//! its right operand. The height of each part stands beside it, so that no part is measured again.

mod heights;
mod op;
mod row;
mod target;
mod waiting;

pub use op::SizedOp;
pub use row::OpRow;
