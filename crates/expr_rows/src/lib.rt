//! Rows of operators with their operands as they are read, and their readers (C99, 6.5.5 to 6.5.17).
//!
//! A row is read from left to right: an operator joins what it ends, and then waits with that for its right operand. So
//! each token is read once, and each operator is joined once.
//!
//! Entry: `expr`. Invariant: the row that waits has the one tree of `c_ops`.
//! It does not know where expressions stand. Above: `c_parser`.
#![tactic(auto)]

mod choice;
mod expression;
pub mod op_rows;
mod operand;
mod operation;

pub use expression::expr;
