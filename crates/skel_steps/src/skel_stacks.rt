//! The stacks of the loop over a tape that finds the skeletons of operands.

mod arguments;
mod braces;
mod declarations;
mod leaves;
mod operands;
mod rounds;
mod stacks;

pub use stacks::{Braces, Operand, Stacks};
