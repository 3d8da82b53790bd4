//! The stacks of the loop over a tape that finds the types of expressions.

mod braces;
mod declarations;
mod operands;
mod stack;
mod stacks;

pub use stack::Stack;
pub use stacks::{Braces, OpenDeclaration, Operand, Stacks};
