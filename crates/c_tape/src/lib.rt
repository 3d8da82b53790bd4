//! The tape of a unit: its nodes in post-order, as plain values without a tree.
//!
//! The walk has no recursion and no loop over children. What is left to be put on the tape is a stack of tasks, each a
//! node, the rest of a list of nodes or an op; a turn takes the next task and puts those of its parts in its place.
//!
//! Entry: `tape`. Invariant: the tape is `tape_of` of the items.
//! It does not know what is done at a node. Above: `c_parser`, `c_types`.
#![tactic(auto)]

mod declaration;
mod declarator;
mod expression;
mod forms;
mod initialiser;
mod list;
mod old;
mod specifier;
mod statement;
mod testing;
mod todo;
mod unit;

pub use list::{Node, OpList};
pub use unit::tape;
