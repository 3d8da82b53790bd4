//! Operands and operators in a row, and their one tree by the precedence table of C (C99, 6.5).
//!
//! Entry: the laws `the_tree_of_a_list`, `one_tree_at_most`; `operated`, which joins an operator with its operands.
//! Invariant: a list of operands and operators has at most one tree.
//! It does not know the tokens before and behind the list. Above: `c_reading`, whose readers join by `Joining`, and
//! `expr_rows`, which does so as tokens are read.
#![tactic(auto)]

mod joining;
mod laws;
mod op;

pub use joining::operated;
pub use laws::{no_tree_of_a_bad_target, one_tree_at_most, the_tree_of_a_list};
pub use op::{Op, level_of_binary};
