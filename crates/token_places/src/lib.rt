//! Where readers of single tokens, of rows of like tokens and of groups refuse: for the families of readers of trees.
//! Its entries are `groups_are_completed` and `attrs_are_placed`; the other laws stand in `proofs/`.
//! The idea: a row ends before each token that begins none of its items, and a group is completed by its open brackets.
//! It knows no tree; `expr_places`, `decl_places` and `stmt_places` stand on it.
#![tactic(auto)]

mod laws;

pub use laws::{attrs_are_placed, groups_are_completed};
