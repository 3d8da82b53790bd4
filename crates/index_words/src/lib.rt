//! The index words of a prelude, by their tokens.
//!
//! Entry: `Prelude`. Invariant: the numbers of a word are those that it spells, in order.
//! It does not know how index words are spelled and where they stand. Above: `row_adding`, `cq_prelude`.
#![tactic(auto)]

mod prelude;

pub use prelude::Prelude;
