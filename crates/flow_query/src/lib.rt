//! Who reaches a name: the constants that lead to each of its variables, and the bounds that each leads to, with a walk
//! for each.
//!
//! Entry: `answer_who`. Invariant: each line has a walk that holds.
//! It does not know words, files and sources. Above: `cqual_tool`.
#![tactic(auto)]

mod answers;
mod asking;
mod ends;
mod searches;
mod sections;
mod walks;

pub use answers::answer_who;
