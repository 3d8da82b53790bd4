//! Readers of statements and blocks (C99, 6.8).
//!
//! Each reads what begins at a cursor, with the room that its height may take, and asks the reader that is lent to it
//! for the parts inside.
//!
//! Entry: `statement`, `block`. Invariant: what is answered is what `c_reading` says of the same tokens.
//! It does not know where statements stand. Above: `c_parser`.
#![tactic(auto)]

mod blocks;
mod branches;
mod fors;
mod items;
mod jumps;
mod labelled;
mod statements;

pub use blocks::{block, block_body};
pub use statements::statement;
