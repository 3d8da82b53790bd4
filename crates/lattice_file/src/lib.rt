//! Lattice files: a text of blocks, each with the entries and the order lines of one lattice.
//!
//! Entry: `read_lattices`. Invariant: a text has one reading or one first fault.
//! It does not know what levels and signs mean. Above: `cqual_tool`.
#![tactic(auto)]

mod blocks;
mod lexemes;
mod passing;
mod places;
mod reading;
mod sharing;
mod words;

pub use blocks::Block;
pub use reading::{LatticeFileFault, read_lattices};
