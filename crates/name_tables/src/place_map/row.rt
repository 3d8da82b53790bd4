//! Numbers by the tokens of a unit.

ghost use Rattle.std.specs.Prelude.{◌≡◌, ◌<◌, ℕ, [], length, nat_eq, slice_get, OnOk, OnErr, if◌then◌else◌};
ghost use Rattle.name_tables.specs.PlaceMap.Values.{cell_in};

use qual_base::{NoMemory, Numbered, TokenId};
use std::alloc::Global;
use std::marker::Model;

/// A number at each token of a unit up to the last one that has any, and 0 at those behind it. Clauses see the list of numbers.
/// Memory is four bytes a token.
#[derive(Drop)]
pub(crate) struct UnitRow {
    cells: Vec<u32>,
}

impl Model for UnitRow {
    ghost use Rattle.std.specs.Prelude.{List, ℕ};

    ghost Value = { List ℕ };

    ghost view = { λ s. s.cells.items };
}

impl UnitRow {
    /// No numbers. Takes no memory.
    pub(crate) fn new(alloc: Global) -> Self
        ensures { result ≡ [] }
    {
        UnitRow {
            cells: Vec::new(alloc),
        }
    }

    /// The number at a token. Constant time.
    pub(crate) fn get(&self, token: TokenId) -> u32
        ensures { result ≡ cell_in self.now token }
    {
        match self.cells.get(token.number() as usize) {
            Some(cell) => *cell,
            None => 0,
        }
    }

    /// Goes on to a token at least, with zeros. Linear in the tokens that come to it, but for growth.
    #[tactic(auto, using(crate::proofs::PlaceMap::Cells::grown))]
    fn grow(&mut self, token: TokenId) -> Result<(), NoMemory>
        ensures room { OnOk result (token < length self.new) }
        ensures same { (n : ℕ) → cell_in self.new n ≡ cell_in self.old n }
    {
        let count = token.number() as usize + 1;
        if count <= self.cells.len() {
            return Ok(());
        }
        match self.cells.resize(count, 0) {
            Ok(()) => Ok(()),
            Err(_) => Err(NoMemory),
        }
    }

    /// Has this number be at a token. For want of memory nothing changes. Constant time but for growth.
    #[tactic(auto, using(crate::proofs::PlaceMap::Cells::written))]
    pub(crate) fn set(&mut self, token: TokenId, cell: u32) -> Result<(), NoMemory>
        ensures set { OnOk result ((n : ℕ) → cell_in self.new n
            ≡ (if nat_eq token n then cell else cell_in self.old n)) }
        ensures err { OnErr result ((n : ℕ) → cell_in self.new n ≡ cell_in self.old n) }
    {
        self.grow(token)?;
        self.cells[token.number() as usize] = cell;
        Ok(())
    }
}
