//! Who owns each variable.

ghost use Rattle.std.specs.Prelude.{◌≡◌, ◌≢◌, ◌<◌, ◌≤◌, ◌+◌, ◌^◌, ℕ, [], length, max, slice_get, slice_index_or};
ghost use Rattle.std.specs.Prelude.{unwrap_or, MatchOption, OnErr, OnOk};
ghost use Rattle.qual_base.specs.declared.places.Owner.TheVariants.{Nobody};
ghost use Rattle.flow_graph.specs.Owners.{owner_in};

use qual_base::{FuncId, NoMemory, Numbered, Owner};
use std::alloc::Global;
use std::marker::Model;

/// The owner of each variable, by its number: four bytes each. Clauses see the list of owners.
#[derive(Drop)]
pub(crate) struct Owners {
    /// One more than the number of a function, or 0.
    cells: Vec<u32>,
}

impl Model for Owners {
    ghost use Rattle.std.specs.Prelude.{List, map};
    ghost use Rattle.qual_base.specs.declared.places.Owner.{Owner};
    ghost use Rattle.flow_graph.specs.Owners.{owner_in};

    ghost Value = { List Owner };

    ghost view = { λ s. map owner_in s.cells.items };
}

/// The owner that a cell stands for.
fn owner_in(cell: u32) -> Owner
    ensures { result ≡ owner_in cell }
{
    match cell.checked_sub(1) {
        Some(function) => Owner::Function(FuncId::new(function)),
        None => Owner::Nobody,
    }
}

/// The cell of an owner. A function whose number is 2^32 - 1 has none.
fn cell_of(owner: Owner) -> Option<u32>
    ensures { MatchOption result (Unit {0}) (λ cell. owner_in cell ≡ owner) }
{
    match owner {
        Owner::Function(function) => function.number().checked_add(1),
        Owner::Nobody => Some(0),
    }
}

impl Owners {
    /// No variables. Takes no memory.
    pub(crate) fn new(alloc: Global) -> Self
        ensures { result ≡ [] }
    {
        Owners {
            cells: Vec::new(alloc),
        }
    }

    /// How many variables have a place.
    pub(crate) fn len(&self) -> usize
        ensures { result ≡ length self.now }
    {
        self.cells.len()
    }

    /// The owner of a variable; one that has no place is nobody's. Constant time.
    pub(crate) fn get(&self, at: usize) -> Owner
        ensures { result ≡ unwrap_or (slice_get self.now at) Nobody }
    {
        match self.cells.get(at) {
            Some(cell) => owner_in(*cell),
            None => Owner::Nobody,
        }
    }

    /// Sets the owner of a variable. For want of memory they stay as they were, and where the owner is a function whose number
    /// is 2^32 - 1. Constant time but for growth.
    pub(crate) fn set(&mut self, at: usize, owner: Owner) -> Result<(), NoMemory>
        requires { at < 2 ^ 24 }
        ensures known { OnOk result (length self.new ≡ max (length self.old) (at + 1)) }
        ensures owner { OnOk result (unwrap_or (slice_get self.new at) Nobody ≡ owner) }
        ensures others { OnOk result ((u : ℕ) → u ≢ at →
            unwrap_or (slice_get self.new u) Nobody ≡ unwrap_or (slice_get self.old u) Nobody) }
        ensures most { length self.new ≤ max (length self.old) (at + 1) }
        ensures err { OnErr result (self.new ≡ self.old) }
    {
        let Some(cell) = cell_of(owner) else {
            return Err(NoMemory);
        };
        make_room(&mut self.cells, at + 1)?;
        self.cells[at] = cell;
        Ok(())
    }
}

/// Gives at least so many variables a cell. The new ones belong to nobody.
fn make_room(cells: &mut Vec<u32>, count: usize) -> Result<(), NoMemory>
    ensures room { OnOk result (length cells.new.items ≡ max (length cells.old.items) count) }
    ensures same { (v : ℕ) →
        slice_index_or cells.new.items v 0 ≡ slice_index_or cells.old.items v 0 }
    ensures err { OnErr result (cells.new.items ≡ cells.old.items) }
{
    if count <= cells.len() {
        return Ok(());
    }
    match cells.resize(count, 0) {
        Ok(()) => Ok(()),
        Err(_) => Err(NoMemory),
    }
}
