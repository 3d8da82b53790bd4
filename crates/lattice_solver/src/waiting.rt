//! The variables that wait to be taken.

ghost use Rattle.std.specs.Prelude.{◌≡◌, ◌≢◌, ◌<◌, ◌≤◌, ◌+◌, ℕ, false, true, length};
ghost use Rattle.std.specs.Prelude.{slice_index_or, IfOk, IfSome, IfNone};
ghost use Rattle.lattice_solver.specs.Waiting.{AreNone, IsTaken, waits};

use qual_base::{NoMemory, Numbered, VarId};
use std::alloc::Global;
use std::marker::Model;

/// A stack on which each variable below a number stands at most once, with a mark for each that does.
///
/// The last of them is taken first. It has a place for each variable from the beginning, so no call but `new` takes memory.
#[derive(Drop)]
pub struct Waiting {
    places: Vec<VarId>,
    count: u32,
    marks: Vec<bool>,
}

impl Model for Waiting {
    ghost use Rattle.lattice_solver.specs.Waiting.{Waiters};
    ghost use Rattle.lattice_solver.specs.Stack.{IsStack};

    ghost Value = { Waiters };

    ghost view = { λ w. record { marks = w.marks.items; count = w.count } };

    ghost invariant = { IsStack };
}

impl Waiting {
    /// An empty stack with places for the variables below a number: 5 bytes each.
    pub fn new(alloc: Global, vars: u32) -> Result<Waiting, NoMemory>
        ensures size { IfOk result (λ waiting. length waiting.marks ≡ vars) }
    {
        let places = places(alloc, vars)?;
        let marks = marks(alloc, vars)?;
        Ok(Waiting {
            places,
            count: 0,
            marks,
        })
    }

    /// Lets nobody wait. Linear in the variables.
    pub fn clear(&mut self)
        ensures none { AreNone self.new }
        ensures size { length self.new.marks ≡ length self.old.marks }
    {
        self.count = 0;
        unmark(&mut self.marks);
    }

    /// Lets a variable wait, where it does not. Constant time.
    pub fn push(&mut self, at: VarId)
        requires { at < length self.old.marks }
        ensures here { waits self.new at ≡ true }
        ensures others { (v : ℕ) → v ≢ at → waits self.new v ≡ waits self.old v }
        ensures count { self.new.count ≤ self.old.count + 1 }
        ensures size { length self.new.marks ≡ length self.old.marks }
    {
        let index = at.number() as usize;
        if self.marks[index] {
            return;
        }
        self.places[self.count as usize] = at;
        self.count += 1;
        self.marks[index] = true;
    }

    /// Takes the variable that came last. Constant time.
    pub fn pop(&mut self) -> Option<VarId>
        ensures taken { IfSome result (IsTaken self.old self.new) }
        ensures none { IfNone result (AreNone self.old) }
        ensures same { IfNone result (self.new ≡ self.old) }
        ensures size { length self.new.marks ≡ length self.old.marks }
    {
        if self.count == 0 {
            return None;
        }
        self.count -= 1;
        let at = self.places[self.count as usize];
        self.marks[at.number() as usize] = false;
        Some(at)
    }
}

/// So many places.
fn places(alloc: Global, count: u32) -> Result<Vec<VarId>, NoMemory>
    ensures { IfOk result (λ places. length places.items ≡ count) }
{
    match vec![in alloc; VarId::new(0); count as usize] {
        Ok(places) => Ok(places),
        Err(_) => Err(NoMemory),
    }
}

/// So many marks that are not set.
fn marks(alloc: Global, count: u32) -> Result<Vec<bool>, NoMemory>
    ensures size { IfOk result (λ marks. length marks.items ≡ count) }
    ensures none { IfOk result (λ marks. (v : ℕ) → slice_index_or marks.items v false ≡ false) }
{
    match vec![in alloc; false; count as usize] {
        Ok(marks) => Ok(marks),
        Err(_) => Err(NoMemory),
    }
}

/// Takes each mark away.
fn unmark(marks: &mut [bool])
    ensures none { (v : ℕ) → slice_index_or marks.new v false ≡ false }
    ensures length { length marks.new ≡ length marks.old }
{
    for mark in marks.iter_mut() {
        *mark = false;
    }
}
