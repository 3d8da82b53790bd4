//! A mark for each variable in each phase.

ghost use Rattle.std.specs.Prelude.{◌≡◌, ◌≢◌, ℕ, ◌<◌, true, false, length, slice_index_or, IfOk};
ghost use Rattle.std.specs.Bool.{OnTrue, OnFalse};
ghost use Rattle.error_path.specs.Marks.{Marking, mark_of, size_of, unset};

use flow_graph::Phase;
use qual_base::{NoMemory, Numbered, VarId};
use std::alloc::Global;
use std::marker::Model;

/// For each phase a mark for each variable below a number.
#[derive(Drop)]
pub struct Marks {
    first: Vec<bool>,
    second: Vec<bool>,
}

impl Model for Marks {
    ghost use Rattle.std.specs.Prelude.{◌≡◌, length};
    ghost use Rattle.error_path.specs.Marks.{PhaseMarks};

    ghost Value = { PhaseMarks };

    ghost view = { λ m. record { first = m.first.items; second = m.second.items } };

    ghost invariant = { λ m. length m.second.items ≡ length m.first.items };
}

impl Marks {
    /// Marks that are not set: 2 bytes for each variable.
    pub fn new(alloc: Global, vars: u32) -> Result<Marks, NoMemory>
        ensures size { IfOk result (λ marks. size_of marks ≡ vars) }
        ensures none { IfOk result (λ marks. (p : Phase) (v : ℕ) → mark_of marks p v ≡ false) }
    {
        let first = unmarked(alloc, vars)?;
        let second = unmarked(alloc, vars)?;
        Ok(Marks { first, second })
    }

    /// Whether a variable is marked in a phase. Any variable is taken. Constant time.
    pub fn get(&self, phase: Phase, at: VarId) -> bool
        ensures { result ≡ mark_of self.now phase at }
    {
        match phase {
            Phase::First => is_set(self.first.as_slice(), at),
            Phase::Second => is_set(self.second.as_slice(), at),
        }
    }

    /// Marks a variable in a phase, and says whether it was not marked. Constant time.
    pub fn mark(&mut self, phase: Phase, at: VarId) -> bool
        requires { at < size_of self.old }
        ensures marking { Marking self.old self.new result }
        ensures here { mark_of self.new phase at ≡ true }
        ensures others { (p : Phase) (v : ℕ) →
            (p ≡ phase → v ≢ at) → mark_of self.new p v ≡ mark_of self.old p v }
    {
        match phase {
            Phase::First => set(&mut self.first, at),
            Phase::Second => set(&mut self.second, at),
        }
    }

    /// Takes the marks of a variable in both phases away. Any variable is taken. Constant time.
    pub fn clear(&mut self, at: VarId)
        ensures here { (p : Phase) → mark_of self.new p at ≡ false }
        ensures others { (p : Phase) (v : ℕ) →
            v ≢ at → mark_of self.new p v ≡ mark_of self.old p v }
        ensures size { size_of self.new ≡ size_of self.old }
    {
        clear(&mut self.first, at);
        clear(&mut self.second, at);
    }
}

/// So many marks that are not set.
fn unmarked(alloc: Global, count: u32) -> Result<Vec<bool>, NoMemory>
    ensures size { IfOk result (λ marks. length marks.items ≡ count) }
    ensures none { IfOk result (λ marks. (v : ℕ) → slice_index_or marks.items v false ≡ false) }
{
    match vec![in alloc; false; count as usize] {
        Ok(marks) => Ok(marks),
        Err(_) => Err(NoMemory),
    }
}

/// Whether a mark is set; not for a variable past all.
fn is_set(marks: &[bool], at: VarId) -> bool
    ensures { result ≡ slice_index_or marks.now at false }
{
    match marks.get(at.number() as usize) {
        Some(mark) => *mark,
        None => false,
    }
}

/// Sets a mark, and says whether it was not set.
fn set(marks: &mut [bool], at: VarId) -> bool
    requires { at < length marks.old }
    ensures here { slice_index_or marks.new at false ≡ true }
    ensures others { (v : ℕ) →
        v ≢ at → slice_index_or marks.new v false ≡ slice_index_or marks.old v false }
    ensures less { OnTrue result (unset marks.new < unset marks.old) }
    ensures same { OnFalse result (marks.new ≡ marks.old) }
    ensures length { length marks.new ≡ length marks.old }
{
    let index = at.number() as usize;
    if marks[index] {
        return false;
    }
    marks[index] = true;
    true
}

/// Takes a mark away; nothing happens for a variable past all.
fn clear(marks: &mut [bool], at: VarId)
    ensures here { slice_index_or marks.new at false ≡ false }
    ensures others { (v : ℕ) →
        v ≢ at → slice_index_or marks.new v false ≡ slice_index_or marks.old v false }
    ensures length { length marks.new ≡ length marks.old }
{
    let index = at.number() as usize;
    if index < marks.len() {
        marks[index] = false;
    }
}
