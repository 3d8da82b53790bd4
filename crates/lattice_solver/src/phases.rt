//! The sets of constants that reach each variable, in two phases.

ghost use Rattle.std.specs.Prelude.{◌≡◌, ◌≢◌, ◌<◌, ◌≤◌, ℕ, IsTrue, IfOk, length, slice_index};
ghost use Rattle.std.specs.Prelude.{bit_or};
ghost use Rattle.std.specs.Bool.{OnTrue, OnFalse};
ghost use Rattle.lattice_solver.specs.Sets.{room};
ghost use Rattle.lattice_solver.specs.Phases.{Moves, set_of, size_of};

use flow_graph::Phase;
use qual_base::{NoMemory, Numbered, VarId};
use std::alloc::Global;
use std::marker::Model;

/// For each phase and each variable, a set of elements as 64 bits.
#[derive(Drop)]
pub struct Phases {
    first: Vec<u64>,
    second: Vec<u64>,
}

impl Model for Phases {
    ghost use Rattle.lattice_solver.specs.PhaseSets.{PhaseSets, AreSized};

    ghost Value = { PhaseSets };

    ghost view = { λ a. record { first = a.first.items; second = a.second.items } };

    ghost invariant = { λ a. AreSized a.first.items a.second.items };
}

impl Phases {
    /// An empty set for each variable below a number: 16 bytes each.
    pub fn new(alloc: Global, vars: u32) -> Result<Phases, NoMemory>
        ensures { IfOk result (λ phases. size_of phases ≡ vars) }
    {
        let first = zeros(alloc, vars)?;
        let second = zeros(alloc, vars)?;
        Ok(Phases { first, second })
    }

    /// Makes all sets empty. Linear in the variables.
    pub fn clear(&mut self)
        ensures empty { (p : Phase) (v : ℕ) → set_of self.new p v ≡ 0 }
        ensures size { size_of self.new ≡ size_of self.old }
    {
        empty(&mut self.first);
        empty(&mut self.second);
    }

    /// How many variables there are.
    pub fn size(&self) -> u32
        ensures number { result ≡ size_of self.now }
        ensures both { length self.now.second ≡ size_of self.now }
    {
        self.first.len() as u32
    }

    /// The set of a variable in a phase; empty for a variable past all. Constant time.
    pub fn set(&self, phase: Phase, at: VarId) -> u64
        ensures { result ≡ set_of self.now phase at }
    {
        match phase {
            Phase::First => set_at(self.first.as_slice(), at),
            Phase::Second => set_at(self.second.as_slice(), at),
        }
    }

    /// Adds elements to the set of a variable in a phase, and says whether the set has grown. Constant time.
    pub fn raise(&mut self, phase: Phase, at: VarId, elems: u64) -> bool
        requires { at < size_of self.old }
        ensures moves { Moves self.old self.new result }
        ensures here { set_of self.new phase at ≡ bit_or (set_of self.old phase at) elems }
        ensures others { (p : Phase) (v : ℕ) →
            (p ≡ phase → v ≢ at) → set_of self.new p v ≡ set_of self.old p v }
    {
        match phase {
            Phase::First => raise_set(&mut self.first, at, elems),
            Phase::Second => raise_set(&mut self.second, at, elems),
        }
    }
}

/// So many empty sets.
fn zeros(alloc: Global, count: u32) -> Result<Vec<u64>, NoMemory>
    ensures { IfOk result (λ sets. length sets.items ≡ count) }
{
    match vec![in alloc; 0u64; count as usize] {
        Ok(sets) => Ok(sets),
        Err(_) => Err(NoMemory),
    }
}

/// Makes each set empty.
fn empty(sets: &mut [u64])
    ensures empty { (v : ℕ) → slice_index sets.new v ≡ 0 }
    ensures length { length sets.new ≡ length sets.old }
{
    for set in sets.iter_mut() {
        *set = 0;
    }
}

/// The set of a variable; empty for a variable past all.
fn set_at(sets: &[u64], at: VarId) -> u64
    ensures { result ≡ slice_index sets.now at }
{
    match sets.get(at.number() as usize) {
        Some(set) => *set,
        None => 0,
    }
}

/// The elements of both sets.
fn union(one: u64, other: u64) -> u64
    ensures value { result ≡ bit_or one other }
    ensures more { one ≤ result }
{
    one | other
}

/// Adds elements to the set of a variable, and says whether the set has grown.
fn raise_set(sets: &mut [u64], at: VarId, elems: u64) -> bool
    requires { at < length sets.old }
    ensures here { slice_index sets.new at ≡ bit_or (slice_index sets.old at) elems }
    ensures others { (v : ℕ) → v ≢ at → slice_index sets.new v ≡ slice_index sets.old v }
    ensures grown { OnTrue result (room sets.new < room sets.old) }
    ensures same { OnFalse result (sets.new ≡ sets.old) }
{
    let index = at.number() as usize;
    let set = sets[index];
    let raised = union(set, elems);
    if raised == set {
        return false;
    }
    sets[index] = raised;
    true
}
