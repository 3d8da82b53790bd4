//! Sets of elements, and the variables from which what they have is still to be carried on.

ghost use Rattle.std.specs.Prelude.{◌≡◌, ◌≢◌, ◌<◌, ◌≤◌, ℕ, [], bit_or, length, IfOk, IfSome};
ghost use Rattle.std.specs.Prelude.{IfNone, OnOk};
ghost use Rattle.std.specs.Bool.{OnTrue, OnFalse};
ghost use Rattle.flow_graph.specs.System.{System};
ghost use Rattle.bounds_below.specs.Below.{set_at};
ghost use Rattle.bounds_below.specs.Carrying.{AllReach, AreSound, Gains, Includes, IsTaken, room};

use qual_base::{NoMemory, Numbered, VarId};
use std::alloc::Global;

/// For each variable a set of elements, and each variable whose set has grown since what it has was carried on.
#[derive(Drop)]
pub struct Work {
    pub sets: Vec<u64>,
    waiting: Vec<VarId>,
}

impl Work {
    /// An empty set for each variable below a number, 8 bytes each, and none that waits.
    pub fn new(alloc: Global, vars: u32) -> Result<Work, NoMemory>
        ensures size { IfOk result (λ work. length work.sets.items ≡ vars) }
        ensures empty { IfOk result (λ work. (v : ℕ) → set_at work.sets.items v ≡ 0) }
    {
        let sets = zeros(alloc, vars)?;
        Ok(Work {
            sets,
            waiting: Vec::new(alloc),
        })
    }

    /// The set of a variable; empty for a variable past all. Constant time.
    pub fn set(&self, at: VarId) -> u64
        ensures { result ≡ set_at self.now.sets.items at }
    {
        read(self.sets.as_slice(), at)
    }

    /// Adds elements to the set of a variable, and lets the variable wait where the set has grown. Constant time but for
    /// growth.
    pub fn gain(&mut self, at: VarId, elems: u64) -> Result<(), NoMemory>
        requires { at < length self.old.sets.items }
        ensures gains { OnOk result (Gains self.old self.new) }
        ensures has { OnOk result (Includes elems self.new.sets.items at) }
        ensures sound { OnOk result ((sys : System) (lattice : ℕ) →
            AllReach sys lattice elems at → AreSound sys lattice self.old.sets.items →
            AreSound sys lattice self.new.sets.items) }
    {
        if !raise(&mut self.sets, at, elems) {
            return Ok(());
        }
        self.waiting.push(at)?;
        Ok(())
    }

    /// Takes the variable that came last. Constant time.
    pub fn take(&mut self) -> Option<VarId>
        ensures taken { IfSome result (IsTaken self.old self.new) }
        ensures none { IfNone result (self.old.waiting.items ≡ []) }
        ensures sets { self.new.sets.items ≡ self.old.sets.items }
    {
        self.waiting.pop()
    }
}

/// So many empty sets.
fn zeros(alloc: Global, count: u32) -> Result<Vec<u64>, NoMemory>
    ensures size { IfOk result (λ sets. length sets.items ≡ count) }
    ensures empty { IfOk result (λ sets. (v : ℕ) → set_at sets.items v ≡ 0) }
{
    match vec![in alloc; 0u64; count as usize] {
        Ok(sets) => Ok(sets),
        Err(_) => Err(NoMemory),
    }
}

/// The set of a variable; empty for a variable past all.
pub fn read(sets: &[u64], at: VarId) -> u64
    ensures { result ≡ set_at sets.now at }
{
    match sets.get(at.number() as usize) {
        Some(set) => *set,
        None => 0,
    }
}

/// Adds elements to the set of a variable, and says whether the set has grown.
fn raise(sets: &mut Vec<u64>, at: VarId, elems: u64) -> bool
    requires { at < length sets.old.items }
    ensures here { set_at sets.new.items at ≡ bit_or (set_at sets.old.items at) elems }
    ensures others { (v : ℕ) → v ≢ at → set_at sets.new.items v ≡ set_at sets.old.items v }
    ensures length { length sets.new.items ≡ length sets.old.items }
    ensures grown { OnTrue result (room sets.new.items < room sets.old.items) }
    ensures same { OnFalse result (sets.new.items ≡ sets.old.items) }
{
    let index = at.number() as usize;
    let set = sets[index];
    let raised = union(set, elems);
    if raised == set {
        return false;
    }
    sets[index] = raised;
    true
}

/// The elements of both sets.
fn union(one: u64, other: u64) -> u64
    ensures value { result ≡ bit_or one other }
    ensures more { one ≤ result }
{
    one | other
}
