//! What was carried round groups.

ghost use Rattle.std.specs.Prelude.{◌≡◌, ◌<◌, ◌⊎◌, ◌^◌, ℕ, IsTrue, IfOk};
ghost use Rattle.std.specs.Int.{bit_at};
ghost use Rattle.flow_graph.specs.declared.phase.Phase.{Phase};
ghost use Rattle.lattice_solver.specs.Phases.{HasIn, Includes, set_of, size_of};
ghost use Rattle.lattice_solver.specs.Working.{had_of};

use crate::phases::Phases;
use crate::work::Taken;
use flow_graph::Phase;
use qual_base::{EdgeId, NoMemory, Numbered, VarId};
use std::alloc::Global;
use std::marker::Model;

/// For each phase and each constraint a set of elements. That of the last `Enter` of a site to a variable was carried round
/// all groups of the site that begin there, and that of its last `Leave` from a variable to the ends of all those `Leave`s.
#[derive(Drop)]
pub struct Passed {
    sets: Phases,
}

impl Model for Passed {
    ghost use Rattle.lattice_solver.specs.PhaseSets.{PhaseSets};

    ghost Value = { PhaseSets };

    ghost view = { λ p. p.sets };
}

impl Passed {
    /// An empty set for each constraint below a number: 16 bytes each.
    pub fn new(alloc: Global, constraints: u32) -> Result<Passed, NoMemory>
        ensures { IfOk result (λ passed. size_of passed ≡ constraints) }
    {
        let sets = Phases::new(alloc, constraints)?;
        Ok(Passed { sets })
    }

    /// Makes all sets empty. Linear in the constraints.
    pub fn clear(&mut self)
        ensures empty { (p : Phase) (n : ℕ) → set_of self.new p n ≡ 0 }
        ensures size { size_of self.new ≡ size_of self.old }
    {
        self.sets.clear();
    }

    /// Whether a constraint has all that a variable had when it was taken. Constant time.
    pub fn covers(&self, at: EdgeId, taken: &Taken) -> bool
        ensures { IsTrue result → (p : Phase) → Includes (had_of taken.now p) self.now p at }
    {
        self.has(Phase::First, at, taken.first) && self.has(Phase::Second, at, taken.second)
    }

    /// Whether a constraint has all of a set in a phase.
    fn has(&self, phase: Phase, at: EdgeId, elems: u64) -> bool
        ensures { IsTrue result → Includes elems self.now phase at }
    {
        let set = self.sets.set(phase, VarId::new(at.number()));
        (set | elems) == set
    }

    /// Adds to the sets of a constraint what a variable had when it was taken. Constant time.
    pub fn add(&mut self, at: EdgeId, taken: &Taken)
        requires { at < size_of self.old }
        ensures only { (p : Phase) (n e : ℕ) → HasIn self.new p n e →
            HasIn self.old p n e ⊎ ((n ≡ at) × (bit_at (had_of taken.now p) e ≡ 1)) }
        ensures size { size_of self.new ≡ size_of self.old }
    {
        let at = VarId::new(at.number());
        self.sets.raise(Phase::First, at, taken.first);
        self.sets.raise(Phase::Second, at, taken.second);
    }
}
