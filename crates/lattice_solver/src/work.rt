//! The sets of both phases, and the variables from which what they have is still to be carried on.

ghost use Rattle.std.specs.Prelude.{◌≡◌, ℕ, ◌<◌, IfOk, IfSome, IfNone};
ghost use Rattle.flow_graph.specs.System.{System};
ghost use Rattle.lattice_solver.specs.Phases.{AllLeadIn, AllLeadTo, Includes, IsRaised, StartsAnew};
ghost use Rattle.lattice_solver.specs.Phases.{set_of, size_of};
ghost use Rattle.lattice_solver.specs.Waiting.{AreNone};
ghost use Rattle.lattice_solver.specs.Working.{Gains, IsTakenUp};

use crate::phases::Phases;
use crate::waiting::Waiting;
use flow_graph::{FlowGraph, Phase};
use qual_base::{NoMemory, Owner, VarId};
use std::alloc::Global;
use std::marker::Model;

/// For each phase and each variable a set of elements, and the variables that wait.
#[derive(Drop)]
pub struct Work {
    sets: Phases,
    waiting: Waiting,
}

/// A variable that was taken, with its sets of both phases.
#[derive(Clone, Copy)]
pub struct Taken {
    pub at: VarId,
    pub first: u64,
    pub second: u64,
}

impl Model for Work {
    ghost use Rattle.lattice_solver.specs.Working.{Held, AreAlike};

    ghost Value = { Held };

    ghost view = { λ w. record { sets = w.sets; waiting = w.waiting } };

    ghost invariant = { λ w. AreAlike (record { sets = w.sets; waiting = w.waiting }) };
}

impl Work {
    /// An empty set for each variable below a number in each phase, and nobody that waits: 21 bytes for each variable.
    pub fn new(alloc: Global, vars: u32) -> Result<Work, NoMemory>
        ensures { IfOk result (λ work. size_of work.sets ≡ vars) }
    {
        let sets = Phases::new(alloc, vars)?;
        let waiting = Waiting::new(alloc, vars)?;
        Ok(Work { sets, waiting })
    }

    /// Makes all sets empty, and lets nobody wait. Linear in the variables.
    pub fn clear(&mut self)
        ensures empty { (p : Phase) (v : ℕ) → set_of self.new.sets p v ≡ 0 }
        ensures none { AreNone self.new.waiting }
        ensures size { size_of self.new.sets ≡ size_of self.old.sets }
    {
        self.sets.clear();
        self.waiting.clear();
    }

    /// The set of a variable in a phase; empty for a variable past all. Constant time.
    pub fn set(&self, phase: Phase, at: VarId) -> u64
        ensures { result ≡ set_of self.now.sets phase at }
    {
        self.sets.set(phase, at)
    }

    /// Adds elements to the set of a variable in a phase, and lets the variable wait where the set has grown. Constant time.
    pub fn gain(&mut self, phase: Phase, at: VarId, elems: u64)
        requires { at < size_of self.old.sets }
        ensures gains { Gains self.old self.new }
        ensures has { Includes elems self.new.sets phase at }
        ensures sound { (sys : System) (lattice : ℕ) → AllLeadTo sys lattice elems phase at →
            AllLeadIn sys lattice self.old.sets → AllLeadIn sys lattice self.new.sets }
    {
        if self.sets.raise(phase, at, elems) {
            self.waiting.push(at);
        }
    }

    /// Takes a variable that waits. At a variable of nobody the second phase starts the first anew. Constant time.
    pub fn take(&mut self, graph: &FlowGraph) -> Option<Taken>
        ensures taken { IfSome result (IsTakenUp graph.now self.old self.new) }
        ensures sound { (lattice : ℕ) →
            AllLeadIn graph.now lattice self.old.sets → AllLeadIn graph.now lattice self.new.sets }
        ensures none { IfNone result (AreNone self.old.waiting) }
        ensures same { IfNone result (self.new ≡ self.old) }
    {
        let at = self.waiting.pop()?;
        start_anew(&mut self.sets, graph, at);
        Some(Taken {
            at,
            first: self.sets.set(Phase::First, at),
            second: self.sets.set(Phase::Second, at),
        })
    }
}

/// Adds the set of the second phase to that of the first, at a variable of nobody.
fn start_anew(sets: &mut Phases, graph: &FlowGraph, at: VarId)
    requires { at < size_of sets.old }
    ensures raised { IsRaised sets.old sets.new at }
    ensures anew { StartsAnew graph.now sets.new at }
    ensures sound { (lattice : ℕ) →
        AllLeadIn graph.now lattice sets.old → AllLeadIn graph.now lattice sets.new }
{
    let owner = graph.owner(at);
    match owner {
        Owner::Nobody => {
            let elems = sets.set(Phase::Second, at);
            sets.raise(Phase::First, at, elems);
        }
        Owner::Function(_) => {}
    }
}
