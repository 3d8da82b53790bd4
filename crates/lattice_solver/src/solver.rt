//! A solver for one lattice.

ghost use Rattle.std.specs.Prelude.{◌≡◌, ◌<◌, ◌↔◌, ℕ, IsSome, IsTrue, IfNone, IfOk, IfSome};
ghost use Rattle.std.specs.Prelude.{MatchOption, length};
ghost use Rattle.std.specs.Int.{bit_at};
ghost use Rattle.lattice_core.specs.Order.{size, IsJoinOf, IsLattice};
ghost use Rattle.flow_graph.specs.declared.phase.Phase.TheVariants.{First};
ghost use Rattle.flow_graph.specs.System.{IsWellOwned};
ghost use Rattle.flow_graph.specs.Unfolding.{IsExceeded, NamesElementsIn};
ghost use Rattle.flow_graph.specs.Paths.{Lead};
ghost use Rattle.flow_laws.specs.Deciding.{TestsSolve};
ghost use Rattle.flow_laws.specs.Laws.{SolutionStands};
ghost use Rattle.match_summary.specs.Summary.{Summarises};
ghost use Rattle.lattice_solver.specs.Phases.{set_of};
ghost use Rattle.lattice_solver.specs.Solution.{AllUnder, Exceeds, Fits, HasElement};
ghost use Rattle.lattice_solver.specs.Solution.{IsFirstExceeded, IsFirstOver, IsKept, IsOver};
ghost use Rattle.lattice_solver.specs.Solution.{IsSolved, IsUnder, reached_at};

use crate::passed::Passed;
use crate::turns::{Flows, saturate};
use crate::work::Work;
use flow_graph::{Adjacency, FlowGraph, Phase};
use flow_laws::{solution_stands, tests_solve};
use lattice_core::Lattice;
use match_summary::{Crossings, Summaries};
use qual_base::{EdgeId, Elem, ElemSet, LatticeNo, NoMemory, Numbered, VarId};
use std::alloc::Global;
use std::marker::Model;

/// The sets of the constants that reach each variable in each phase, in one lattice, and indices of the constraints.
/// Clauses see it as a `Solution`.
#[derive(Drop)]
pub struct Solver {
    lattice: LatticeNo,
    work: Work,
    index: Adjacency,
    crossings: Crossings,
    passed: Passed,
}

impl Model for Solver {
    ghost use Rattle.lattice_solver.specs.Solution.{Solution};

    ghost Value = { Solution };

    ghost view = { λ s. record {
      lattice = s.lattice;
      phases = s.work.sets;
      index = s.index;
      crossings = s.crossings;
      passed = s.passed;
    } };
}

impl Solver {
    /// A solver with empty sets, and all the memory that it takes: 21 bytes for each variable, 24 for each constraint, and the
    /// index of the constraints. Linear in the constraints, the variables and the sites.
    pub fn new(
        alloc: Global,
        graph: &FlowGraph,
        summaries: &Summaries,
        lattice: LatticeNo,
    ) -> Result<Solver, NoMemory>
        ensures lattice { IfOk result (λ solver. solver.lattice ≡ lattice) }
        ensures fits { IfOk result (Fits graph.now) }
    {
        let _ = summaries;
        let work = Work::new(alloc, graph.vars())?;
        let index = Adjacency::build(alloc, graph)?;
        let crossings = Crossings::build(alloc, graph)?;
        let passed = Passed::new(alloc, graph.len())?;
        Ok(Solver {
            lattice,
            work,
            index,
            crossings,
            passed,
        })
    }

    /// Finds all constants that reach each variable. Takes no memory; `turns::saturate` says its time.
    pub fn run(&mut self, graph: &FlowGraph, summaries: &Summaries)
        requires lattice { self.old.lattice < 16 }
        requires fits { Fits graph.now self.old }
        requires summaries { Summarises graph.now self.old.lattice summaries.now }
        ensures solved { IsSolved graph.now self.new }
        ensures reached { (v e : ℕ) →
            HasElement self.new v e ↔ Lead graph.now self.old.lattice e v }
        ensures lattice { self.new.lattice ≡ self.old.lattice }
    {
        self.work.clear();
        self.passed.clear();
        let flows = Flows {
            graph,
            index: &self.index,
            crossings: &self.crossings,
            summaries,
            lattice: self.lattice,
        };
        saturate(&mut self.work, &mut self.passed, &flows);
    }

    pub fn lattice(&self) -> LatticeNo
        ensures { result ≡ self.now.lattice }
    {
        self.lattice
    }

    /// Where the constraints begin and end.
    pub fn index(&self) -> &Adjacency
        ensures { result.now ≡ self.now.index }
    {
        &self.index
    }

    /// The calls and returns by their inner ends.
    pub fn crossings(&self) -> &Crossings
        ensures { result.now ≡ self.now.crossings }
    {
        &self.crossings
    }

    /// The elements of the constants that lead to a variable; empty for a variable past all. Constant time.
    pub fn reached(&self, at: VarId) -> ElemSet
        ensures { result ≡ reached_at self.now at }
    {
        ElemSet::new(self.work.set(Phase::First, at) | self.work.set(Phase::Second, at))
    }

    /// The elements of the constants that lead to a variable with no call open since the last variable of nobody; empty for a
    /// variable past all. Constant time.
    pub fn first(&self, at: VarId) -> ElemSet
        ensures { result ≡ set_of self.now.phases First at }
    {
        ElemSet::new(self.work.set(Phase::First, at))
    }

    /// The least element at or above each that reaches a variable, in at most 128 steps.
    pub fn value(&self, lattice: &Lattice, at: VarId) -> Elem
        ensures { IsJoinOf lattice.now.order (reached_at self.now at) result }
    {
        lattice.join_of(self.reached(at))
    }

    /// An element that exceeds a bound: it reaches the bound's variable and is not at or below the bound. None where the
    /// constraint is no exceeded bound of this lattice. At most 64 steps.
    pub fn exceeded(&self, graph: &FlowGraph, lattice: &Lattice, bound: EdgeId) -> Option<Elem>
        requires solved { IsSolved graph.now self.now }
        requires named { NamesElementsIn graph.now self.now.lattice lattice.now.order }
        requires bound { bound < length graph.now.constraints }
        ensures element { IfSome result (Exceeds graph.now self.now lattice.now.order bound) }
        ensures none { IfNone result (IsUnder graph.now self.now lattice.now.order bound) }
        ensures exceeded { IsWellOwned graph.now →
            (IsSome result ↔ IsExceeded graph.now self.now.lattice lattice.now.order bound) }
    {
        laws(lattice);
        let constraint = graph.constraint(bound);
        let limit = constraint.bound_in(self.lattice)?;
        first_over(lattice, self.reached(limit.at), limit.elem)
    }

    /// The first exceeded bound. None where the system is accepted in this lattice; then the value of each variable is
    /// the element that is printed. At most 64 steps for each constraint.
    pub fn first_exceeded(&self, graph: &FlowGraph, lattice: &Lattice) -> Option<EdgeId>
        requires solved { IsSolved graph.now self.now }
        requires named { NamesElementsIn graph.now self.now.lattice lattice.now.order }
        ensures over { IfSome result (IsFirstOver graph.now self.now lattice.now.order) }
        ensures under { IfNone result ((n : ℕ) → IsUnder graph.now self.now lattice.now.order n) }
        ensures first { IsWellOwned graph.now →
            IfSome result (IsFirstExceeded graph.now self.now.lattice lattice.now.order) }
        ensures kept { IsWellOwned graph.now →
            IfNone result (IsKept graph.now self.now lattice.now.order) }
    {
        laws(lattice);
        for n in 0..graph.len() {
            if self.exceeded(graph, lattice, EdgeId::new(n)).is_some() {
                return Some(EdgeId::new(n));
            }
        }
        None
    }
}

/// The first element of a set that is not at or below an element.
fn first_over(lattice: &Lattice, set: ElemSet, limit: Elem) -> Option<Elem>
    requires { limit < size lattice.now.order }
    ensures { MatchOption result
        (AllUnder lattice.now.order set limit) (IsOver lattice.now.order set limit) }
{
    lattice.law();
    for n in 0..lattice.size() {
        let elem = Elem::new(n);
        if has_element(set, elem) && !lattice.leq(elem, limit) {
            return Some(elem);
        }
    }
    None
}

/// Whether a set has an element.
fn has_element(set: ElemSet, elem: Elem) -> bool
    requires { elem < 64 }
    ensures { IsTrue result ↔ (bit_at set elem ≡ 1) }
{
    (set.number() >> elem.number()) & 1 == 1
}

/// The laws that the answers rest on.
fn laws(lattice: &Lattice)
    ensures lattice { IsLattice lattice.now.order }
    ensures solution { SolutionStands }
    ensures solved { TestsSolve }
{
    lattice.law();
    solution_stands();
    tests_solve();
}
