//! A certificate of one lattice.

ghost use Rattle.std.specs.Prelude.{◌≡◌, ◌<◌, ℕ, ◌↔◌, true, IsTrue};
ghost use Rattle.lattice_core.specs.Order.{size};
ghost use Rattle.closure_check.specs.Parts.{AreAscending, AreBelow, AreSets, IsPart, has};

use crate::pairs::is_below;
use crate::sets::is_subset;
use flow_graph::FlowGraph;
use lattice_core::Lattice;
use qual_base::{ElemSet, Numbered, VarId};

/// Pairs of variables, ascending and each once, and two sets of elements for each variable, by its number.
#[derive(Drop, Debug)]
pub struct Part {
    pub pairs: Vec<(VarId, VarId)>,
    pub first: Vec<ElemSet>,
    pub second: Vec<ElemSet>,
}

/// Whether there is a set in both lists for each variable of a graph, with elements of the lattice alone, and the pairs ascend
/// and are of the graph's variables. Linear, and takes no memory.
pub fn is_part(graph: &FlowGraph, lattice: &Lattice, part: &Part) -> bool
    ensures { IsTrue result ↔ IsPart graph.now lattice.now.order part.now }
{
    let vars = graph.vars();
    let pairs = part.pairs.as_slice();
    are_sets(lattice, part.first.as_slice(), vars)
        && are_sets(lattice, part.second.as_slice(), vars)
        && are_ascending(pairs)
        && are_below(pairs, vars)
}

/// Whether there are so many sets, with elements of a lattice alone.
fn are_sets(lattice: &Lattice, sets: &[ElemSet], count: u32) -> bool
    ensures { IsTrue result ↔ AreSets lattice.now.order count sets.now }
{
    let all = elements(lattice);
    for set in sets {
        if !is_subset(*set, all) {
            return false;
        }
    }
    sets.len() == count as usize
}

/// All elements of a lattice.
fn elements(lattice: &Lattice) -> ElemSet
    ensures { (e : ℕ) → (has result e ≡ true) ↔ (e < size lattice.now.order) }
{
    lattice.law();
    ElemSet::new(u64::MAX >> (64 - lattice.size()))
}

/// Whether each pair comes before those behind it.
fn are_ascending(pairs: &[(VarId, VarId)]) -> bool
    ensures { IsTrue result ↔ AreAscending pairs.now }
{
    for n in 1..pairs.len() {
        let next = pairs[n];
        if !is_below(pairs[n - 1], next.0, next.1) {
            return false;
        }
    }
    true
}

/// Whether all pairs are of variables below a number.
fn are_below(pairs: &[(VarId, VarId)], vars: u32) -> bool
    ensures { IsTrue result ↔ AreBelow vars pairs.now }
{
    for pair in pairs {
        if !is_of(*pair, vars) {
            return false;
        }
    }
    true
}

/// Whether both variables of a pair are below a number.
fn is_of(pair: (VarId, VarId), vars: u32) -> bool
    ensures { IsTrue result ↔ ((pair.0 < vars) × (pair.1 < vars)) }
{
    pair.0.number() < vars && pair.1.number() < vars
}
