//! What the rules are asked of.

ghost use Rattle.std.specs.Prelude.{◌↔◌, IsTrue};
ghost use Rattle.closure_check.specs.Checking.{IsFirstWithin, IsSecondWithin};

use crate::index::CheckIndex;
use crate::part::Part;
use crate::sets::{is_subset, set_at};
use flow_graph::FlowGraph;
use lattice_core::Lattice;
use qual_base::{LatticeNo, VarId};

/// A certificate of a lattice, and the constraints of which it is said to be one, with what the rules look up of them.
#[derive(Clone, Copy)]
pub struct Claim<'a> {
    pub graph: &'a FlowGraph,
    pub index: &'a CheckIndex,
    pub lattice: &'a Lattice,
    pub at: LatticeNo,
    pub part: &'a Part,
}

/// Whether the first set of a variable is within that of another.
pub fn is_first_within(given: &Claim, one: VarId, other: VarId) -> bool
    ensures { IsTrue result ↔ IsFirstWithin given.now one other }
{
    let sets = given.part.first.as_slice();
    is_subset(set_at(sets, one), set_at(sets, other))
}

/// Whether the second set of a variable is within that of another.
pub fn is_second_within(given: &Claim, one: VarId, other: VarId) -> bool
    ensures { IsTrue result ↔ IsSecondWithin given.now one other }
{
    let sets = given.part.second.as_slice();
    is_subset(set_at(sets, one), set_at(sets, other))
}
