//! The constraints of units, one unit behind the other.

ghost use Rattle.std.specs.Prelude.{◌≡◌, IfErr, OnOk};
ghost use Rattle.flow_rules.specs.Adding.{with};
ghost use Rattle.name_tables.specs.UnitSpelling.Spelled.{spelling_of};
ghost use Rattle.unit_types.specs.Resolved.{tape_of};
ghost use Rattle.row_world.specs.Shown.{Shows};
ghost use Rattle.row_adding.specs.Adding.{StopsEarly};
ghost use Rattle.unit_system.specs.Sharing.{IsShared, world_in, tape_rows, rows_on};

use crate::unit_rows::add_rows;
use flow_graph::{FlowGraph, GraphFault};
use index_words::Prelude;
use lattice_core::Lattices;
use name_state::found_names::FoundNames;
use name_tables::place_flags::PlaceFlags;
use name_tables::place_map::{PlaceIndex, PlaceMap};
use name_tables::unit_spelling::Spelling;
use qual_base::{Elem, LatticeNo, SiteId};
use qual_types::VarTable;
use row_world::Known;
use std::alloc::Global;
use unit_types::{Program, UnitTape};

/// What is known of a program while the constraints of its units are made, the same in all of them.
#[derive(Clone, Copy)]
pub(crate) struct Shared<'a> {
    pub(crate) program: &'a Program,
    pub(crate) names: &'a FoundNames,
    pub(crate) vars: &'a VarTable,
    /// The number of the skeleton that begins at a place.
    pub(crate) starts: &'a PlaceIndex,
    /// The call site at a place.
    pub(crate) sites: &'a PlaceMap<SiteId>,
    /// Which associations of the selection at a place are candidates.
    pub(crate) candidates: &'a PlaceFlags,
    pub(crate) lattices: &'a Lattices,
    /// The lattices with an element that bounds accesses, a bit for each.
    pub(crate) access: u16,
    /// The lattice and the element that the annotation word at a place names.
    pub(crate) marks: &'a PlaceMap<(LatticeNo, Elem)>,
    pub(crate) prelude: &'a Prelude,
}

impl<'a> Shared<'a> {
    /// What is known in a unit, by how that is spelled. Constant time.
    fn known(&self, spelling: &'a Spelling) -> Known<'a>
        requires { IsShared self.now }
        ensures { Shows result (world_in self.now (spelling_of spelling.now)) }
    {
        Known {
            types: self.program.types(),
            names: self.names,
            spelling,
            vars: self.vars,
            starts: self.starts,
            sites: self.sites,
            candidates: self.candidates,
            lattices: self.lattices,
            access: self.access,
            marks: self.marks,
            prelude: self.prelude,
        }
    }
}

/// Adds the constraints of a unit. Linear in its tape and in the constraints, but for what is looked for among the members of
/// structs.
fn add_unit<'a>(
    alloc: Global,
    shared: &Shared<'a>,
    graph: &mut FlowGraph,
    unit: &'a UnitTape,
) -> Result<(), GraphFault>
    requires { IsShared shared.now }
    ensures ok { OnOk result
        (graph.new ≡ with graph.old (tape_rows shared.now (tape_of unit.now))) }
    ensures err { IfErr result (λ fault.
        StopsEarly graph.old graph.new fault (tape_rows shared.now (tape_of unit.now))) }
{
    let known = shared.known(&unit.spelling);
    add_rows(alloc, &known, graph, &unit.ops)
}

/// Adds the constraints of all units, in their order. Linear in the tapes and in the constraints, but for what is looked for among
/// the members of structs.
pub(crate) fn add_units(
    alloc: Global,
    shared: &Shared,
    graph: &mut FlowGraph,
) -> Result<(), GraphFault>
    requires { IsShared shared.now }
    ensures ok { OnOk result (graph.new ≡ with graph.old (rows_on shared.now)) }
    ensures err { IfErr result (λ fault.
        StopsEarly graph.old graph.new fault (rows_on shared.now)) }
{
    let units = shared.program.units();
    for unit in units {
        add_unit(alloc, shared, graph, unit)?;
    }
    Ok(())
}
