//! What the index words of a declared name give.
#![tactic(auto, using(crate::proofs::Lists::with_none, crate::proofs::Lists::with_append, crate::proofs::Lists::stop_front, crate::proofs::Lists::stop_back, crate::proofs::Lists::stop_first))]

ghost use Rattle.std.specs.Prelude.{◌≡◌, ◌+◌, ◌≤◌, ◌^◌, [], map, drop, length, IfErr, OnOk};
ghost use Rattle.flow_rules.specs.Adding.{with};
ghost use Rattle.type_table.specs.Types.{pointer};
ghost use Rattle.lattice_core.specs.View.{LatticeView};
ghost use Rattle.qual_types.specs.Table.{IsVar};
ghost use Rattle.row_rules.specs.Worlds.{World};
ghost use Rattle.row_rules.specs.Indexing as rules;
ghost use Rattle.row_world.specs.Shown.{Shows, skel, type};
ghost use Rattle.row_adding.specs.Adding.{StopsEarly, Adds, Halts};
ghost use Rattle.row_adding.specs.Indexing.{indexed_of, AreVars};
ghost use Rattle.row_adding.specs.Indexing.{below_one, below_in, all_below_in};

use crate::bounds::alone;
use crate::collecting::collected;
use crate::flows::add;
use crate::indexed::{IndexedNode, IndexedNodes, is_below};
use crate::marks::word_span;
use flow_graph::{FlowGraph, GraphFault, Link};
use lattice_core::{Lattice, Lattices, Level};
use qual_base::{Elem, LatticeNo, NoMemory, SkelId, TypeId};
use row_world::Known;
use std::alloc::Global;

/// Whether a lattice is one of values: one whose first element is no reference.
fn is_value_lattice(lattice: &Lattice) -> bool
    ensures { result ≡ rules.is_value_lattice lattice.now }
{
    lattice.law();
    if lattice.size() == 0 {
        return true;
    }
    match lattice.entry(Elem::new(0)).level {
        Level::Ref => false,
        Level::Value => true,
    }
}

/// The lattices of values from one on, a bit for each. In at most 16 steps.
#[cycle(values)]
#[tactic(auto, using(crate::proofs::Comparing::value_here, crate::proofs::Comparing::none_here, crate::proofs::Comparing::no_more, crate::proofs::Cutting::doubled))]
fn value_lattices_from(lattices: &Lattices, n: u8) -> u16
    requires { n ≤ 16 }
    ensures is { result ≡ rules.value_lattices_from n (drop n lattices.now) }
    ensures few { result + 2 ^ n ≤ 2 ^ 16 }
{
    if n >= lattices.len() {
        return 0;
    }
    let others = value_lattices_from(lattices, n + 1);
    let lattice = LatticeNo::new(n);
    if is_value_lattice(lattices.get(lattice)) {
        others + alone(lattice)
    } else {
        others
    }
}

/// The lattices of values, a bit for each. In at most 16 steps.
fn value_lattices(known: &Known) -> u16
    ensures { (w : World) → Shows known.now w → result ≡ rules.value_lattices w }
{
    value_lattices_from(known.lattices, 0)
}

/// A node is below another, where that is so.
fn add_one(
    graph: &mut FlowGraph,
    lattices: u16,
    it: &IndexedNode,
    other: &IndexedNode,
) -> Result<(), GraphFault>
    requires it { IsVar it.now.var }
    requires other { IsVar other.now.var }
    ensures ok { OnOk result (graph.new ≡ with graph.old
        (below_one lattices (indexed_of it.now) (indexed_of other.now))) }
    ensures err { IfErr result (λ fault. StopsEarly graph.old graph.new fault
        (below_one lattices (indexed_of it.now) (indexed_of other.now))) }
{
    if is_below(it, other) {
        add(
            graph,
            lattices,
            &word_span(&it.word),
            Link::Le(it.var, other.var),
        )
    } else {
        Ok(())
    }
}

/// A node is below each of some whose numbers have its own among them. A step for each of them, and each of its numbers and
/// theirs.
fn add_each(
    graph: &mut FlowGraph,
    lattices: u16,
    it: &IndexedNode,
    others: &[IndexedNode],
) -> Result<(), GraphFault>
    requires it { IsVar it.now.var }
    requires others { AreVars others.now }
    ensures ok { OnOk result (graph.new ≡ with graph.old
        (below_in lattices (indexed_of it.now) (map indexed_of others.now))) }
    ensures err { IfErr result (λ fault. StopsEarly graph.old graph.new fault
        (below_in lattices (indexed_of it.now) (map indexed_of others.now))) }
{
    for other in others {
        add_one(graph, lattices, it, other)?;
    }
    Ok(())
}

/// Each of some nodes is below each whose numbers have its own among them. A step for each two of them, and each two of their
/// numbers.
fn add_all(graph: &mut FlowGraph, lattices: u16, nodes: &[IndexedNode]) -> Result<(), GraphFault>
    requires { AreVars nodes.now }
    ensures ok { OnOk result (graph.new ≡ with graph.old
        (all_below_in lattices (map indexed_of nodes.now) (map indexed_of nodes.now))) }
    ensures err { IfErr result (λ fault. StopsEarly graph.old graph.new fault
        (all_below_in lattices (map indexed_of nodes.now) (map indexed_of nodes.now))) }
{
    for it in nodes {
        add_each(graph, lattices, it, nodes)?;
    }
    Ok(())
}

/// Nodes of one declaration, in the lattices of values.
#[tactic(auto, using(crate::proofs::Comparing::below_all_added, crate::proofs::Comparing::below_all_stops))]
fn add_nodes(known: &Known, graph: &mut FlowGraph, nodes: &IndexedNodes) -> Result<(), GraphFault>
    ensures ok { OnOk result (Adds known.now graph.old graph.new
        (λ w. rules.below_all w nodes.now nodes.now)) }
    ensures err { IfErr result (λ fault. Halts known.now graph.old graph.new fault
        (λ w. rules.below_all w nodes.now nodes.now)) }
{
    add_all(graph, value_lattices(known), nodes.items())
}

/// What the index words of a place of a type give: each node with index words is below each other one whose numbers have its
/// own among them. Constant time where there is no index word at all. Else linear in the type, but for those nodes: a step for
/// each two of them, and each two of their numbers.
pub(crate) fn index_place(
    alloc: Global,
    known: &Known,
    graph: &mut FlowGraph,
    ty: TypeId,
    at: SkelId,
) -> Result<(), GraphFault>
    ensures ok { OnOk result (Adds known.now graph.old graph.new
        (λ w. rules.indexing w (pointer [] (type known.now ty)) (skel known.now at))) }
    ensures err { IfErr result (λ fault. Halts known.now graph.old graph.new fault
        (λ w. rules.indexing w (pointer [] (type known.now ty)) (skel known.now at))) }
{
    match collected(alloc, known, ty, at) {
        Ok(nodes) => add_nodes(known, graph, &nodes),
        Err(NoMemory) => Err(GraphFault::NoMemory),
    }
}
