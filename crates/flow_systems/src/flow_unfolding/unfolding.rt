//! The least assignment that rises along the constraints of an unfolding, and whether it keeps the bounds.

ghost use Rattle.std.specs.Prelude.{◌≡◌, ℕ, ◌<◌, length, IfOk, OnOk, MatchBool, List};
ghost use Rattle.std.specs.Bool.{OnFalse};
ghost use Rattle.lattice_core.specs.Order.{IsLattice};
ghost use Rattle.flow_graph.specs.Unfolding;
ghost use Rattle.flow_graph.specs.Unfolding.{Meets, Rises, NamesElementsIn};
ghost use Rattle.flow_systems.specs.FlowUnfolding.Assignment.{map_of};
ghost use Rattle.flow_systems.specs.FlowUnfolding.Strings.{HasAll};
ghost use Rattle.flow_systems.specs.FlowUnfolding.Meeting;
ghost use Rattle.flow_systems.specs.FlowUnfolding.Meeting.{IsLow, AgreesAt, AgreesUpTo, AgreesBelow};
ghost use Rattle.flow_systems.specs.FlowUnfolding.Meeting.{AreElements, KeepsAt, KeepsUpTo, KeepsBelow, IsOver};
ghost use Rattle.flow_systems.specs.FlowUnfolding.Meeting.{IsUnmet};

use crate::flow_unfolding::assignment::Assignment;
use crate::flow_unfolding::copies::{behind, is_copy, seen_from, stands};
use crate::flow_unfolding::strings::{CallString, all_strings};
use flow_graph::{FlowGraph, Link, names_elements};
use lattice_core::Lattice;
use qual_base::{EdgeId, Elem, LatticeNo, NoMemory, Numbered, SiteId, VarId};
use std::alloc::Global;

/// The element of a variable as it is met from a copy of a function.
fn element_at(map: &Assignment, graph: &FlowGraph, var: VarId, sites: &[SiteId]) -> Elem
    ensures { result ≡ Unfolding.at graph.now (map_of map.now) var sites.now }
{
    map.get(var, seen_from(graph.owner(var), sites))
}

/// The copy from which the end of a link is met.
fn end_sites(link: Link, sites: &[SiteId]) -> &[SiteId]
    ensures { result.now ≡ Meeting.end_sites link sites.now }
{
    match link {
        Link::Le(_, _) => sites,
        Link::Const(_, _, _) => sites,
        Link::Bound(_, _, _) => sites,
        Link::Enter(_, _, _) => sites,
        Link::Leave(_, _, _) => behind(sites),
    }
}

/// The element at which a link begins. A bound asks nothing of its variable but what that has.
fn begin_element(map: &Assignment, graph: &FlowGraph, link: Link, sites: &[SiteId]) -> Elem
    ensures { result ≡ Meeting.begin_element graph.now (map_of map.now) link sites.now }
{
    match link {
        Link::Le(from, _) => element_at(map, graph, from, sites),
        Link::Const(_, elem, _) => elem,
        Link::Bound(at, _, _) => element_at(map, graph, at, sites),
        Link::Enter(_, from, _) => element_at(map, graph, from, behind(sites)),
        Link::Leave(_, from, _) => element_at(map, graph, from, sites),
    }
}

/// Raises the end of a constraint in one copy, and says whether it has changed.
fn step(
    alloc: Global,
    graph: &FlowGraph,
    lattice_no: LatticeNo,
    lattice: &Lattice,
    depth: u32,
    at: EdgeId,
    sites: &[SiteId],
    map: &mut Assignment,
) -> Result<bool, NoMemory>
    requires lattice { lattice_no < 16 }
    requires order { IsLattice lattice.now.order }
    requires named { NamesElementsIn graph.now lattice_no lattice.now.order }
    requires at { at < length graph.now.constraints }
    requires low { IsLow graph.now lattice_no lattice.now.order depth (map_of map.old) }
    ensures low { OnOk result
        (IsLow graph.now lattice_no lattice.now.order depth (map_of map.new)) }
    ensures same { IfOk result (λ grew. OnFalse grew (map.new ≡ map.old)) }
    ensures agrees { IfOk result (λ grew. OnFalse grew
        (AgreesAt graph.now lattice_no lattice.now.order depth (map_of map.old) at sites.now)) }
{
    let constraint = graph.constraint(at);
    if !constraint.is_in(lattice_no) {
        return Ok(false);
    }
    if !stands(graph, depth, constraint.link, sites) {
        return Ok(false);
    }
    let elem = begin_element(map, graph, constraint.link, sites);
    let end = constraint.link.end();
    let copy = seen_from(graph.owner(end), end_sites(constraint.link, sites));
    map.raise(alloc, lattice, end, copy, elem)
}

/// Raises the end of a constraint in each copy, and says whether one has changed.
fn turn_at(
    alloc: Global,
    graph: &FlowGraph,
    lattice_no: LatticeNo,
    lattice: &Lattice,
    depth: u32,
    at: EdgeId,
    strings: &[CallString],
    map: &mut Assignment,
) -> Result<bool, NoMemory>
    requires lattice { lattice_no < 16 }
    requires order { IsLattice lattice.now.order }
    requires named { NamesElementsIn graph.now lattice_no lattice.now.order }
    requires at { at < length graph.now.constraints }
    requires low { IsLow graph.now lattice_no lattice.now.order depth (map_of map.old) }
    ensures low { OnOk result
        (IsLow graph.now lattice_no lattice.now.order depth (map_of map.new)) }
    ensures same { IfOk result (λ grew. OnFalse grew (map.new ≡ map.old)) }
    ensures agrees { IfOk result (λ grew. OnFalse grew (AgreesUpTo graph.now
        lattice_no lattice.now.order depth (map_of map.old) at strings.now (length strings.now))) }
{
    let mut grew = false;
    for string in strings {
        if step(
            alloc,
            graph,
            lattice_no,
            lattice,
            depth,
            at,
            string.sites(),
            map,
        )? {
            grew = true;
        }
    }
    Ok(grew)
}

/// Raises the end of each constraint in each copy, and says whether one has changed.
fn turn(
    alloc: Global,
    graph: &FlowGraph,
    lattice_no: LatticeNo,
    lattice: &Lattice,
    depth: u32,
    strings: &[CallString],
    map: &mut Assignment,
) -> Result<bool, NoMemory>
    requires lattice { lattice_no < 16 }
    requires order { IsLattice lattice.now.order }
    requires named { NamesElementsIn graph.now lattice_no lattice.now.order }
    requires low { IsLow graph.now lattice_no lattice.now.order depth (map_of map.old) }
    ensures low { OnOk result
        (IsLow graph.now lattice_no lattice.now.order depth (map_of map.new)) }
    ensures same { IfOk result (λ grew. OnFalse grew (map.new ≡ map.old)) }
    ensures agrees { IfOk result (λ grew. OnFalse grew (AgreesBelow graph.now lattice_no
        lattice.now.order depth (map_of map.old) strings.now (length graph.now.constraints))) }
{
    let mut grew = false;
    for n in 0..graph.len() {
        if turn_at(
            alloc,
            graph,
            lattice_no,
            lattice,
            depth,
            EdgeId::new(n),
            strings,
            map,
        )? {
            grew = true;
        }
    }
    Ok(grew)
}

/// Turns over all constraints and copies until nothing changes.
fn raise_all(
    alloc: Global,
    graph: &FlowGraph,
    lattice_no: LatticeNo,
    lattice: &Lattice,
    depth: u32,
    strings: &[CallString],
    map: &mut Assignment,
) -> Result<(), NoMemory>
    requires lattice { lattice_no < 16 }
    requires order { IsLattice lattice.now.order }
    requires named { NamesElementsIn graph.now lattice_no lattice.now.order }
    requires all { HasAll strings.now (length graph.now.sites) depth }
    requires low { IsLow graph.now lattice_no lattice.now.order depth (map_of map.old) }
    ensures low { OnOk result
        (IsLow graph.now lattice_no lattice.now.order depth (map_of map.new)) }
    ensures rises { OnOk result
        (Rises graph.now lattice_no lattice.now.order depth (map_of map.new)) }
{
    for _ in 0..u64::MAX {
        let grew = turn(alloc, graph, lattice_no, lattice, depth, strings, map)?;
        if !grew {
            return Ok(());
        }
    }
    Err(NoMemory)
}

/// Whether an assignment keeps a bound in one copy. True of any constraint but a bound of the lattice.
fn keeps_at(
    graph: &FlowGraph,
    lattice_no: LatticeNo,
    lattice: &Lattice,
    depth: u32,
    at: EdgeId,
    sites: &[SiteId],
    map: &Assignment,
) -> bool
    requires lattice { lattice_no < 16 }
    requires named { NamesElementsIn graph.now lattice_no lattice.now.order }
    requires at { at < length graph.now.constraints }
    requires elements { AreElements lattice.now.order (map_of map.now) }
    ensures { MatchBool result
        (KeepsAt graph.now lattice_no lattice.now.order depth (map_of map.now) at sites.now)
        (IsOver graph.now lattice_no lattice.now.order depth (map_of map.now)) }
{
    let constraint = graph.constraint(at);
    let Some(limit) = constraint.bound_in(lattice_no) else {
        return true;
    };
    if !is_copy(graph, depth, graph.owner(limit.at), sites) {
        return true;
    }
    lattice.leq(element_at(map, graph, limit.at, sites), limit.elem)
}

/// Whether an assignment keeps a bound in each copy.
fn keeps_bound(
    graph: &FlowGraph,
    lattice_no: LatticeNo,
    lattice: &Lattice,
    depth: u32,
    at: EdgeId,
    strings: &[CallString],
    map: &Assignment,
) -> bool
    requires lattice { lattice_no < 16 }
    requires named { NamesElementsIn graph.now lattice_no lattice.now.order }
    requires at { at < length graph.now.constraints }
    requires elements { AreElements lattice.now.order (map_of map.now) }
    ensures { MatchBool result (KeepsUpTo graph.now lattice_no lattice.now.order depth
        (map_of map.now) at strings.now (length strings.now))
        (IsOver graph.now lattice_no lattice.now.order depth (map_of map.now)) }
{
    for string in strings {
        if !keeps_at(graph, lattice_no, lattice, depth, at, string.sites(), map) {
            return false;
        }
    }
    true
}

/// Whether an assignment keeps each bound in each copy.
fn keeps_bounds(
    graph: &FlowGraph,
    lattice_no: LatticeNo,
    lattice: &Lattice,
    depth: u32,
    strings: &[CallString],
    map: &Assignment,
) -> bool
    requires lattice { lattice_no < 16 }
    requires named { NamesElementsIn graph.now lattice_no lattice.now.order }
    requires elements { AreElements lattice.now.order (map_of map.now) }
    ensures { MatchBool result (KeepsBelow graph.now lattice_no lattice.now.order depth
        (map_of map.now) strings.now (length graph.now.constraints))
        (IsOver graph.now lattice_no lattice.now.order depth (map_of map.now)) }
{
    for bound in 0..graph.len() {
        if !keeps_bound(
            graph,
            lattice_no,
            lattice,
            depth,
            EdgeId::new(bound),
            strings,
            map,
        ) {
            return false;
        }
    }
    true
}

/// Whether some assignment meets the unfolding of a system at a depth, in one lattice.
///
/// It takes the least element for each copy of each variable and raises them along the constraints, copy by copy,
/// until nothing changes; what comes out is at or below each assignment that meets the unfolding, so that one does
/// exactly where this one keeps the bounds. Where a constant or a bound names no element, none does.
///
/// There are about `sites` to the power of `depth` copies. A turn takes time in their number times that of the
/// constraints, times that of the changes so far; there are at most 64 changes for each copy of each variable, and as
/// many turns. Memory is that of the copies and the changes. Want of memory is answered too where 2^64 turns were not
/// enough.
pub fn is_met(
    alloc: Global,
    graph: &FlowGraph,
    lattice_no: LatticeNo,
    lattice: &Lattice,
    depth: u32,
) -> Result<bool, NoMemory>
    requires { lattice_no < 16 }
    ensures { IfOk result (λ met. MatchBool met
        ((map : Unfolding.Assignment) × Meets graph.now lattice_no lattice.now.order depth map)
        (IsUnmet graph.now lattice_no lattice.now.order depth)) }
{
    lattice.law();
    if !names_elements(graph, lattice_no, lattice) {
        return Ok(false);
    }
    let strings = all_strings(alloc, graph.sites(), depth)?;
    let mut map = Assignment::new(alloc, lattice.bottom());
    raise_all(alloc, graph, lattice_no, lattice, depth, &strings, &mut map)?;
    Ok(keeps_bounds(graph, lattice_no, lattice, depth, &strings, &map))
}
