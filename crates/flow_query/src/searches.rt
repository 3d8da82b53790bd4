//! A variable in a lattice, and the searches that are made for it.

ghost use Rattle.std.specs.Prelude.{◌≡◌, IfOk};
ghost use Rattle.flow_graph.specs.Leading.{GoesTo};
ghost use Rattle.error_path.specs.Rooms.{IsRoom};
ghost use Rattle.flow_query.specs.Answers.{IsWalkTo};
ghost use Rattle.flow_query.specs.Searches.{IsFinder, IsFound, IsOf, IsSearchIn, IsSection};
ghost use Rattle.flow_query.specs.Searches.{KeepsOnly};

use crate::ends::{Ends, ends_in};
use annotate::{Solved, solved_of};
use error_path::{Reach, Room, reach_from};
use flow_graph::{FlowGraph, Walk};
use qual_base::{LatticeNo, NoMemory, VarId};
use std::alloc::Global;
use walk_laws::walk_shown;

/// A variable in a lattice, with what was found of the lattice.
#[derive(Clone, Copy)]
pub struct Section<'a> {
    pub graph: &'a FlowGraph,
    pub solved: &'a Solved,
    pub ends: &'a Ends,
    pub lattice: LatticeNo,
    pub var: VarId,
}

/// What was found of a graph in each lattice, and the constants and bounds of each.
#[derive(Clone, Copy)]
pub struct Found<'a> {
    pub graph: &'a FlowGraph,
    pub solutions: &'a [Solved],
    pub ends: &'a [Ends],
}

/// A variable in a lattice.
pub fn section_in<'a>(found: &Found<'a>, lattice: LatticeNo, var: VarId) -> Section<'a>
    requires found { IsFound found.now }
    requires lattice { IsOf lattice found.now }
    ensures section { IsSection result }
    ensures graph { result.graph.now ≡ found.now.graph.now }
    ensures lattice { result.lattice ≡ lattice }
    ensures var { result.var ≡ var }
{
    Section {
        graph: found.graph,
        solved: solved_of(found.solutions, lattice),
        ends: ends_in(found.ends, lattice),
        lattice,
        var,
    }
}

/// All that a variable leads to in a lattice.
#[derive(Drop)]
pub struct Search {
    pub lattice: LatticeNo,
    pub start: VarId,
    pub reach: Reach,
}

/// The room for searches, or the last search with the room that it has.
#[derive(Drop)]
pub enum Finder {
    Idle(Room),
    Kept(Search),
}

/// The finder with the search that it keeps, where that is of this lattice and variable; else with its room idle. Takes the time
/// of `error_path::Reach::into_room`.
fn only_of(section: &Section<'_>, finder: Finder, start: VarId) -> Finder
    requires { IsFinder section.now.graph.now finder }
    ensures finder { IsFinder section.now.graph.now result }
    ensures only { KeepsOnly section.now.lattice start result }
{
    match finder {
        Finder::Idle(room) => Finder::Idle(room),
        Finder::Kept(search) => {
            if search.lattice == section.lattice && search.start == start {
                Finder::Kept(search)
            } else {
                Finder::Idle(search.reach.into_room())
            }
        }
    }
}

/// All that a variable leads to: what is kept, where that is of this lattice and variable; else it is searched for, in the room
/// of what was kept. `error_path::reach_from` says the time and the memory of a search.
pub fn search_at(section: &Section<'_>, finder: Finder, start: VarId) -> Result<Search, NoMemory>
    requires section { IsSection section.now }
    requires finder { IsFinder section.now.graph.now finder }
    ensures search { IfOk result (IsSearchIn section.now) }
    ensures start { IfOk result (λ search. search.start ≡ start) }
{
    match only_of(section, finder, start) {
        Finder::Kept(search) => Ok(search),
        Finder::Idle(room) => search_in(section, room, start),
    }
}

/// All that a variable leads to, searched for in a room.
fn search_in(section: &Section<'_>, room: Room, start: VarId) -> Result<Search, NoMemory>
    requires section { IsSection section.now }
    requires room { IsRoom section.now.graph.now room }
    ensures search { IfOk result (IsSearchIn section.now) }
    ensures start { IfOk result (λ search. search.start ≡ start) }
{
    let solver = &section.solved.solver;
    let reach = reach_from(
        room,
        section.graph,
        solver.index(),
        solver.crossings(),
        &section.solved.summaries,
        section.lattice,
        start,
    )?;
    Ok(Search {
        lattice: section.lattice,
        start,
        reach,
    })
}

/// A walk to a variable that is led to. Linear in its steps and those of its sub-paths.
pub fn walk_to(
    alloc: Global,
    section: &Section<'_>,
    search: &Search,
    to: VarId,
) -> Result<Walk, NoMemory>
    requires section { IsSection section.now }
    requires search { IsSearchIn section.now search.now }
    requires goes { GoesTo section.now.graph.now section.now.lattice search.now.start to }
    ensures { IfOk result
        (IsWalkTo section.now.graph.now section.now.lattice search.now.start to) }
{
    walk_shown();
    search
        .reach
        .walk(alloc, section.graph, &section.solved.summaries, to)
}
