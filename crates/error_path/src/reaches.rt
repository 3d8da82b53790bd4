//! All that elements and variables lead to: a search for each. Those of elements that exceed bounds are kept for all bounds
//! that they exceed.

ghost use Rattle.std.specs.Prelude.{◌≡◌, ◌<◌, ◌↔◌, ℕ, length, slice_get, Some};
ghost use Rattle.std.specs.Prelude.{slice_index_or, IsTrue};
ghost use Rattle.std.specs.Prelude.{IfNone, IfOk, IfSome};
ghost use Rattle.flow_graph.specs.Index.{IsIndexOf};
ghost use Rattle.flow_graph.specs.System.{System, IsWellOwned};
ghost use Rattle.match_summary.specs.Crossings.{AreCrossings};
ghost use Rattle.match_summary.specs.Summary.{Summarises};
ghost use Rattle.flow_graph.specs.Leading.{GoesTo};
ghost use Rattle.error_path.specs.Marks.{size_of};
ghost use Rattle.error_path.specs.Reaching.{HasRoom};
ghost use Rattle.error_path.specs.Reaches.{AreFirsts, AreReaches, IsIn, IsInRoom};
ghost use Rattle.error_path.specs.Reaches.{IsFound, IsOf, IsReachOf, StandsIn};
ghost use Rattle.error_path.specs.Rooms.{nowhere, IsRoom};
ghost use Rattle.error_path.specs.declared.search.Origin.TheVariants.{Element};

use crate::marks::Marks;
use crate::passed::Passed;
use crate::room::{NOWHERE, Room, clear_found, set_firsts};
use crate::search::{Origin, Reached, search_from};
use flow_graph::{Adjacency, FlowGraph};
use match_summary::{Crossings, Summaries};
use qual_base::{Elem, LatticeNo, NoMemory, Numbered, VarId};
use std::alloc::Global;

/// All that the constants of an element, or a variable, lead to in a lattice, in the order of a search, and the first place
/// of each variable in it.
#[derive(Drop)]
pub struct Found {
    lattice: LatticeNo,
    origin: Origin,
    queue: Vec<Reached>,
    firsts: Vec<u32>,
}

/// All that a variable leads to, in the room of the search that found it.
#[derive(Drop)]
pub struct Reach {
    pub(crate) found: Found,
    marks: Marks,
    passed: Passed,
}

impl Found {
    /// The lattice of the search.
    pub(crate) fn lattice(&self) -> LatticeNo
        ensures { result ≡ self.now.lattice }
    {
        self.lattice
    }

    /// What is led to, in the order of the search.
    pub(crate) fn queue(&self) -> &[Reached]
        ensures { result.now ≡ self.now.queue.items }
    {
        self.queue.as_slice()
    }

    /// The first place of a variable, and `NOWHERE` where it has none. Constant time.
    fn first_of(&self, at: VarId) -> u32
        ensures { result ≡ slice_index_or self.now.firsts.items at nowhere }
    {
        match self.firsts.get(at.number() as usize) {
            Some(place) => *place,
            None => NOWHERE,
        }
    }

    /// The first place of a variable, where it is led to. Constant time.
    pub(crate) fn place_of(&self, at: VarId) -> Option<usize>
        requires { AreFirsts self.now.queue.items self.now.firsts.items }
        ensures found { IfSome result (λ place. StandsIn self.now.queue.items place at) }
        ensures none { IfNone result (IsIn self.now.queue.items at → ⊥) }
    {
        let place = self.first_of(at);
        if place == NOWHERE {
            None
        } else {
            Some(place as usize)
        }
    }

    /// Whether this is what an element leads to in a lattice.
    fn is_of(&self, lattice: LatticeNo, elem: Elem) -> bool
        ensures { IsTrue result →
            (self.now.lattice ≡ lattice) × (self.now.origin ≡ Element elem) }
    {
        match self.origin {
            Origin::Element(own) => own == elem && self.lattice == lattice,
            Origin::Variable(_) => false,
        }
    }
}

impl Reach {
    /// Whether a variable is led to. A variable leads to itself. Constant time.
    pub fn reaches(&self, to: VarId) -> bool
        ensures { (sys : System) (lattice start : ℕ) → IsWellOwned sys →
            IsReachOf sys lattice start self.now → (IsTrue result ↔ GoesTo sys lattice start to) }
    {
        self.found.first_of(to) != NOWHERE
    }

    /// The room of the search, with nothing set in it. Takes time linear in what the search reached and in the groups that it
    /// followed, and no memory.
    pub fn into_room(self) -> Room
        requires { (sys : System) × (lattice : ℕ) × (start : ℕ) × IsReachOf sys lattice start self }
        ensures { (sys : System) (lattice start : ℕ) →
            IsReachOf sys lattice start self → IsRoom sys result }
    {
        let mut marks = self.marks;
        let mut passed = self.passed;
        let mut firsts = self.found.firsts;
        clear_found(self.found.queue, &mut marks, &mut firsts);
        passed.clear();
        Room {
            marks,
            passed,
            firsts,
        }
    }
}

/// What the constants of an element or a variable lead to, in a room that has a place for the variable. Takes the time and the
/// memory of a search.
fn reach_in(
    room: Room,
    graph: &FlowGraph,
    index: &Adjacency,
    crossings: &Crossings,
    summaries: &Summaries,
    lattice: LatticeNo,
    origin: Origin,
) -> Result<Reach, NoMemory>
    requires room { IsRoom graph.now room }
    requires origin { HasRoom origin (size_of room.marks) }
    requires index { IsIndexOf graph.now index.now }
    requires crossings { AreCrossings graph.now crossings.now }
    requires lattice { lattice < 16 }
    requires summaries { Summarises graph.now lattice summaries.now }
    ensures found { IfOk result (λ reach. IsFound graph.now reach.found) }
    ensures room { IfOk result (IsInRoom graph.now) }
    ensures lattice { IfOk result (λ reach. reach.found.lattice ≡ lattice) }
    ensures origin { IfOk result (λ reach. reach.found.origin ≡ origin) }
{
    let mut passed = room.passed;
    let mut firsts = room.firsts;
    let search = search_from(
        *firsts.allocator(),
        room.marks,
        &mut passed,
        graph,
        index,
        crossings,
        summaries,
        lattice,
        &origin,
    )?;
    set_firsts(&mut firsts, search.queue.as_slice())?;
    Ok(Reach {
        found: Found {
            lattice,
            origin,
            queue: search.queue,
            firsts,
        },
        marks: search.marks,
        passed,
    })
}

/// All that a variable leads to in a lattice: itself, and each variable to which a path leads whose calls and returns match,
/// as far as it has both; the order of calls starts anew at a variable of nobody. Fails for want of memory alone.
///
/// It takes each variable once in each phase, with a step for each constraint that begins there. The groups of a site that
/// begin at one variable are followed once in each phase, with a step for each pair from that variable, and the `Leave`s of
/// the site from one variable once. What it does not reach takes no time. The room is the search's own from then on;
/// beside it the search takes an item for each variable and phase that it reaches, and 4 bytes for each site whose groups it
/// follows from a variable in a phase. Any variable may be the first: one for which the room has no place leads to itself
/// alone, and has a larger room made, for the variables up to it.
pub fn reach_from(
    room: Room,
    graph: &FlowGraph,
    index: &Adjacency,
    crossings: &Crossings,
    summaries: &Summaries,
    lattice: LatticeNo,
    start: VarId,
) -> Result<Reach, NoMemory>
    requires room { IsRoom graph.now room }
    requires index { IsIndexOf graph.now index.now }
    requires crossings { AreCrossings graph.now crossings.now }
    requires lattice { lattice < 16 }
    requires summaries { Summarises graph.now lattice summaries.now }
    ensures { IfOk result (IsReachOf graph.now lattice start) }
{
    let room = room.with(graph, start)?;
    reach_in(
        room,
        graph,
        index,
        crossings,
        summaries,
        lattice,
        Origin::Variable(start),
    )
}

/// What was asked for so far, each lattice and element once, so 1,024 at the most.
#[derive(Drop)]
pub struct Reaches {
    found: Vec<Found>,
}

impl Reaches {
    /// Nothing yet. Takes no memory.
    pub fn new(alloc: Global) -> Self
        ensures { (sys : System) → AreReaches sys result }
    {
        Reaches {
            found: Vec::new(alloc),
        }
    }

    /// The place of what an element leads to in a lattice, where it is kept. Linear in what is kept.
    fn find(&self, lattice: LatticeNo, elem: Elem) -> Option<usize>
        ensures { IfSome result (λ place. IsOf self.now place lattice (Element elem)) }
    {
        for place in 0..self.found.len() {
            let found = &self.found[place];
            if found.is_of(lattice, elem) {
                return Some(place);
            }
        }
        None
    }

    /// Keeps what an element leads to, and answers its place.
    fn keep(&mut self, found: Found) -> Result<usize, NoMemory>
        ensures kept { (sys : System) → AreReaches sys self.old → IsFound sys found →
            AreReaches sys self.new }
        ensures place { IfOk result (λ place. IsOf self.new place found.lattice found.origin) }
    {
        let place = self.found.len();
        self.found.push(found)?;
        Ok(place)
    }

    /// The place of what an element leads to in a lattice, which is searched for where it is not kept. The first time it takes
    /// the time and the memory of a search, later time linear in what is kept.
    pub fn ask(
        &mut self,
        alloc: Global,
        graph: &FlowGraph,
        index: &Adjacency,
        crossings: &Crossings,
        summaries: &Summaries,
        lattice: LatticeNo,
        elem: Elem,
    ) -> Result<usize, NoMemory>
        requires index { IsIndexOf graph.now index.now }
        requires crossings { AreCrossings graph.now crossings.now }
        requires lattice { lattice < 16 }
        requires summaries { Summarises graph.now lattice summaries.now }
        requires kept { AreReaches graph.now self.old }
        ensures kept { AreReaches graph.now self.new }
        ensures place { IfOk result (λ place. IsOf self.new place lattice (Element elem)) }
    {
        if let Some(place) = self.find(lattice, elem) {
            return Ok(place);
        }
        let room = Room::new(alloc, graph, 0)?;
        let reach = reach_in(
            room,
            graph,
            index,
            crossings,
            summaries,
            lattice,
            Origin::Element(elem),
        )?;
        self.keep(reach.found)
    }

    /// What is kept at a place.
    pub fn at(&self, place: usize) -> &Found
        requires { place < length self.now.found.items }
        ensures { slice_get self.now.found.items place ≡ Some result.now }
    {
        &self.found[place]
    }
}
