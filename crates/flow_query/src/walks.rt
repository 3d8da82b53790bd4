//! The walks from constants to the variables that are asked of: all searches from constants are made before anything is written,
//! variable by variable of the constants, so that each of these is searched from once.

ghost use Rattle.std.specs.Prelude.{◌≡◌, ◌<◌, ◌∷◌, ◌++◌, [], ℕ, None, Some, IfOk, IfSome};
ghost use Rattle.std.specs.Prelude.{MatchOption, OnOk, length, slice_get};
ghost use Rattle.std.specs.List.{Contains};
ghost use Rattle.flow_query.specs.Ends.{IsThere};
ghost use Rattle.flow_query.specs.Searches.{IsFinder, IsFound, IsOf, IsSearchIn, IsSection};
ghost use Rattle.flow_query.specs.Walks.{walk_in, AllDone, AllWalks, AreSound, AreWalks, IsDone};
ghost use Rattle.flow_query.specs.Walks.{IsKept, IsPut, StartsDone, StaysDone};

use crate::ends::{Constant, ends_in, is_candidate, is_unreached};
use crate::searches::{Finder, Found, Search, Section, search_at, section_in, walk_to};
use flow_graph::Walk;
use lattice_core::Lattices;
use qual_base::{Elem, LatticeNo, NoMemory, Numbered, VarId};
use std::alloc::Global;
use std::collections::HashMap;
use walk_laws::leads_are_walks;

/// Walks in one lattice, each by the variable where it begins and the one where it ends.
#[derive(Drop)]
pub struct Walks {
    map: HashMap<(VarId, VarId), Walk>,
}

impl Walks {
    /// No walks. Takes no memory.
    pub fn new(alloc: Global) -> Self
        ensures { (u v : ℕ) → walk_in result.map u v ≡ None }
    {
        Walks {
            map: HashMap::new(alloc),
        }
    }

    /// The walk between two variables. Constant time.
    pub fn get(&self, from: VarId, to: VarId) -> Option<&Walk>
        ensures { MatchOption result (walk_in self.now.map from to ≡ None)
            (λ walk. walk_in self.now.map from to ≡ Some walk.now) }
    {
        self.map.get(&(from, to))
    }

    /// Keeps a walk between two variables. Constant time but for growth.
    fn insert(&mut self, from: VarId, to: VarId, walk: Walk) -> Result<(), NoMemory>
        ensures { OnOk result (IsPut self.old self.new from to walk) }
    {
        match self.map.insert((from, to), walk) {
            Ok(_) => Ok(()),
            Err(_) => Err(NoMemory),
        }
    }
}

/// Adds a walk to the variable that is asked of, where a search has reached it.
fn add_walk(
    alloc: Global,
    walks: &mut Walks,
    section: &Section<'_>,
    search: &Search,
) -> Result<(), NoMemory>
    requires section { IsSection section.now }
    requires search { IsSearchIn section.now search.now }
    requires sound { AreSound section.now.graph.now section.now.lattice walks.old }
    ensures sound { OnOk result (AreSound section.now.graph.now section.now.lattice walks.new) }
    ensures stays { OnOk result
        (StaysDone section.now.graph.now section.now.lattice walks.old walks.new) }
    ensures done { OnOk result (IsDone
        section.now.graph.now section.now.lattice walks.new search.now.start section.now.var) }
{
    leads_are_walks();
    if !search.reach.reaches(section.var) {
        return Ok(());
    }
    let walk = walk_to(alloc, section, search, section.var)?;
    walks.insert(search.start, section.var, walk)
}

/// Adds a walk from the variable of a constant to the one that is asked of, where there is one. A search, where the element of
/// the constant leads there and the finder does not keep that search. Answers the finder, which keeps the last search.
fn find_walk(
    alloc: Global,
    walks: &mut Walks,
    section: &Section<'_>,
    finder: Finder,
    at: VarId,
    elem: Elem,
) -> Result<Finder, NoMemory>
    requires section { IsSection section.now }
    requires finder { IsFinder section.now.graph.now finder }
    requires constant { IsThere section.now.graph.now section.now.lattice elem at }
    requires sound { AreSound section.now.graph.now section.now.lattice walks.old }
    ensures finder { IfOk result (IsFinder section.now.graph.now) }
    ensures sound { OnOk result (AreSound section.now.graph.now section.now.lattice walks.new) }
    ensures stays { OnOk result
        (StaysDone section.now.graph.now section.now.lattice walks.old walks.new) }
    ensures done { OnOk result
        (IsDone section.now.graph.now section.now.lattice walks.new at section.now.var) }
{
    if !is_candidate(section, at, elem) {
        return Ok(finder);
    }
    let search = search_at(section, finder, at)?;
    add_walk(alloc, walks, section, &search)?;
    Ok(Finder::Kept(search))
}

/// Adds the walks from the variable of a constant to variables. One search at most.
fn find_from(
    alloc: Global,
    walks: &mut Walks,
    found: &Found<'_>,
    lattice: LatticeNo,
    finder: Finder,
    at: VarId,
    elem: Elem,
    vars: &[VarId],
) -> Result<Finder, NoMemory>
    requires found { IsFound found.now }
    requires lattice { IsOf lattice found.now }
    requires finder { IsFinder found.now.graph.now finder }
    requires constant { IsThere found.now.graph.now lattice elem at }
    requires sound { AreSound found.now.graph.now lattice walks.old }
    ensures finder { IfOk result (IsFinder found.now.graph.now) }
    ensures sound { OnOk result (AreSound found.now.graph.now lattice walks.new) }
    ensures stays { OnOk result (StaysDone found.now.graph.now lattice walks.old walks.new) }
    ensures done { OnOk result
        (AllDone found.now.graph.now lattice walks.new at vars.now) }
{
    let mut finder = finder;
    for var in vars {
        let section = section_in(found, lattice, *var);
        finder = find_walk(alloc, walks, &section, finder, at, elem)?;
    }
    Ok(finder)
}

/// The same, where that was not done for the constant before, which has this variable.
fn find_next(
    alloc: Global,
    walks: &mut Walks,
    found: &Found<'_>,
    lattice: LatticeNo,
    finder: Finder,
    last: Option<VarId>,
    at: VarId,
    elem: Elem,
    vars: &[VarId],
) -> Result<Finder, NoMemory>
    requires found { IsFound found.now }
    requires lattice { IsOf lattice found.now }
    requires finder { IsFinder found.now.graph.now finder }
    requires constant { IsThere found.now.graph.now lattice elem at }
    requires sound { AreSound found.now.graph.now lattice walks.old }
    requires last { IfSome last
        (λ last. AllDone found.now.graph.now lattice walks.old last vars.now) }
    ensures finder { IfOk result (IsFinder found.now.graph.now) }
    ensures sound { OnOk result (AreSound found.now.graph.now lattice walks.new) }
    ensures stays { OnOk result (StaysDone found.now.graph.now lattice walks.old walks.new) }
    ensures done { OnOk result
        (AllDone found.now.graph.now lattice walks.new at vars.now) }
{
    if last == Some(at) {
        return Ok(finder);
    }
    find_from(alloc, walks, found, lattice, finder, at, elem, vars)
}

/// Adds the walks from the variables of constants, in whose order those of one variable follow one another, to variables. A search for
/// each of their variables at most.
fn find_all(
    alloc: Global,
    walks: &mut Walks,
    found: &Found<'_>,
    lattice: LatticeNo,
    finder: Finder,
    vars: &[VarId],
) -> Result<Finder, NoMemory>
    requires found { IsFound found.now }
    requires lattice { IsOf lattice found.now }
    requires finder { IsFinder found.now.graph.now finder }
    requires sound { AreSound found.now.graph.now lattice walks.old }
    ensures finder { IfOk result (IsFinder found.now.graph.now) }
    ensures sound { OnOk result (AreSound found.now.graph.now lattice walks.new) }
    ensures done { OnOk result (StartsDone found.now.graph.now lattice walks.new vars.now) }
{
    let mut finder = finder;
    let mut last = None;
    let starts = ends_in(found.ends, lattice).starts.as_slice();
    for start in starts {
        let Constant { at, elem } = *start;
        finder = find_next(alloc, walks, found, lattice, finder, last, at, elem, vars)?;
        last = Some(at);
    }
    Ok(finder)
}

/// Keeps a variable, where some element of the lattice leads to it.
fn keep_reached(
    kept: &mut Vec<VarId>,
    found: &Found<'_>,
    lattice: LatticeNo,
    var: VarId,
) -> Result<(), NoMemory>
    requires found { IsFound found.now }
    requires lattice { IsOf lattice found.now }
    ensures kept { OnOk result ((v : ℕ) → Contains kept.old.items v → Contains kept.new.items v) }
    ensures var { OnOk result (IsKept found.now.graph.now lattice kept.new.items var) }
{
    if is_unreached(&section_in(found, lattice, var)) {
        return Ok(());
    }
    kept.push(var)?;
    Ok(())
}

/// The variables to which some element of the lattice leads: no constant leads to another one. Linear in the variables.
fn reached_of(
    alloc: Global,
    found: &Found<'_>,
    lattice: LatticeNo,
    vars: &[VarId],
) -> Result<Vec<VarId>, NoMemory>
    requires found { IsFound found.now }
    requires lattice { IsOf lattice found.now }
    ensures { IfOk result (λ kept. (v : ℕ) → Contains vars.now v →
        IsKept found.now.graph.now lattice kept.items v) }
{
    let mut kept = Vec::new(alloc);
    for var in vars {
        keep_reached(&mut kept, found, lattice, *var)?;
    }
    Ok(kept)
}

/// Adds the walks of one more lattice. Answers the finder.
fn push_walks(
    alloc: Global,
    all: &mut Vec<Walks>,
    found: &Found<'_>,
    lattice: LatticeNo,
    finder: Finder,
    vars: &[VarId],
) -> Result<Finder, NoMemory>
    requires found { IsFound found.now }
    requires lattice { IsOf lattice found.now }
    requires finder { IsFinder found.now.graph.now finder }
    ensures finder { IfOk result (IsFinder found.now.graph.now) }
    ensures pushed { OnOk result ((walks : Walks) × (all.new.items ≡ all.old.items ++ walks ∷ [])
        × AreWalks found.now.graph.now lattice vars.now walks) }
{
    let mut walks = Walks::new(alloc);
    let reached = reached_of(alloc, found, lattice, vars)?;
    let finder = find_all(alloc, &mut walks, found, lattice, finder, &reached)?;
    all.push(walks)?;
    Ok(finder)
}

/// The walks of each lattice, in order, to variables from the variables of the constants that lead there. In each lattice a look at
/// each of its constants for each variable to which some element leads, and a search for each variable of a constant whose element
/// leads to one of them, as `error_path::reach_from` says; each walk takes time and memory linear in its steps. Answers the finder.
pub fn add_all_walks(
    alloc: Global,
    all: &mut Vec<Walks>,
    found: &Found<'_>,
    lattices: &Lattices,
    finder: Finder,
    vars: &[VarId],
) -> Result<Finder, NoMemory>
    requires found { IsFound found.now }
    requires count { length found.now.solutions.now ≡ length lattices.now }
    requires none { all.old.items ≡ [] }
    requires finder { IsFinder found.now.graph.now finder }
    ensures finder { IfOk result (IsFinder found.now.graph.now) }
    ensures walks { OnOk result
        (AllWalks found.now.graph.now (length lattices.now) vars.now all.new.items) }
{
    let mut finder = finder;
    for n in 0..lattices.len() {
        finder = push_walks(alloc, all, found, LatticeNo::new(n), finder, vars)?;
    }
    Ok(finder)
}

/// The walks of a lattice.
pub fn walks_in(all: &[Walks], lattice: LatticeNo) -> &Walks
    requires { lattice < length all.now }
    ensures { slice_get all.now lattice ≡ Some result.now }
{
    &all[usize::from(lattice.number())]
}
