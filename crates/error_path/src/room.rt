//! The room of a search, which a later search may have when the earlier one is let go.

ghost use Rattle.std.specs.Prelude.{◌≡◌, ◌≢◌, ◌<◌, ◌≤◌, ◌⊎◌, ℕ, length, slice_index_or};
ghost use Rattle.std.specs.Prelude.{false, true, IfOk, OnOk};
ghost use Rattle.flow_graph.specs.declared.phase.Phase.{Phase};
ghost use Rattle.error_path.specs.Marks.{mark_of, size_of};
ghost use Rattle.error_path.specs.Reaches.{AreBelow, AreFirsts, IsIn};
ghost use Rattle.error_path.specs.Rooms.{nowhere, HasNoFirst, IsRoom};

use crate::marks::Marks;
use crate::passed::Passed;
use crate::search::Reached;
use flow_graph::FlowGraph;
use qual_base::{NoMemory, Numbered, VarId};
use std::alloc::Global;

/// What stands for no place.
pub const NOWHERE: u32 = 4_294_967_295;

/// What a search writes beside its queue: for each variable and phase whether it is reached, for each constraint and phase
/// whether the groups that it stands for were followed, and for each variable its first place in the queue. Of all that
/// nothing is set, so that a search finds nothing of an earlier one.
#[derive(Drop)]
pub struct Room {
    pub(crate) marks: Marks,
    pub(crate) passed: Passed,
    pub(crate) firsts: Vec<u32>,
}

impl Room {
    /// Room for searches of a graph from its variables and from those below a number. Fails for want of memory alone. Takes 6
    /// bytes for each of these variables and 2 for each constraint, and time linear in both.
    pub fn new(alloc: Global, graph: &FlowGraph, vars: u32) -> Result<Room, NoMemory>
        ensures room { IfOk result (IsRoom graph.now) }
        ensures vars { IfOk result (λ room. vars ≤ size_of room.marks) }
    {
        let vars = vars.max(graph.vars());
        let marks = Marks::new(alloc, vars)?;
        let passed = Passed::new(alloc, graph.len())?;
        let firsts = no_places(alloc, vars)?;
        Ok(Room {
            marks,
            passed,
            firsts,
        })
    }

    /// The same room, or a larger one where it has none for a variable. The last variable that there is has none, which is
    /// answered as want of memory. Constant time, or that of `new`.
    pub(crate) fn with(self, graph: &FlowGraph, at: VarId) -> Result<Room, NoMemory>
        requires { IsRoom graph.now self }
        ensures room { IfOk result (IsRoom graph.now) }
        ensures at { IfOk result (λ room. at < size_of room.marks) }
    {
        let number = at.number();
        if (number as usize) < self.firsts.len() {
            return Ok(self);
        }
        if number == NOWHERE {
            return Err(NoMemory);
        }
        Room::new(*self.firsts.allocator(), graph, number + 1)
    }
}

/// Places that are not set: 4 bytes for each variable.
fn no_places(alloc: Global, vars: u32) -> Result<Vec<u32>, NoMemory>
    ensures size { IfOk result (λ firsts. length firsts.items ≡ vars) }
    ensures none { IfOk result (λ firsts. HasNoFirst firsts.items) }
{
    match vec![in alloc; NOWHERE; vars as usize] {
        Ok(firsts) => Ok(firsts),
        Err(_) => Err(NoMemory),
    }
}

/// Gives a variable a place, where it has none. More places than `NOWHERE` are answered as want of memory. Constant time.
fn set_first(firsts: &mut [u32], at: VarId, place: usize) -> Result<(), NoMemory>
    requires { at < length firsts.old }
    ensures here { OnOk result (slice_index_or firsts.new at nowhere ≢ nowhere) }
    ensures others { OnOk result
        ((v : ℕ) → (slice_index_or firsts.new v nowhere ≡ slice_index_or firsts.old v nowhere)
        ⊎ ((v ≡ at) × (slice_index_or firsts.new v nowhere ≡ place))) }
    ensures kept { (v : ℕ) → slice_index_or firsts.old v nowhere ≢ nowhere →
        slice_index_or firsts.new v nowhere ≡ slice_index_or firsts.old v nowhere }
    ensures length { length firsts.new ≡ length firsts.old }
{
    if place >= NOWHERE as usize {
        return Err(NoMemory);
    }
    let index = at.number() as usize;
    if firsts[index] == NOWHERE {
        firsts[index] = place as u32;
    }
    Ok(())
}

/// Sets the first place of each variable in a queue, where no variable has one. Linear in the queue.
pub fn set_firsts(firsts: &mut [u32], queue: &[Reached]) -> Result<(), NoMemory>
    requires below { AreBelow (length firsts.old) queue.now }
    requires none { HasNoFirst firsts.old }
    ensures firsts { OnOk result (AreFirsts queue.now firsts.new) }
    ensures length { OnOk result (length firsts.new ≡ length firsts.old) }
{
    for place in 0..queue.len() {
        let at = queue[place].at;
        set_first(firsts, at, place)?;
    }
    Ok(())
}

/// Takes the place of a variable away; nothing happens for a variable past all.
fn clear_first(firsts: &mut [u32], at: VarId)
    ensures here { slice_index_or firsts.new at nowhere ≡ nowhere }
    ensures others { (v : ℕ) →
        v ≢ at → slice_index_or firsts.new v nowhere ≡ slice_index_or firsts.old v nowhere }
    ensures length { length firsts.new ≡ length firsts.old }
{
    let index = at.number() as usize;
    if index < firsts.len() {
        firsts[index] = NOWHERE;
    }
}

/// Takes all marks and places away, where each variable that has one is in a queue. Linear in the queue.
pub fn clear_found(queue: Vec<Reached>, marks: &mut Marks, firsts: &mut [u32])
    requires marked { (p : Phase) (v : ℕ) → mark_of marks.old p v ≡ true → IsIn queue.items v }
    requires placed { (v : ℕ) → slice_index_or firsts.old v nowhere ≢ nowhere → IsIn queue.items v }
    ensures unmarked { (p : Phase) (v : ℕ) → mark_of marks.new p v ≡ false }
    ensures none { HasNoFirst firsts.new }
    ensures size { size_of marks.new ≡ size_of marks.old }
    ensures length { length firsts.new ≡ length firsts.old }
{
    let mut queue = queue;
    while let Some(reached) = queue.pop() {
        marks.clear(reached.at);
        clear_first(firsts, reached.at);
    }
}
