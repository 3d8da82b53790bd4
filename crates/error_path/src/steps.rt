//! Steps of a path that is written from its end to its beginning.

ghost use Rattle.std.specs.Prelude.{◌≡◌, ◌<◌, [], ◌∷◌, ◌++◌, OnOk, length};
ghost use Rattle.flow_graph.specs.declared.proof.PathStep.TheVariants.{Take};
ghost use Rattle.error_path.specs.Made.{group_steps, Fronts, IsInner};

use flow_graph::{FlowGraph, PathStep};
use qual_base::{EdgeId, NoMemory, VarId};

/// A variable, and one that a path inside its function leads to.
#[derive(Clone, Copy, PartialEq, Eq, Debug)]
pub struct Pair {
    pub from: VarId,
    pub to: VarId,
}

/// Adds a step. Constant time but for growth.
fn push(steps: &mut Vec<PathStep>, step: PathStep) -> Result<(), NoMemory>
    ensures { OnOk result (Fronts (step ∷ []) steps.old.items steps.new.items) }
{
    match steps.push(step) {
        Ok(()) => Ok(()),
        Err(_) => Err(NoMemory),
    }
}

/// Adds a step that takes a constraint.
pub fn push_take(steps: &mut Vec<PathStep>, edge: EdgeId) -> Result<(), NoMemory>
    ensures { OnOk result (Fronts (Take edge 0 ∷ []) steps.old.items steps.new.items) }
{
    push(steps, PathStep::Take { edge, line: 0 })
}

/// Adds the steps of a group from its `Leave` to its `Enter`.
pub fn push_group(
    steps: &mut Vec<PathStep>,
    enter: EdgeId,
    number: Option<u32>,
    leave: EdgeId,
) -> Result<(), NoMemory>
    ensures { OnOk result
        (Fronts (group_steps enter number leave) steps.old.items steps.new.items) }
{
    push_take(steps, leave)?;
    match number {
        Some(number) => push_through(steps, enter, number),
        None => push_take(steps, enter),
    }
}

/// Adds the number of a sub-path, and the `Enter` in front of it.
fn push_through(steps: &mut Vec<PathStep>, enter: EdgeId, number: u32) -> Result<(), NoMemory>
    ensures { OnOk result
        (Fronts (Take enter 0 ∷ Rattle.flow_graph.specs.declared.proof.PathStep.TheVariants.Sub
        number 0 ∷ []) steps.old.items steps.new.items) }
{
    push(steps, PathStep::Sub { number, line: 0 })?;
    push_take(steps, enter)
}

/// The variables inside a group: where its `Enter` ends and where its `Leave` begins.
pub fn inner_ends(graph: &FlowGraph, enter: EdgeId, leave: EdgeId) -> Pair
    requires enter { enter < length graph.now.constraints }
    requires leave { leave < length graph.now.constraints }
    ensures { IsInner graph.now enter leave result }
{
    let first = graph.constraint(enter);
    let last = graph.constraint(leave);
    let from = first.link.end();
    let to = last.link.begin().unwrap_or(from);
    Pair { from, to }
}
