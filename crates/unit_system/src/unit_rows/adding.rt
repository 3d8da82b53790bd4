//! The loop over a tape.

ghost use Rattle.std.specs.Prelude.{◌≡◌, IfErr, OnOk};
ghost use Rattle.flow_graph.specs.declared.graph.GraphFault.TheVariants as faults;
ghost use Rattle.row_rules.specs.RowSteps.Found.{unit_rows};
ghost use Rattle.row_rules.specs.RowSteps.Steps as steps;
ghost use Rattle.row_adding.specs.Adding.{Adds, Halts};
ghost use Rattle.skel_steps.specs.Stepping.{Steps};

use crate::unit_rows::rows::add_row;
use flow_graph::{FlowGraph, GraphFault};
use row_world::Known;
use skel_steps::skel_stacks::Stacks;
use skel_steps::step;
use std::alloc::Global;
use tape_ops::Op;

/// What an op does to the stacks. Constant time for each operand that it takes, and linear in the members of the struct that it
/// takes one of.
fn pass(known: &Known, stacks: &mut Stacks, op: &Op) -> Result<(), GraphFault>
    ensures ok { OnOk result
        (Steps known.now (λ w st. steps.step w st op.now) stacks.old stacks.new) }
    ensures err { IfErr result (λ fault. fault ≡ faults.NoMemory) }
{
    match step(known, stacks, op) {
        Ok(()) => Ok(()),
        Err(_) => Err(GraphFault::NoMemory),
    }
}

/// Adds the constraints that a tape gives, in order. Linear in the tape and in the constraints, but for members of structs, each
/// of which is looked for among those of its struct. Memory is linear in the depth of expressions and of what is around them.
///
/// TooMany says that there is no place for all of them; of the list some stand in the graph then, from the first on, and for
/// want of memory likewise.
pub fn add_rows(
    alloc: Global,
    known: &Known,
    graph: &mut FlowGraph,
    tape: &[Op],
) -> Result<(), GraphFault>
    ensures ok { OnOk result
        (Adds known.now graph.old graph.new (λ w. unit_rows w tape.now)) }
    ensures err { IfErr result (λ fault.
        Halts known.now graph.old graph.new fault (λ w. unit_rows w tape.now)) }
{
    let mut stacks = Stacks::new(alloc);
    for op in tape {
        add_row(alloc, known, &stacks, graph, op)?;
        pass(known, &mut stacks, op)?;
    }
    Ok(())
}
