//! The ops of a tape.

ghost use Rattle.std.specs.Prelude.{◌≡◌, map, IfOk};
ghost use Rattle.c_tape.specs.Nodes.{op_of};

use c_tape::Node;
use qual_base::NoMemory;
use std::alloc::Global;
use tape_ops::Op;

/// The ops of nodes. Linear in them.
#[tactic(auto, using(crate::proofs::Sources::mapped_on))]
pub(crate) fn ops_of(alloc: Global, nodes: &[Node]) -> Result<Vec<Op>, NoMemory>
    ensures { IfOk result (λ ops. ops.items ≡ map op_of nodes.now) }
{
    let mut ops = Vec::new(alloc);
    for node in nodes {
        ops.push(node.op)?;
    }
    Ok(ops)
}
