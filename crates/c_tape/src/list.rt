//! A list of ops.

ghost use Rattle.std.specs.Prelude.{◌≡◌, ◌++◌, [], ◌∷◌, OnOk, map};
ghost use Rattle.c_tape.specs.Nodes.{op_of};

use qual_base::NoMemory;
use std::alloc::Global;
use std::marker::Model;
use tape_ops::Op;

/// A node of a tape.
#[derive(Clone, Copy, PartialEq, Eq, Debug)]
pub struct Node {
    pub op: Op,
}

/// The nodes of a unit, in order. Clauses see the list of their ops.
#[derive(Drop)]
pub struct OpList {
    nodes: Vec<Node>,
}

impl Model for OpList {
    ghost use Rattle.std.specs.Prelude.{List, map};
    ghost use Rattle.tape_ops.specs.declared.op.Op as op;

    ghost Value = { List op.Op };

    ghost view = { λ a. map (λ n. n.op) a.nodes.items };
}

impl OpList {
    /// No node. Takes no memory.
    pub fn new(alloc: Global) -> Self
        ensures { result ≡ [] }
    {
        OpList {
            nodes: Vec::new(alloc),
        }
    }

    /// Puts a node behind the others.
    pub fn push(&mut self, op: Op) -> Result<(), NoMemory>
        ensures { OnOk result (self.new ≡ self.old ++ op ∷ []) }
    {
        match self.nodes.push(Node { op }) {
            Ok(()) => Ok(()),
            Err(_) => Err(NoMemory),
        }
    }

    /// The nodes. Constant time.
    pub fn as_slice(&self) -> &[Node]
        ensures { map op_of result.now ≡ self.now }
    {
        self.nodes.as_slice()
    }
}
