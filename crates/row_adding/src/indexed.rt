//! Nodes with index words.
#![tactic(auto)]

ghost use Rattle.std.specs.Prelude.{◌≡◌, ◌∷◌, ◌++◌, [], map, OnOk};
ghost use Rattle.qual_types.specs.Table.{IsVar};
ghost use Rattle.row_rules.specs.Indexing as rules;
ghost use Rattle.row_adding.specs.Indexing.{indexed_of, AreVars};

use name_tables::name_scopes::Place;
use qual_base::{NoMemory, Numbered, VarId};
use std::alloc::Global;
use std::marker::Model;

/// A node with index words: its variable, the first of the words, and the numbers of all of them.
#[derive(Drop)]
pub(crate) struct IndexedNode {
    pub var: VarId,
    pub word: Place,
    pub set: Vec<u16>,
}

/// Nodes with index words, in the order in which they were pushed. Memory is linear in their numbers.
///
/// Clauses see them as a list.
#[derive(Drop)]
pub(crate) struct IndexedNodes {
    nodes: Vec<IndexedNode>,
}

impl Model for IndexedNodes {
    ghost use Rattle.std.specs.Prelude.{List, map};
    ghost use Rattle.row_rules.specs.Indexing.{Indexed};
    ghost use Rattle.row_adding.specs.Indexing.{indexed_of, AreVars};

    ghost Value = { List Indexed };

    ghost view = { λ a. map indexed_of a.nodes.items };

    ghost invariant = { λ a. AreVars a.nodes.items };
}

impl IndexedNodes {
    /// No nodes. Takes no memory.
    pub(crate) fn new(alloc: Global) -> Self
        ensures { result ≡ [] }
    {
        IndexedNodes {
            nodes: Vec::new(alloc),
        }
    }

    /// Adds a node. Constant time but for growth.
    #[tactic(auto, using(crate::proofs::Gathering::pushed_is, crate::proofs::Gathering::pushed_vars))]
    pub(crate) fn push(&mut self, var: VarId, word: Place, set: Vec<u16>) -> Result<(), NoMemory>
        requires { IsVar var }
        ensures { OnOk result (self.new
            ≡ self.old ++ record { variable = var; word = word; set = set.items } ∷ []) }
    {
        match self.nodes.push(IndexedNode { var, word, set }) {
            Ok(()) => Ok(()),
            Err(_) => Err(NoMemory),
        }
    }

    /// The nodes in their order. Constant time.
    pub(crate) fn items(&self) -> &[IndexedNode]
        ensures nodes { map indexed_of result.now ≡ self.now }
        ensures low { AreVars result.now }
    {
        self.nodes.as_slice()
    }
}

/// Whether one of some numbers is this one. Linear in them.
#[tactic(auto, using(crate::proofs::Comparing::number_here, crate::proofs::Comparing::not_here, crate::proofs::Comparing::no_number))]
fn has_number(n: u16, numbers: &[u16]) -> bool
    ensures { result ≡ rules.has_number n numbers.now }
{
    for m in numbers {
        if n == *m {
            return true;
        }
    }
    false
}

/// Whether each of some numbers is one of others. A step for each of the former and each of the latter.
#[tactic(auto, using(crate::proofs::Comparing::lacks_one, crate::proofs::Comparing::has_one, crate::proofs::Comparing::has_all))]
fn is_within(numbers: &[u16], others: &[u16]) -> bool
    ensures { result ≡ rules.is_within numbers.now others.now }
{
    for n in numbers {
        if !has_number(*n, others) {
            return false;
        }
    }
    true
}

/// Whether one node is not the other, and its numbers are among those of the other.
pub(crate) fn is_below(one: &IndexedNode, other: &IndexedNode) -> bool
    ensures { result ≡ rules.is_below (indexed_of one.now) (indexed_of other.now) }
{
    one.var.number() != other.var.number() && is_within(one.set.as_slice(), other.set.as_slice())
}
