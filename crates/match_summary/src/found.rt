//! Summaries in the order in which they were found, chained by the variables that they lead to.

ghost use Rattle.std.specs.Prelude.{◌≡◌, ℕ, ◌<◌, [], ◌∷◌, ◌++◌, length, slice_get, Some, OnOk};
ghost use Rattle.match_summary.specs.Chained.{AreChained, IsLink, link_of};
ghost use Rattle.match_summary.specs.Closing.{targets};

use crate::chains::Chains;
use crate::reason::{Reason, Summary};
use crate::summary::Summaries;
use qual_base::{NoMemory, Numbered, VarId};
use std::alloc::Global;

/// What was found so far.
#[derive(Drop)]
pub struct Found {
    pub known: Summaries,
    chains: Chains,
}

impl Found {
    /// Nothing. Takes no memory.
    pub fn new(alloc: Global) -> Self
        ensures known { result.known ≡ [] }
        ensures chained { AreChained [] result.chains }
    {
        Found {
            known: Summaries::new(alloc),
            chains: Chains::new(alloc),
        }
    }

    /// How many pairs there are.
    pub fn len(&self) -> usize
        ensures { result ≡ length self.now.known }
    {
        self.known.len()
    }

    /// A pair by its place. Constant time.
    pub fn row(&self, at: usize) -> Summary
        requires { at < length self.now.known }
        ensures { slice_get self.now.known at ≡ Some result }
    {
        self.known.row(at)
    }

    /// The place of the pair found last that leads to a variable. Constant time.
    pub fn newest(&self, to: VarId) -> Option<usize>
        requires { AreChained (targets self.now.known) self.now.chains }
        ensures { IsLink (targets self.now.known) to (length self.now.known) (link_of result) }
    {
        self.chains.newest(to.number())
    }

    /// The place of the last pair before another that leads to the same variable. Constant time.
    pub fn before(&self, at: usize) -> Option<usize>
        requires { AreChained (targets self.now.known) self.now.chains }
        ensures { (to : ℕ) → slice_get (targets self.now.known) at ≡ Some to →
            IsLink (targets self.now.known) to at (link_of result) }
    {
        self.chains.before(at)
    }

    /// Adds a pair. Constant time but for growth.
    pub fn push(&mut self, from: VarId, to: VarId, why: Reason) -> Result<(), NoMemory>
        requires { AreChained (targets self.old.known) self.old.chains }
        ensures known { OnOk result
            (self.new.known ≡ self.old.known ++ record { from = from; to = to; why = why } ∷ []) }
        ensures chained { OnOk result (AreChained (targets self.new.known) self.new.chains) }
    {
        self.known.push(from, to, why)?;
        self.chains.push(to.number())
    }
}
