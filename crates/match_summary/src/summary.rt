//! Pairs of variables with the last part of a path from one to the other.

ghost use Rattle.match_summary.specs.declared.reason.Reason.{Reason};
ghost use Rattle.match_summary.specs.declared.reason.Summary.{Summary};
ghost use Rattle.std.specs.Prelude.{◌≡◌, ℕ, List, ◌+◌, ◌<◌, ◌^◌, ◌↔◌, [], ◌∷◌, ◌++◌, length};
ghost use Rattle.std.specs.Prelude.{slice_get, Some, IsTrue, IsSome, IfSome, OnOk, OnErr};
ghost use Rattle.std.specs.List.{Contains};
ghost use Rattle.match_summary.specs.Chained.{IsLink, link_of};
ghost use Rattle.match_summary.specs.Starts.{IsFound, sources};
ghost use Rattle.match_summary.specs.Summary.{HasPair, Leads};

use crate::buckets::Buckets;
use crate::chains::Chains;
use crate::reason::{Reason, Summary};
use qual_base::{NoMemory, Numbered, VarId};
use std::alloc::Global;
use std::marker::Model;

/// A list of summaries, in the order in which they were found: 24 bytes each, 8 to 12 for its place, and 4 for the place of
/// the one before it that begins at the same variable.
#[derive(Drop)]
pub struct Summaries {
    rows: Vec<Summary>,
    places: Buckets,
    starts: Chains,
}

impl Model for Summaries {
    ghost use Rattle.std.specs.Prelude.{List};
    ghost use Rattle.match_summary.specs.declared.reason.Summary.{Summary};

    ghost Value = { List Summary };

    ghost view = { λ s. s.rows.items };

    ghost use Rattle.match_summary.specs.Starts.{IsFound};

    ghost invariant = { λ s. IsFound s.rows.items s.places s.starts };
}

impl Summaries {
    /// No summaries. Takes no memory.
    pub fn new(alloc: Global) -> Self
        ensures { result ≡ [] }
    {
        Summaries {
            rows: Vec::new(alloc),
            places: Buckets::new(alloc),
            starts: Chains::new(alloc),
        }
    }

    /// How many there are.
    pub fn len(&self) -> usize
        ensures { result ≡ length self.now }
    {
        self.rows.len()
    }

    /// A summary by its place. Constant time.
    pub fn row(&self, at: usize) -> Summary
        requires { at < length self.now }
        ensures { slice_get self.now at ≡ Some result }
    {
        self.rows[at]
    }

    /// Adds a summary. Constant time but for growth.
    pub fn push(&mut self, from: VarId, to: VarId, why: Reason) -> Result<(), NoMemory>
        ensures ok { OnOk result
            (self.new ≡ self.old ++ record { from = from; to = to; why = why } ∷ []) }
        ensures err { OnErr result (self.new ≡ self.old) }
    {
        self.places.widen(self.rows.as_slice())?;
        let at = self.rows.len();
        match self.rows.push(Summary { from, to, why }) {
            Ok(()) => {}
            Err(_) => return Err(NoMemory),
        }
        match chain(&mut self.places, &mut self.starts, from, to) {
            Ok(()) => Ok(()),
            Err(NoMemory) => {
                self.rows.truncate(at);
                Err(NoMemory)
            }
        }
    }

    /// The place of the summary found last that begins at a variable. Any variable is taken. Constant time.
    pub fn newest_from(&self, from: VarId) -> Option<usize>
        ensures { IsLink (sources self.now) from (length self.now) (link_of result) }
    {
        self.starts.newest(from.number())
    }

    /// The place of the last summary before another that begins at the same variable. Constant time.
    pub fn before_from(&self, at: usize) -> Option<usize>
        ensures { (from : ℕ) → slice_get (sources self.now) at ≡ Some from →
            IsLink (sources self.now) from at (link_of result) }
    {
        self.starts.before(at)
    }

    /// The last part of a matched path from one variable to another. Any variables are taken. Takes no memory, and
    /// constant time but for pairs with one hash.
    pub fn why(&self, from: VarId, to: VarId) -> Option<Reason>
        ensures reason { IfSome result
            (λ why. Contains self.now (record { from = from; to = to; why = why })) }
        ensures there { IsSome result ↔ HasPair self.now from to }
    {
        match self.places.find(self.rows.as_slice(), from, to) {
            Some(at) => Some(self.rows[at].why),
            None => None,
        }
    }

    /// Whether a matched path of one or more parts is known to lead from one variable to another. Any variables are taken.
    /// Takes no memory, and constant time.
    pub fn holds(&self, from: VarId, to: VarId) -> bool
        ensures { IsTrue result ↔ HasPair self.now from to }
    {
        self.why(from, to).is_some()
    }

    /// Whether the variables are one, or a matched path is known to lead from one to the other. Takes no memory, and
    /// constant time but for pairs with one hash.
    pub fn leads(&self, from: VarId, to: VarId) -> bool
        ensures { IsTrue result ↔ Leads self.now from to }
    {
        from == to || self.holds(from, to)
    }
}

/// Chains one summary more, by its pair and by the variable where it begins.
fn chain(places: &mut Buckets, starts: &mut Chains, from: VarId, to: VarId) -> Result<(), NoMemory>
    requires { 0 < places.old.count }
    ensures ok { OnOk result
        ((rows : List Summary) (why : Reason) → IsFound rows places.old starts.old →
        IsFound (rows ++ record { from = from; to = to; why = why } ∷ []) places.new starts.new) }
    ensures err { OnErr result ((rows : List Summary) →
        IsFound rows places.old starts.old → IsFound rows places.new starts.new) }
{
    places.push(from, to)?;
    match starts.push(from.number()) {
        Ok(()) => Ok(()),
        Err(NoMemory) => {
            places.pop(from, to);
            Err(NoMemory)
        }
    }
}
