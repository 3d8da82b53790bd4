//! The place of each pair of a list of summaries, by a hash of the pair.

ghost use Rattle.std.specs.Prelude.{◌≡◌, ℕ, ◌<◌, ◌%◌, List, [], ◌∷◌, ◌++◌, ◌↔◌, slice_get, Some};
ghost use Rattle.std.specs.Prelude.{IsTrue, IfOk, OnOk, OnErr, MatchOption};
ghost use Rattle.match_summary.specs.declared.reason.Reason.{Reason};
ghost use Rattle.match_summary.specs.declared.reason.Summary.{Summary};
ghost use Rattle.match_summary.specs.Summary.{HasPair};
ghost use Rattle.match_summary.specs.Buckets.{hash_of, AreHashed};

use crate::chains::Chains;
use crate::reason::Summary;
use qual_base::{NoMemory, Numbered, VarId};
use std::alloc::Global;

/// For each bucket the chain of the pairs whose hash is in it. With as many buckets as pairs or more, 8 to 12 bytes a pair.
#[derive(Drop)]
pub struct Buckets {
    count: u32,
    chains: Chains,
    alloc: Global,
}

impl Buckets {
    /// The buckets of an empty list. Takes no memory.
    pub fn new(alloc: Global) -> Self
        ensures { AreHashed [] result }
    {
        Buckets {
            count: 64,
            chains: Chains::new(alloc),
            alloc,
        }
    }

    /// The place of a pair. Constant time but for pairs with one hash.
    pub fn find(&self, rows: &[Summary], from: VarId, to: VarId) -> Option<usize>
        requires { AreHashed rows.now self.now }
        ensures { MatchOption result (HasPair rows.now from to → ⊥) (λ at. (why : Reason)
            × (slice_get rows.now at ≡ Some (record { from = from; to = to; why = why }))) }
    {
        let mut next = self.chains.newest(bucket(self.count, from, to));
        while let Some(at) = next {
            let row = rows[at];
            if is_of(row, from, to) {
                return Some(at);
            }
            next = self.chains.before(at);
        }
        None
    }

    /// Takes twice as many buckets where there are no more than pairs: linear in the pairs, and so constant time for each
    /// pair that was added since.
    pub fn widen(&mut self, rows: &[Summary]) -> Result<(), NoMemory>
        requires { AreHashed rows.now self.old }
        ensures { AreHashed rows.now self.new }
    {
        if rows.len() < self.count as usize {
            return Ok(());
        }
        if let Some(count) = self.count.checked_mul(2) {
            *self = hashed(self.alloc, rows, count)?;
        }
        Ok(())
    }

    /// Adds a pair. Constant time but for growth.
    pub fn push(&mut self, from: VarId, to: VarId) -> Result<(), NoMemory>
        requires { 0 < self.old.count }
        ensures ok { OnOk result ((rows : List Summary) (why : Reason) → AreHashed rows self.old →
            AreHashed (rows ++ record { from = from; to = to; why = why } ∷ []) self.new) }
        ensures err { OnErr result
            ((rows : List Summary) → AreHashed rows self.old → AreHashed rows self.new) }
        ensures count { self.new.count ≡ self.old.count }
    {
        self.chains.push(bucket(self.count, from, to))
    }

    /// Takes the last pair away. Constant time.
    pub fn pop(&mut self, from: VarId, to: VarId)
        requires { 0 < self.old.count }
        ensures { (rows : List Summary) (why : Reason) → AreHashed (rows
            ++ record { from = from; to = to; why = why } ∷ []) self.old → AreHashed rows self.new }
    {
        self.chains.pop(bucket(self.count, from, to));
    }
}

/// Whether a summary is of a pair.
fn is_of(row: Summary, from: VarId, to: VarId) -> bool
    ensures { IsTrue result ↔ ((row.from ≡ from) × (row.to ≡ to)) }
{
    row.from == from && row.to == to
}

/// The buckets of a list.
fn hashed(alloc: Global, rows: &[Summary], count: u32) -> Result<Buckets, NoMemory>
    requires { 0 < count }
    ensures { IfOk result (AreHashed rows.now) }
{
    let mut chains = Chains::new(alloc);
    for row in rows {
        chains.push(bucket(count, row.from, row.to))?;
    }
    Ok(Buckets {
        count,
        chains,
        alloc,
    })
}

/// The bucket of a pair.
fn bucket(count: u32, from: VarId, to: VarId) -> u32
    requires { 0 < count }
    ensures { result ≡ hash_of from to % count }
{
    hash(from.number(), to.number()) % count
}

/// The upper half of a product of two numbers, which mixes their bits.
pub fn hash(one: u32, other: u32) -> u32
    ensures { result ≡ hash_of one other }
{
    let both = one as u64 * 4_294_967_296 + other as u64;
    let hash = both.wrapping_mul(11_400_714_819_323_198_485) / 4_294_967_296;
    hash as u32
}
