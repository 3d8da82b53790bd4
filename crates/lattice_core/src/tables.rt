//! A lattice by tables: its order as rows of bits, upwards and downwards.

ghost use Rattle.std.specs.Prelude.{◌≡◌, ℕ, ◌<◌, ◌≤◌, ◌↔◌, true, length, IfOk, IfErr, IsErrOf};
ghost use Rattle.std.specs.Prelude.{OnOk, ◌++◌, Some, slice_get};
ghost use Rattle.lattice_core.specs.Order.{size, leq, IsLattice, IsLeastUpper, IsGreatestLower};
ghost use Rattle.lattice_core.specs.Order.{IsJoinOf};
ghost use Rattle.lattice_core.specs.Entries.{AreDistinct, name_at, number_of};
ghost use Rattle.lattice_core.specs.Building.{AreBuilt, Refuses};
ghost use Rattle.lattice_core.specs.Names.{entry_words};
ghost use Rattle.lattice_core.specs.Passing.{no_flows};
ghost use Rattle.qual_base.specs.Words.{MeansTheSame};

use crate::bounds::first_lack;
use crate::checks::{find_name, first_cycle, first_mixed, first_repeated, links, name_of};
use crate::rows::{all_below, closure, common, converse, has, row_of};
use crate::{Direction, Entry, Flows, LatticeFault, Pair};
use qual_base::{Elem, ElemSet, LatticeNo, NoMemory, QualWords};
use std::alloc::{AllocError, Global};
use std::marker::Model;

/// A finite lattice of at least one and at most 64 elements: element n is entry n.
#[derive(Drop)]
pub struct Lattice {
    entries: Vec<Entry>,
    above: Vec<u64>,
    below: Vec<u64>,
    flows: Flows,
}

impl Model for Lattice {
    ghost use Rattle.lattice_core.specs.Rows.{order_of};
    ghost use Rattle.lattice_core.specs.View.{LatticeView};
    ghost use Rattle.lattice_core.specs.Tables.{AreTables};

    ghost Value = { LatticeView };

    ghost view = { λ a. record {
      entries = a.entries.items;
      order = order_of a.above.items;
      flows = a.flows;
    } };

    ghost invariant = { λ a. AreTables a.entries.items a.above.items a.below.items };
}

impl Lattice {
    /// The lattice of the entries in the order that the reflexive transitive closure of the order lines makes, or the
    /// first reason why there is none. Takes a pass over the lines and, for n entries, n * n * n steps.
    pub fn build(
        alloc: Global,
        entries: Vec<Entry>,
        pairs: &[Pair],
    ) -> Result<Lattice, LatticeFault>
        requires { 0 < length entries.items }
        ensures built { IfOk result (AreBuilt entries.items pairs.now) }
        ensures refused { IfErr result (Refuses entries.items pairs.now) }
        ensures too_many { IsErrOf result LatticeFault.TooMany ↔ (64 < length entries.items) }
        ensures flows { IfOk result (λ lattice. lattice.flows ≡ no_flows) }
    {
        if entries.len() > 64 {
            return Err(LatticeFault::TooMany);
        }
        if let Some(k) = first_repeated(&entries) {
            return Err(LatticeFault::Repeated(name_of(alloc, &entries, k)?));
        }
        let links = links(alloc, &entries, pairs)?;
        if let Some(k) = first_mixed(&entries) {
            let one = name_of(alloc, &entries, 0)?;
            return Err(LatticeFault::LevelMix(one, name_of(alloc, &entries, k)?));
        }
        let above = closure(alloc, &links)?;
        if let Some((a, b)) = first_cycle(&above) {
            let one = name_of(alloc, &entries, a)?;
            return Err(LatticeFault::Cycle(one, name_of(alloc, &entries, b)?));
        }
        let below = converse(alloc, &above)?;
        if let Some((a, b)) = first_lack(&above, &below) {
            let one = name_of(alloc, &entries, a)?;
            return Err(LatticeFault::NotALattice(one, name_of(alloc, &entries, b)?));
        }
        Ok(Lattice {
            entries,
            above,
            below,
            flows: Flows::none(),
        })
    }

    /// Says what passes through pointers and structs, in place of what was said before. A built lattice lets nothing
    /// pass.
    pub fn set_flows(&mut self, ptr: Option<Direction>, field: bool)
        ensures { self.new ≡ record self.old { flows = record { ptr = ptr; field = field } } }
    {
        self.flows = Flows { ptr, field };
    }

    /// How qualifiers pass between a pointer and what it points to; none where no direction was set.
    pub fn ptrflow(&self) -> Option<Direction>
        ensures { result ≡ self.now.flows.ptr }
    {
        self.flows.ptr
    }

    /// Whether each field of a struct is at or above the struct.
    pub fn fieldflow(&self) -> bool
        ensures { result ≡ self.now.flows.field }
    {
        self.flows.field
    }

    /// What is true of every lattice.
    pub fn law(&self)
        ensures lattice { IsLattice self.now.order }
        ensures elements { size self.now.order ≡ length self.now.entries }
        ensures few { size self.now.order ≤ 64 }
        ensures distinct { AreDistinct self.now.entries (length self.now.entries) }
    {
        let _ = &self.entries;
    }

    /// How many elements there are, from 1 to 64.
    pub fn size(&self) -> u8
        ensures { result ≡ size self.now.order }
    {
        self.above.len() as u8
    }

    /// Whether element a is at or below element b.
    pub fn leq(&self, a: Elem, b: Elem) -> bool
        requires first { a < size self.now.order }
        requires second { b < size self.now.order }
        ensures { result ≡ leq self.now.order a b }
    {
        has(self.above[a.number() as usize], b.number())
    }

    /// The least element at or above two, in at most 64 steps.
    pub fn join(&self, a: Elem, b: Elem) -> Elem
        requires first { a < size self.now.order }
        requires second { b < size self.now.order }
        ensures { IsLeastUpper self.now.order a b result }
    {
        Elem::new(row_of(
            &self.above,
            self.above[a.number() as usize] & self.above[b.number() as usize],
        ))
    }

    /// The greatest element at or below two, in at most 64 steps.
    pub fn meet(&self, a: Elem, b: Elem) -> Elem
        requires first { a < size self.now.order }
        requires second { b < size self.now.order }
        ensures { IsGreatestLower self.now.order a b result }
    {
        Elem::new(row_of(
            &self.below,
            self.below[a.number() as usize] & self.below[b.number() as usize],
        ))
    }

    /// The least element at or above each of a set, in at most 128 steps; the least of all for no element. What stands
    /// in the set beyond the elements does not count.
    pub fn join_of(&self, set: ElemSet) -> Elem
        ensures { IsJoinOf self.now.order set result }
    {
        let row = common(&self.above, set.number(), all_below(self.above.len()));
        Elem::new(row_of(&self.above, row))
    }

    /// The least element, in at most 128 steps.
    pub fn bottom(&self) -> Elem
        ensures element { result < size self.now.order }
        ensures least { (a : ℕ) → a < size self.now.order → leq self.now.order result a ≡ true }
    {
        self.join_of(ElemSet::new(0))
    }

    /// The name of an element.
    pub fn name_of(&self, a: Elem) -> &[u8]
        requires { a < size self.now.order }
        ensures { name_at self.now.entries a ≡ Some result.now }
    {
        self.entries[a.number() as usize].name.bytes()
    }

    /// An element as it is written.
    pub fn entry(&self, a: Elem) -> &Entry
        requires { a < size self.now.order }
        ensures { slice_get self.now.entries a ≡ Some result.now }
    {
        &self.entries[a.number() as usize]
    }

    /// The element with a name, if there is one, in at most 64 steps.
    pub fn find(&self, word: &[u8]) -> Option<Elem>
        ensures { result ≡ number_of self.now.entries word.now }
    {
        find_name(&self.entries, word).map(|n| Elem::new(n as u8))
    }

    /// Adds the name of each element to words, as that of an element of the lattice with a number.
    pub(crate) fn add_words(&self, at: LatticeNo, words: &mut QualWords) -> Result<(), NoMemory>
        ensures { OnOk result
            (MeansTheSame words.new (words.old ++ entry_words at 0 self.now.entries)) }
    {
        for (n, entry) in self.entries.iter().enumerate() {
            words.push(entry.name.bytes(), at, Elem::new(n as u8))?;
        }
        Ok(())
    }
}
