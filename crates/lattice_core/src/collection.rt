//! The lattices of a file.

ghost use Rattle.std.specs.Prelude.{◌≡◌, ◌<◌, ◌≤◌, ◌++◌, ◌∷◌, [], length, Some, slice_get, OnOk};
ghost use Rattle.std.specs.Prelude.{OnErr, IfOk};
ghost use Rattle.qual_base.specs.Words.{meaning_of, MeansTheSame};
ghost use Rattle.lattice_core.specs.Names.{words_of};
ghost use Rattle.lattice_core.specs.View.{AreLattices, AreSized};

use crate::Lattice;
use crate::checks::find_name;
use qual_base::{Elem, LatticeNo, NoMemory, QualWords};
use std::alloc::{AllocFailed, Global};
use std::marker::Model;

/// Lattices in order, at most 16. Clauses see the list of them.
#[derive(Drop)]
pub struct Lattices {
    items: Vec<Lattice>,
}

impl Model for Lattices {
    ghost use Rattle.std.specs.Prelude.{◌≤◌, List, length};
    ghost use Rattle.lattice_core.specs.View.{LatticeView, AreLattices, AreSized};

    ghost Value = { List LatticeView };

    ghost view = { λ a. a.items.items };

    ghost invariant = { λ a. (length a.items.items ≤ 16)
        × AreSized a.items.items × AreLattices a.items.items };
}

impl Lattices {
    /// No lattices. It takes no memory.
    pub fn new(alloc: Global) -> Self
        ensures { result ≡ [] }
    {
        Lattices {
            items: Vec::new(alloc),
        }
    }

    /// Adds a lattice at the end. For want of memory the lattices stay as they were.
    pub fn push(&mut self, lattice: Lattice) -> Result<(), NoMemory>
        requires { length self.old < 16 }
        ensures ok { OnOk result (self.new ≡ self.old ++ lattice ∷ []) }
        ensures err { OnErr result (self.new ≡ self.old) }
    {
        lattice.law();
        self.items.push(lattice)?;
        Ok(())
    }

    /// What is true of the lattices of every file. It does nothing.
    pub fn law(&self)
        ensures sized { AreSized self.now }
        ensures lattices { AreLattices self.now }
    {
        let _ = &self.items;
    }

    /// How many lattices there are, at most 16.
    pub fn len(&self) -> u8
        ensures count { result ≡ length self.now }
        ensures few { length self.now ≤ 16 }
    {
        self.items.len() as u8
    }

    /// A lattice by its number.
    pub fn get(&self, at: LatticeNo) -> &Lattice
        requires { at < length self.now }
        ensures { slice_get self.now at ≡ Some result.now }
    {
        &self.items[at.number() as usize]
    }

    /// The element that a word names, in the first lattice that has one, in at most 1,024 steps.
    pub fn find(&self, word: &[u8]) -> Option<(LatticeNo, Elem)>
        ensures { result ≡ meaning_of (words_of self.now) word.now }
    {
        for (at, lattice) in self.items.iter().enumerate() {
            if let Some(elem) = lattice.find(word) {
                return Some((LatticeNo::new(at as u8), elem));
            }
        }
        None
    }

    /// All names with what they mean, in time and memory linear in the names.
    pub fn words(&self, alloc: Global) -> Result<QualWords, NoMemory>
        ensures { IfOk result (λ words. MeansTheSame words (words_of self.now)) }
    {
        let mut words = QualWords::new(alloc);
        for (at, lattice) in self.items.iter().enumerate() {
            lattice.add_words(LatticeNo::new(at as u8), &mut words)?;
        }
        Ok(words)
    }
}
