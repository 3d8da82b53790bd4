//! The qualifier words that are known, with what each means.

ghost use Rattle.std.specs.Prelude.{◌≡◌, ◌++◌, ◌∷◌, [], OnOk, OnErr};
ghost use Rattle.qual_base.specs.Words.{meaning_of, with_pair, MeansTheSame};

use crate::faults::NoMemory;
use crate::ids::{Elem, LatticeNo};
use indexmap::IndexMap;
use std::alloc::Global;
use std::marker::Model;

/// Words, each with the first pair of a lattice and an element that was pushed for it.
///
/// Clauses see the list of these pairs, in the order in which their words were pushed first.
#[derive(Drop)]
pub struct QualWords {
    pairs: IndexMap<Vec<u8>, (LatticeNo, Elem)>,
}

impl Model for QualWords {
    ghost use Rattle.std.specs.Prelude.{ℕ, List, map};

    ghost Value = { List (List ℕ × (ℕ × ℕ)) };

    ghost view = { λ a. map (λ e. (e.0.items, e.1)) a.pairs.entries };
}

impl QualWords {
    /// No words. It takes no memory.
    pub fn new(alloc: Global) -> Self
        ensures { result ≡ [] }
    {
        QualWords {
            pairs: IndexMap::new(alloc),
        }
    }

    /// Gives a word a meaning, where it has none yet. It takes time and memory linear in the word, and for want of
    /// memory the words stay as they were.
    pub fn push(&mut self, word: &[u8], lattice: LatticeNo, elem: Elem) -> Result<(), NoMemory>
        ensures pairs { OnOk result (self.new ≡ with_pair self.old (word.now, (lattice, elem))) }
        ensures means { OnOk result
            (MeansTheSame self.new (self.old ++ (word.now, (lattice, elem)) ∷ [])) }
        ensures err { OnErr result (self.new ≡ self.old) }
    {
        if self.pairs.contains_key(word) {
            return Ok(());
        }
        let alloc = *self.pairs.allocator();
        let key = Vec::from_slice(alloc, word)?;
        self.pairs.insert(key, (lattice, elem))?;
        Ok(())
    }

    /// What the first pair that was pushed for the word says, in time linear in the word.
    pub fn find(&self, word: &[u8]) -> Option<(LatticeNo, Elem)>
        ensures { result ≡ meaning_of self.now word.now }
    {
        self.pairs.get(word).copied()
    }
}
