//! What is left of a unit to be gone through.

ghost use Rattle.std.specs.Prelude.{◌≡◌, ◌++◌, [], OnOk, map, true};
ghost use Rattle.c_tree.specs.View.{declr_of};
ghost use Rattle.c_tree.specs.Unit.{item_of, spec_words_from};
ghost use Rattle.c_tree.specs.Lists.{init_declrs_from, params_from};
ghost use Rattle.cq_prelude.specs.Pending.{in_next, pending};
ghost use Rattle.cq_prelude.specs.Placing.{in_array_words, in_declr, in_init_declrs, in_params, in_pointer_words, in_quals, in_specs, index_places};

use c_syntax::{ArrayWord, Declr, InitDeclr, Item, Listed, Param, PointerWord, Qual, SpecWord};
use qual_base::NoMemory;
use std::alloc::Global;
use std::marker::Model;

/// A part that is left: a declarator, or the rest of a list.
#[derive(Clone, Copy)]
pub(crate) enum Part<'a> {
    Declr(&'a Box<Declr>),
    Params(&'a [Param]),
    Words(&'a [SpecWord]),
    PointerWords(&'a [PointerWord]),
    ArrayWords(&'a [ArrayWord]),
    Quals(&'a [Qual]),
    InitDeclrs(&'a [Listed<InitDeclr>]),
    Items(&'a [Item]),
}

/// The parts that are left, the next one last. Clauses see the index words that stand in them where they may.
#[derive(Drop)]
pub(crate) struct Left<'a> {
    parts: Vec<Part<'a>>,
}

impl<'a> Model for Left<'a> {
    ghost use Rattle.std.specs.Prelude.{ℕ, List};
    ghost use Rattle.cq_prelude.specs.Pending.{pending};

    ghost Value = { List ℕ };

    ghost view = { λ a. pending a.parts.items };
}

impl<'a> Left<'a> {
    #[tactic(auto, unfolding(crate::specs::Pending::pending))]
    pub(crate) fn new(alloc: Global) -> Self
        ensures { result ≡ [] }
    {
        Left {
            parts: Vec::new(alloc),
        }
    }

    /// Whether nothing is left.
    #[tactic(auto, unfolding(crate::specs::Pending::pending))]
    pub(crate) fn is_done(&self) -> bool
        ensures { result ≡ true → self.now ≡ [] }
    {
        match self.parts.last() {
            Some(_) => false,
            None => true,
        }
    }

    /// Takes the next part.
    #[tactic(auto, using(crate::proofs::PartLemmas::pending_push), unfolding(crate::specs::Pending::pending))]
    pub(crate) fn next(&mut self) -> Option<Part<'a>>
        ensures { self.old ≡ in_next result ++ self.new }
    {
        self.parts.pop()
    }

    #[tactic(auto, using(crate::proofs::PartLemmas::pending_push))]
    pub(crate) fn declr(&mut self, d: &'a Box<Declr>) -> Result<(), NoMemory>
        ensures { OnOk result (self.new ≡ in_declr (declr_of d.now.value) ++ self.old) }
    {
        self.parts.push(Part::Declr(d))?;
        Ok(())
    }

    #[tactic(auto, using(crate::proofs::PartLemmas::pending_push))]
    pub(crate) fn params(&mut self, params: &'a [Param]) -> Result<(), NoMemory>
        ensures { OnOk result (self.new ≡ in_params (params_from params.now) ++ self.old) }
    {
        self.parts.push(Part::Params(params))?;
        Ok(())
    }

    #[tactic(auto, using(crate::proofs::PartLemmas::pending_push))]
    pub(crate) fn words(&mut self, words: &'a [SpecWord]) -> Result<(), NoMemory>
        ensures { OnOk result (self.new ≡ in_specs (spec_words_from words.now) ++ self.old) }
    {
        self.parts.push(Part::Words(words))?;
        Ok(())
    }

    #[tactic(auto, using(crate::proofs::PartLemmas::pending_push))]
    pub(crate) fn pointer_words(&mut self, words: &'a [PointerWord]) -> Result<(), NoMemory>
        ensures { OnOk result (self.new ≡ in_pointer_words words.now ++ self.old) }
    {
        self.parts.push(Part::PointerWords(words))?;
        Ok(())
    }

    #[tactic(auto, using(crate::proofs::PartLemmas::pending_push))]
    pub(crate) fn array_words(&mut self, words: &'a [ArrayWord]) -> Result<(), NoMemory>
        ensures { OnOk result (self.new ≡ in_array_words words.now ++ self.old) }
    {
        self.parts.push(Part::ArrayWords(words))?;
        Ok(())
    }

    #[tactic(auto, using(crate::proofs::PartLemmas::pending_push))]
    pub(crate) fn quals(&mut self, quals: &'a [Qual]) -> Result<(), NoMemory>
        ensures { OnOk result (self.new ≡ in_quals quals.now ++ self.old) }
    {
        self.parts.push(Part::Quals(quals))?;
        Ok(())
    }

    #[tactic(auto, using(crate::proofs::PartLemmas::pending_push))]
    pub(crate) fn init_declrs(&mut self, declrs: &'a [Listed<InitDeclr>]) -> Result<(), NoMemory>
        ensures { OnOk result
            (self.new ≡ in_init_declrs (init_declrs_from declrs.now) ++ self.old) }
    {
        self.parts.push(Part::InitDeclrs(declrs))?;
        Ok(())
    }

    #[tactic(auto, using(crate::proofs::PartLemmas::pending_push))]
    pub(crate) fn items(&mut self, items: &'a [Item]) -> Result<(), NoMemory>
        ensures { OnOk result (self.new ≡ index_places (map item_of items.now) ++ self.old) }
    {
        self.parts.push(Part::Items(items))?;
        Ok(())
    }
}
