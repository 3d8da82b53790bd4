//! Lists of trees with their heights: an empty one, and one more at the end in constant time,
//! amortised.

ghost use Rattle.std.specs.Prelude.{◌≡◌, ◌++◌, [], ◌∷◌, OnOk};
ghost use Rattle.c_nodes.specs.Sized.{enumerator_of, member_of, param_of, init_item_of, init_declr_of};

use crate::heights::{above, greater};
use crate::sized::{
    SizedAssoc, SizedAssocs, SizedBlockItem, SizedBlockItems, SizedDesig, SizedDesigs,
    SizedEnumerator, SizedEnumerators, SizedExpr, SizedExprs, SizedInitDeclr, SizedInitDeclrs,
    SizedInitItem, SizedInitItems, SizedMember, SizedMembers, SizedParam, SizedParams, SizedSpecs,
    SizedStep, SizedSteps, SizedStructItem, SizedStructItems, SizedWord,
};
use c_syntax::{Enumerator, InitDeclr, InitItem, Listed, Param, Specs};
use qual_base::NoMemory;
use std::alloc::Global;

impl SizedExprs {
    /// No expressions. Takes no memory.
    pub fn new(alloc: Global) -> Self
        ensures { result.items.items ≡ [] }
    {
        SizedExprs {
            items: Vec::new(alloc),
            height: 0,
        }
    }

    /// One more at the end.
    #[tactic(auto, using(crate::proofs::Pushing::exprs_pushed))]
    pub fn push(&mut self, next: SizedExpr) -> Result<(), NoMemory>
        ensures { OnOk result
            (self.new.items.items ≡ self.old.items.items ++ next.tree.value ∷ []) }
    {
        let height = greater(self.height, next.height);
        match self.items.push(Box::into_inner(next.tree)) {
            Ok(()) => {
                self.height = height;
                Ok(())
            }
            Err(_) => Err(NoMemory),
        }
    }
}

impl SizedAssocs {
    /// No associations. Takes no memory.
    pub fn new(alloc: Global) -> Self
        ensures { result.items.items ≡ [] }
    {
        SizedAssocs {
            items: Vec::new(alloc),
            height: 0,
        }
    }

    /// One more at the end.
    #[tactic(auto, using(crate::proofs::Pushing::assocs_pushed))]
    pub fn push(&mut self, next: SizedAssoc) -> Result<(), NoMemory>
        ensures { OnOk result
            (self.new.items.items ≡ self.old.items.items ++ next.assoc ∷ []) }
    {
        let height = greater(self.height, next.height);
        match self.items.push(next.assoc) {
            Ok(()) => {
                self.height = height;
                Ok(())
            }
            Err(_) => Err(NoMemory),
        }
    }
}

impl SizedSpecs {
    /// No words. Takes no memory.
    pub fn new(alloc: Global) -> Self
        ensures { result.words.items ≡ [] }
    {
        SizedSpecs {
            words: Vec::new(alloc),
            height: 1,
        }
    }

    /// One more at the end.
    #[tactic(auto, using(crate::proofs::Pushing::words_pushed))]
    pub fn push(&mut self, next: SizedWord) -> Result<(), NoMemory>
        ensures { OnOk result
            (self.new.words.items ≡ self.old.words.items ++ next.word ∷ []) }
    {
        let height = greater(self.height, above(next.height));
        match self.words.push(next.word) {
            Ok(()) => {
                self.height = height;
                Ok(())
            }
            Err(_) => Err(NoMemory),
        }
    }
}

impl SizedStructItems {
    /// No items. Takes no memory.
    pub fn new(alloc: Global) -> Self
        ensures { result.items.items ≡ [] }
    {
        SizedStructItems {
            items: Vec::new(alloc),
            height: 0,
        }
    }

    /// One more at the end.
    #[tactic(auto, using(crate::proofs::Pushing::struct_items_pushed))]
    pub fn push(&mut self, next: SizedStructItem) -> Result<(), NoMemory>
        ensures { OnOk result
            (self.new.items.items ≡ self.old.items.items ++ next.item ∷ []) }
    {
        let height = greater(self.height, next.height);
        match self.items.push(next.item) {
            Ok(()) => {
                self.height = height;
                Ok(())
            }
            Err(_) => Err(NoMemory),
        }
    }
}

impl SizedMembers {
    /// No declarators. Takes no memory.
    pub fn new(alloc: Global) -> Self
        ensures { result.items.items ≡ [] }
    {
        SizedMembers {
            items: Vec::new(alloc),
            height: 0,
        }
    }

    /// One more at the end.
    #[tactic(auto, using(crate::proofs::Pushing::members_pushed))]
    pub fn push(&mut self, next: SizedMember) -> Result<(), NoMemory>
        ensures { OnOk result
            (self.new.items.items ≡ self.old.items.items ++ member_of next ∷ []) }
    {
        let height = greater(self.height, next.height);
        match self.items.push(Listed {
            attrs: next.attrs,
            item: next.declr,
        }) {
            Ok(()) => {
                self.height = height;
                Ok(())
            }
            Err(_) => Err(NoMemory),
        }
    }
}

impl SizedEnumerators {
    /// No enumerators. Takes no memory.
    pub fn new(alloc: Global) -> Self
        ensures { result.items.items ≡ [] }
    {
        SizedEnumerators {
            items: Vec::new(alloc),
            height: 0,
        }
    }

    /// One more at the end.
    #[tactic(auto, using(crate::proofs::Pushing::enumerators_pushed))]
    pub fn push(&mut self, next: SizedEnumerator) -> Result<(), NoMemory>
        ensures { OnOk result
            (self.new.items.items ≡ self.old.items.items ++ enumerator_of next ∷ []) }
    {
        let height = greater(self.height, next.height);
        match self.items.push(Enumerator {
            name: next.name,
            attrs: next.attrs,
            value: next.value,
        }) {
            Ok(()) => {
                self.height = height;
                Ok(())
            }
            Err(_) => Err(NoMemory),
        }
    }
}

impl SizedParams {
    /// No parameters. Takes no memory.
    pub fn new(alloc: Global) -> Self
        ensures { result.items.items ≡ [] }
    {
        SizedParams {
            items: Vec::new(alloc),
            height: 0,
        }
    }

    /// One more at the end.
    #[tactic(auto, using(crate::proofs::Pushing::params_pushed))]
    pub fn push(&mut self, next: SizedParam) -> Result<(), NoMemory>
        ensures { OnOk result
            (self.new.items.items ≡ self.old.items.items ++ param_of next ∷ []) }
    {
        let height = greater(self.height, next.height);
        match self.items.push(Param {
            specs: Specs { words: next.words },
            declr: next.declr,
            attrs: next.attrs,
        }) {
            Ok(()) => {
                self.height = height;
                Ok(())
            }
            Err(_) => Err(NoMemory),
        }
    }
}

impl SizedInitItems {
    /// No items. Takes no memory.
    pub fn new(alloc: Global) -> Self
        ensures { result.items.items ≡ [] }
    {
        SizedInitItems {
            items: Vec::new(alloc),
            height: 0,
        }
    }

    /// One more at the end.
    #[tactic(auto, using(crate::proofs::Pushing::init_items_pushed))]
    pub fn push(&mut self, next: SizedInitItem) -> Result<(), NoMemory>
        ensures { OnOk result
            (self.new.items.items ≡ self.old.items.items ++ init_item_of next ∷ []) }
    {
        let height = greater(self.height, next.height);
        match self.items.push(InitItem {
            desigs: next.desigs,
            equal: next.equal,
            init: next.init,
        }) {
            Ok(()) => {
                self.height = height;
                Ok(())
            }
            Err(_) => Err(NoMemory),
        }
    }
}

impl SizedDesigs {
    /// No designators. Takes no memory.
    pub fn new(alloc: Global) -> Self
        ensures { result.items.items ≡ [] }
    {
        SizedDesigs {
            items: Vec::new(alloc),
            height: 0,
        }
    }

    /// One more at the end.
    #[tactic(auto, using(crate::proofs::Pushing::desigs_pushed))]
    pub fn push(&mut self, next: SizedDesig) -> Result<(), NoMemory>
        ensures { OnOk result
            (self.new.items.items ≡ self.old.items.items ++ next.desig ∷ []) }
    {
        let height = greater(self.height, next.height);
        match self.items.push(next.desig) {
            Ok(()) => {
                self.height = height;
                Ok(())
            }
            Err(_) => Err(NoMemory),
        }
    }
}

impl SizedSteps {
    /// No steps. Takes no memory.
    pub fn new(alloc: Global) -> Self
        ensures { result.items.items ≡ [] }
    {
        SizedSteps {
            items: Vec::new(alloc),
            height: 0,
        }
    }

    /// One more at the end.
    #[tactic(auto, using(crate::proofs::Pushing::steps_pushed))]
    pub fn push(&mut self, next: SizedStep) -> Result<(), NoMemory>
        ensures { OnOk result
            (self.new.items.items ≡ self.old.items.items ++ next.step ∷ []) }
    {
        let height = greater(self.height, next.height);
        match self.items.push(next.step) {
            Ok(()) => {
                self.height = height;
                Ok(())
            }
            Err(_) => Err(NoMemory),
        }
    }
}

impl SizedInitDeclrs {
    /// No declarators. Takes no memory.
    pub fn new(alloc: Global) -> Self
        ensures { result.items.items ≡ [] }
    {
        SizedInitDeclrs {
            items: Vec::new(alloc),
            height: 0,
        }
    }

    /// One more at the end.
    #[tactic(auto, using(crate::proofs::Pushing::init_declrs_pushed))]
    pub fn push(&mut self, next: SizedInitDeclr) -> Result<(), NoMemory>
        ensures { OnOk result
            (self.new.items.items ≡ self.old.items.items ++ init_declr_of next ∷ []) }
    {
        let height = greater(self.height, next.height);
        match self.items.push(Listed {
            attrs: next.before,
            item: InitDeclr {
                declr: next.declr,
                label: next.label,
                attrs: next.attrs,
                init: next.init,
            },
        }) {
            Ok(()) => {
                self.height = height;
                Ok(())
            }
            Err(_) => Err(NoMemory),
        }
    }
}

impl SizedBlockItems {
    /// No items. Takes no memory.
    pub fn new(alloc: Global) -> Self
        ensures { result.items.items ≡ [] }
    {
        SizedBlockItems {
            items: Vec::new(alloc),
            height: 1,
        }
    }

    /// One more at the end.
    #[tactic(auto, using(crate::proofs::Pushing::block_items_pushed))]
    pub fn push(&mut self, next: SizedBlockItem) -> Result<(), NoMemory>
        ensures { OnOk result
            (self.new.items.items ≡ self.old.items.items ++ next.item ∷ []) }
    {
        let height = greater(self.height, above(next.height));
        match self.items.push(next.item) {
            Ok(()) => {
                self.height = height;
                Ok(())
            }
            Err(_) => Err(NoMemory),
        }
    }
}
