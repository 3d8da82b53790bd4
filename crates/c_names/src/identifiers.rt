//! Identifiers of a list, behind which parameters are declared.

ghost use Rattle.std.specs.Prelude.{◌≡◌, ◌∷◌, ◌++◌, [], slice_get, None, OnOk};
ghost use Rattle.name_rules.specs.Scopes.{changed_at};
ghost use Rattle.c_names.specs.Identifiers.{number_in, is_typed_in, typed_once};

use qual_base::{NameId, NoMemory, TokenId, TypeId};
use std::alloc::Global;
use std::collections::HashMap;
use std::marker::Model;

/// An identifier, the number of its spelling, and the type of its parameter, where that is declared.
#[derive(Clone, Copy, PartialEq, Eq, Debug, Drop)]
pub(crate) struct OldParameter {
    pub(crate) token: TokenId,
    pub(crate) key: NameId,
    pub(crate) ty: Option<TypeId>,
}

/// Identifiers in their order, each found at once by the number of its spelling. Clauses see their list.
#[derive(Drop)]
pub(crate) struct Identifiers {
    all: Vec<OldParameter>,
    /// The number of each by that of its spelling.
    numbers: HashMap<NameId, usize>,
}

impl Model for Identifiers {
    ghost use Rattle.std.specs.Prelude.{List};
    ghost use Rattle.c_names.specs.declared.identifiers.OldParameter.{OldParameter};
    ghost use Rattle.c_names.specs.Identifiers.{AreNumbered};

    ghost Value = { List OldParameter };

    ghost view = { λ s. s.all.items };

    ghost invariant = { λ s. AreNumbered s.all.items s.numbers };
}

impl Identifiers {
    /// No identifiers. Takes no memory.
    #[tactic(auto, using(crate::proofs::Numbering::none_numbered))]
    pub(crate) fn new(alloc: Global) -> Self
        ensures { result ≡ [] }
    {
        Identifiers {
            all: Vec::new(alloc),
            numbers: HashMap::new(alloc),
        }
    }

    /// The identifiers in their order.
    pub(crate) fn as_slice(&self) -> &[OldParameter]
        ensures { result.now ≡ self.now }
    {
        self.all.as_slice()
    }

    /// Where the identifier of a spelling is among them. Constant time.
    pub(crate) fn number(&self, key: NameId) -> Option<usize>
        ensures { result ≡ number_in key self.now }
    {
        self.numbers.get(&key).copied()
    }

    /// Whether the parameter of a number has a type. Constant time.
    pub(crate) fn is_typed(&self, number: usize) -> bool
        ensures { result ≡ is_typed_in (slice_get self.now number) }
    {
        match self.all.get(number) {
            Some(it) => it.ty.is_some(),
            None => false,
        }
    }

    /// One more, of a spelling that none before it has. For want of memory they stay as they were. Constant time but for growth.
    #[tactic(auto, using(crate::proofs::Numbering::one_numbered))]
    pub(crate) fn push(&mut self, token: TokenId, key: NameId) -> Result<(), NoMemory>
        requires { number_in key self.old ≡ None }
        ensures { OnOk result
            (self.new ≡ self.old ++ record { token = token; key = key; ty = None } ∷ []) }
    {
        let count = self.all.len();
        let ty = None;
        match self.all.push(OldParameter { token, key, ty }) {
            Ok(()) => {}
            Err(_) => return Err(NoMemory),
        }
        match self.numbers.insert(key, count) {
            Ok(_) => Ok(()),
            Err(_) => {
                self.all.truncate(count);
                Err(NoMemory)
            }
        }
    }

    /// The type of a parameter, where it has none. Constant time.
    pub(crate) fn set_type(&mut self, number: usize, ty: TypeId)
        ensures { self.new ≡ changed_at self.old number (typed_once ty) }
    {
        let Some(it) = self.all.get_mut(number) else {
            return;
        };
        it.set_type(ty);
    }
}

impl OldParameter {
    /// The type of its parameter, where it has none.
    fn set_type(&mut self, ty: TypeId)
        ensures { self.new ≡ typed_once ty self.old }
    {
        if self.ty.is_none() {
            self.ty = Some(ty);
        }
    }
}
