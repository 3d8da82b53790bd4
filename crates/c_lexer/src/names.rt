//! The names of a unit, numbered in the order of their first tokens.

ghost use Rattle.std.specs.Prelude.{◌≡◌, ◌<◌, ◌^◌, [], length, IfOk, OnOk};
ghost use Rattle.c_lexer.specs.Names.{name_number, with_name};

use indexmap::IndexSet;
use qual_base::{NameId, NoMemory, Numbered};
use std::alloc::Global;
use std::marker::Model;

/// The different names so far. Clauses see the list of them.
#[derive(Drop)]
pub(crate) struct Names {
    spellings: IndexSet<Vec<u8>>,
}

impl Model for Names {
    ghost use Rattle.std.specs.Prelude.{ℕ, List, map};

    ghost Value = { List (List ℕ) };

    ghost view = { λ a. map (λ v. v.items) a.spellings.keys };
}

impl Names {
    /// No names. It takes no memory.
    pub(crate) fn new(alloc: Global) -> Self
        ensures { result ≡ [] }
    {
        Names {
            spellings: IndexSet::new(alloc),
        }
    }

    /// The number of a name, which goes behind the others where it is a new one, in time linear in the name.
    pub(crate) fn number_of(&mut self, name: &[u8]) -> Result<NameId, NoMemory>
        requires { length self.old < 2 ^ 32 }
        ensures number { IfOk result (λ id. id ≡ name_number self.old name.now) }
        ensures names { OnOk result (self.new ≡ with_name self.old name.now) }
    {
        if let Some(index) = self.spellings.get_index_of(name) {
            return Ok(NameId::new(index as u32));
        }
        let index = self.spellings.len();
        let alloc = *self.spellings.allocator();
        let spelling = Vec::from_slice(alloc, name)?;
        self.spellings.insert(spelling)?;
        Ok(NameId::new(index as u32))
    }
}
