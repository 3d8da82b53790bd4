//! A list whose items have numbers with a type of their own.

ghost use Rattle.std.specs.Prelude.{◌≡◌, ◌-◌, ◌<◌, ◌^◌, ◌++◌, ◌∷◌, [], length, slice_get, IfOk, OnErr};
ghost use Rattle.std.specs.Option.{option_copied};

use crate::faults::NoMemory;
use crate::ids::Numbered;
use std::alloc::Global;
use std::marker::{Model, PhantomData};

/// Items with the numbers 0, 1, 2 and on, in the order in which they were pushed.
///
/// Clauses see the list of its items.
#[derive(Drop)]
pub struct Table<I, T> {
    items: Vec<T>,
    by: PhantomData<I>,
}

impl<I, T> Model for Table<I, T> {
    ghost use Rattle.std.specs.Prelude.{◌<◌, ◌^◌, List, length};

    ghost Value = { List T };

    ghost view = { λ a. a.items.items };

    ghost invariant = { λ a. length a.items.items < 2 ^ 32 };
}

impl<I: Numbered, T: Drop> Table<I, T> {
    /// A table without items. It takes no memory.
    pub fn new(alloc: Global) -> Self
        ensures { result ≡ [] }
    {
        Table {
            items: Vec::new(alloc),
            by: PhantomData,
        }
    }

    /// Adds an item at the end, and answers its number. For want of memory the table stays as it was.
    pub fn push(&mut self, item: T) -> Result<I, NoMemory>
        requires { length self.old < 2 ^ 32 - 1 }
        ensures items { IfOk result (λ _. self.new ≡ self.old ++ item ∷ []) }
        ensures number { IfOk result (λ at. I.index at ≡ length self.old) }
        ensures err { OnErr result (self.new ≡ self.old) }
    {
        let at = self.items.len() as u32;
        match self.items.push(item) {
            Ok(()) => Ok(I::new(at)),
            Err(_) => Err(NoMemory),
        }
    }

    /// The item of that number, or none where the number is not below the count of items.
    pub fn get(&self, at: I) -> Option<&T>
        ensures { option_copied result ≡ slice_get self.now (I.index at) }
    {
        self.items.get(at.number() as usize)
    }

    /// How many items there are.
    pub fn len(&self) -> u32
        ensures count { result ≡ length self.now }
        ensures bound { length self.now < 2 ^ 32 }
    {
        self.items.len() as u32
    }

    /// The items in the order of their numbers.
    pub fn as_slice(&self) -> &[T]
        ensures items { result.now ≡ self.now }
        ensures bound { length self.now < 2 ^ 32 }
    {
        self.items.as_slice()
    }
}
