//! A stack.

ghost use Rattle.std.specs.Prelude.{◌≡◌, ◌∷◌, ◌-◌, [], length, drop, get_or, OnOk, OnErr};
ghost use Rattle.expr_shapes.specs.ShapeStacks.Stacked.{with_first};

use qual_base::NoMemory;
use std::alloc::Global;
use std::marker::Model;

/// A stack. Clauses see its list, the top first.
#[derive(Drop)]
pub struct Stack<T> {
    items: Vec<T>,
}

impl<T> Model for Stack<T> {
    ghost use Rattle.std.specs.Prelude.{List, reverse};

    ghost Value = { List T };

    ghost view = { λ s. reverse s.items.items };
}

impl<T: Copy + Drop> Stack<T> {
    /// An empty stack. Takes no memory.
    pub fn new(alloc: Global) -> Self
        ensures { result ≡ [] }
    {
        Stack {
            items: Vec::new(alloc),
        }
    }

    /// How many there are. Constant time.
    #[tactic(auto, using(crate::proofs::ShapeStacks::Lists::length_turned))]
    pub fn len(&self) -> usize
        ensures { result ≡ length self.now }
    {
        self.items.len()
    }

    /// One more, on top. For want of memory the stack stays as it was. Constant time but for growth.
    pub fn push(&mut self, it: T) -> Result<(), NoMemory>
        ensures pushed { OnOk result (self.new ≡ it ∷ self.old) }
        ensures err { OnErr result (self.new ≡ self.old) }
    {
        match self.items.push(it) {
            Ok(()) => Ok(()),
            Err(_) => Err(NoMemory),
        }
    }

    /// The one that has so many above it, or this where there is none. Constant time.
    #[tactic(auto, using(crate::proofs::ShapeStacks::Lists::at_turned, crate::proofs::ShapeStacks::Lists::past_turned))]
    pub fn at(&self, depth: usize, none: T) -> T
        ensures { result ≡ get_or self.now depth none }
    {
        let count = self.items.len();
        if depth < count {
            self.items[count - 1 - depth]
        } else {
            none
        }
    }

    /// Keeps so many, from the bottom up. Constant time for each that goes.
    #[tactic(auto, using(crate::proofs::ShapeStacks::Lists::kept_turned))]
    pub fn keep(&mut self, count: usize)
        ensures { self.new ≡ drop (length self.old - count) self.old }
    {
        self.items.truncate(count);
    }

    /// Takes so many off. Constant time for each.
    #[tactic(auto, using(crate::proofs::ShapeStacks::Lists::left_turned, crate::proofs::ShapeStacks::Lists::none_turned))]
    pub fn take_off(&mut self, count: usize)
        ensures { self.new ≡ drop count self.old }
    {
        let all = self.items.len();
        if count < all {
            self.items.truncate(all - count);
        } else {
            self.items.truncate(0);
        }
    }

    /// This in place of the top, where there is one. Constant time.
    #[tactic(auto, using(crate::proofs::ShapeStacks::Lists::first_gone, crate::proofs::ShapeStacks::Lists::none_gone))]
    pub fn replace(&mut self, it: T) -> Result<(), NoMemory>
        ensures { OnOk result (self.new ≡ with_first it self.old) }
    {
        if self.len() == 0 {
            return Ok(());
        }
        self.take_off(1);
        self.push(it)
    }
}
