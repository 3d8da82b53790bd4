//! Finite lattices of named elements.
//!
//! Entry: `Lattices`, `Lattice`. Invariant: the order of a lattice is reflexive, transitive and antisymmetric, and each
//! two elements have a join and a meet.
//! It does not know files and their grammar. Above: the analysis and the reader of lattice files.
#![tactic(auto)]

mod bounds;
mod checks;
mod collection;
mod rows;
mod tables;

ghost use Rattle.std.specs.Prelude.{◌≡◌, ℕ, List, IfOk};
ghost use Rattle.lattice_core.specs.Passing.{no_flows};

pub use collection::Lattices;
use std::alloc::{AllocError, AllocFailed, Global};
use std::marker::Model;
pub use tables::Lattice;

/// The bytes of a name.
#[derive(Drop, Debug)]
pub struct Name {
    bytes: Vec<u8>,
}

impl Model for Name {
    ghost use Rattle.std.specs.Prelude.{List, ℕ};

    ghost Value = { List ℕ };

    ghost view = { λ a. a.bytes.items };
}

impl Name {
    pub fn new(bytes: Vec<u8>) -> Self
        ensures { result ≡ bytes.items }
    {
        Name { bytes }
    }

    pub fn bytes(&self) -> &[u8]
        ensures { result.now ≡ self.now }
    {
        self.bytes.as_slice()
    }

    /// A name with the same bytes.
    pub fn copy(&self, alloc: Global) -> Result<Self, AllocError>
        ensures { IfOk result (λ copy. copy ≡ self.now) }
    {
        Ok(Name::new(self.bytes().to_vec(alloc)?))
    }
}

/// Whether an element stands on values or on the references that hold them.
#[derive(Clone, Copy, PartialEq, Eq, Debug)]
pub enum Level {
    Ref,
    Value,
}

/// What an annotation by an element gives: a constant below the variable, a bound above it, or both.
#[derive(Clone, Copy, PartialEq, Eq, Debug)]
pub enum Sign {
    Pos,
    Neg,
    Eq,
}

/// How a qualifier passes between a pointer and what it points to.
#[derive(Clone, Copy, PartialEq, Eq, Debug)]
pub enum Direction {
    /// The pointer is at or above what it points to.
    Up,
    /// The pointer is at or below what it points to.
    Down,
}

/// What a lattice says of pointers and structs as a whole.
#[derive(Clone, Copy, PartialEq, Eq, Debug)]
pub struct Flows {
    /// How qualifiers pass through pointers, if they do.
    pub ptr: Option<Direction>,
    /// Whether each field of a struct is at or above the struct.
    pub field: bool,
}

impl Flows {
    /// Nothing passes.
    pub fn none() -> Flows
        ensures { result ≡ no_flows }
    {
        Flows {
            ptr: None,
            field: false,
        }
    }
}

/// Where an element bounds pointers: nowhere, where they are dereferenced, or where what they point at is read or
/// written.
#[derive(Clone, Copy, PartialEq, Eq, Debug, Drop)]
pub enum Deref {
    No,
    Yes,
    Access,
}

/// An element as it is written.
#[derive(Drop, Debug)]
pub struct Entry {
    pub name: Name,
    pub level: Level,
    pub sign: Sign,
    pub write: bool,
    pub deref: Deref,
}

/// An order line as it is written: the element named `low` is below the one named `high`.
#[derive(Drop, Debug)]
pub struct Pair {
    pub low: Name,
    pub high: Name,
}

/// Why entries and order lines make no lattice.
#[derive(Drop, Debug)]
pub enum LatticeFault {
    /// There are more than 64 entries.
    TooMany,
    /// An earlier entry has this name.
    Repeated(Name),
    /// No entry has this name of an order line.
    UnknownName(Name),
    /// The level of the second entry is not that of the first.
    LevelMix(Name, Name),
    /// Each of two different entries is below the other.
    Cycle(Name, Name),
    /// Two entries have no least upper bound or no greatest lower bound.
    NotALattice(Name, Name),
    NoMemory,
}

impl From<AllocError> for LatticeFault {
    ghost use Rattle.std.specs.Prelude.{◌≡◌};
    ghost use Rattle.lattice_core.specs.declared.LatticeFault.TheVariants.{NoMemory};

    ghost from_gives = { λ _ fault. fault ≡ NoMemory };

    fn from(_e: AllocError) -> LatticeFault {
        LatticeFault::NoMemory
    }
}
