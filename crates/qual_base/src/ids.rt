//! Numbers with types of their own, so that a token is never taken for a variable.

ghost use Rattle.std.specs.Prelude.{◌≡◌, ℕ, ◌<◌, ◌^◌};
ghost use Rattle.std.proofs.Common.{rules};

use std::marker::Model;

/// A number below 2^32 with a type of its own. Clauses see the number itself by `index`.
pub trait Numbered: Copy {
    ghost index: { Self → ℕ };

    fn new(n: u32) -> Self
        ensures { index result ≡ n };

    fn number(self) -> u32
        ensures { result ≡ index self };

    ghost same: { (a b : Self) → index a ≡ index b → a ≡ b };
}

/// A token of a unit, counted from 0 in the order of the unit's bytes.
#[derive(Clone, Copy, PartialEq, Eq, PartialOrd, Ord, Hash, Debug)]
pub struct TokenId {
    number: u32,
}

impl Model for TokenId {
    ghost Value = { ℕ };

    ghost view = { λ a. a.number };

    ghost inverse = { λ n. record { number = n } };
}

impl Numbered for TokenId {
    ghost index = { λ n. n };

    ghost same = { λ a b e. e };

    fn new(n: u32) -> Self {
        TokenId { number: n }
    }

    fn number(self) -> u32 {
        self.number
    }
}

/// A name of a unit, counted from 0 in the order of the names' first tokens.
#[derive(Clone, Copy, PartialEq, Eq, PartialOrd, Ord, Hash, Debug)]
pub struct NameId {
    number: u32,
}

impl Model for NameId {
    ghost Value = { ℕ };

    ghost view = { λ a. a.number };

    ghost inverse = { λ n. record { number = n } };
}

impl Numbered for NameId {
    ghost index = { λ n. n };

    ghost same = { λ a b e. e };

    fn new(n: u32) -> Self {
        NameId { number: n }
    }

    fn number(self) -> u32 {
        self.number
    }
}

/// A type of a program, counted from 0.
#[derive(Clone, Copy, PartialEq, Eq, PartialOrd, Ord, Hash, Debug)]
pub struct TypeId {
    number: u32,
}

impl Model for TypeId {
    ghost Value = { ℕ };

    ghost view = { λ a. a.number };

    ghost inverse = { λ n. record { number = n } };
}

impl Numbered for TypeId {
    ghost index = { λ n. n };

    ghost same = { λ a b e. e };

    fn new(n: u32) -> Self {
        TypeId { number: n }
    }

    fn number(self) -> u32 {
        self.number
    }
}

/// A struct or union of a program, counted from 0.
#[derive(Clone, Copy, PartialEq, Eq, PartialOrd, Ord, Hash, Debug)]
pub struct StructId {
    number: u32,
}

impl Model for StructId {
    ghost Value = { ℕ };

    ghost view = { λ a. a.number };

    ghost inverse = { λ n. record { number = n } };
}

impl Numbered for StructId {
    ghost index = { λ n. n };

    ghost same = { λ a b e. e };

    fn new(n: u32) -> Self {
        StructId { number: n }
    }

    fn number(self) -> u32 {
        self.number
    }
}

/// A declaration of a program, counted from 0.
#[derive(Clone, Copy, PartialEq, Eq, PartialOrd, Ord, Hash, Debug)]
pub struct EntityId {
    number: u32,
}

impl Model for EntityId {
    ghost Value = { ℕ };

    ghost view = { λ a. a.number };

    ghost inverse = { λ n. record { number = n } };
}

impl Numbered for EntityId {
    ghost index = { λ n. n };

    ghost same = { λ a b e. e };

    fn new(n: u32) -> Self {
        EntityId { number: n }
    }

    fn number(self) -> u32 {
        self.number
    }
}

/// A function of a program, counted from 0.
#[derive(Clone, Copy, PartialEq, Eq, PartialOrd, Ord, Hash, Debug)]
pub struct FuncId {
    number: u32,
}

impl Model for FuncId {
    ghost Value = { ℕ };

    ghost view = { λ a. a.number };

    ghost inverse = { λ n. record { number = n } };
}

impl Numbered for FuncId {
    ghost index = { λ n. n };

    ghost same = { λ a b e. e };

    fn new(n: u32) -> Self {
        FuncId { number: n }
    }

    fn number(self) -> u32 {
        self.number
    }
}

/// A skeleton of qualifier variables, counted from 0.
#[derive(Clone, Copy, PartialEq, Eq, PartialOrd, Ord, Hash, Debug)]
pub struct SkelId {
    number: u32,
}

impl Model for SkelId {
    ghost Value = { ℕ };

    ghost view = { λ a. a.number };

    ghost inverse = { λ n. record { number = n } };
}

impl Numbered for SkelId {
    ghost index = { λ n. n };

    ghost same = { λ a b e. e };

    fn new(n: u32) -> Self {
        SkelId { number: n }
    }

    fn number(self) -> u32 {
        self.number
    }
}

/// A qualifier variable, counted from 0.
#[derive(Clone, Copy, PartialEq, Eq, PartialOrd, Ord, Hash, Debug)]
pub struct VarId {
    number: u32,
}

impl Model for VarId {
    ghost Value = { ℕ };

    ghost view = { λ a. a.number };

    ghost inverse = { λ n. record { number = n } };
}

impl Numbered for VarId {
    ghost index = { λ n. n };

    ghost same = { λ a b e. e };

    fn new(n: u32) -> Self {
        VarId { number: n }
    }

    fn number(self) -> u32 {
        self.number
    }
}

/// A constraint, counted from 0 in the order in which constraints were added.
#[derive(Clone, Copy, PartialEq, Eq, PartialOrd, Ord, Hash, Debug)]
pub struct EdgeId {
    number: u32,
}

impl Model for EdgeId {
    ghost Value = { ℕ };

    ghost view = { λ a. a.number };

    ghost inverse = { λ n. record { number = n } };
}

impl Numbered for EdgeId {
    ghost index = { λ n. n };

    ghost same = { λ a b e. e };

    fn new(n: u32) -> Self {
        EdgeId { number: n }
    }

    fn number(self) -> u32 {
        self.number
    }
}

/// A call site, counted from 0 in the order in which sites were added.
#[derive(Clone, Copy, PartialEq, Eq, PartialOrd, Ord, Hash, Debug)]
pub struct SiteId {
    number: u32,
}

impl Model for SiteId {
    ghost Value = { ℕ };

    ghost view = { λ a. a.number };

    ghost inverse = { λ n. record { number = n } };
}

impl Numbered for SiteId {
    ghost index = { λ n. n };

    ghost same = { λ a b e. e };

    fn new(n: u32) -> Self {
        SiteId { number: n }
    }

    fn number(self) -> u32 {
        self.number
    }
}

/// A unit of a program: 0 is the prelude, 1 and on are the sources.
#[derive(Clone, Copy, PartialEq, Eq, PartialOrd, Ord, Hash, Debug)]
pub struct UnitNo {
    number: u32,
}

impl Model for UnitNo {
    ghost Value = { ℕ };

    ghost view = { λ a. a.number };

    ghost inverse = { λ n. record { number = n } };
}

impl Numbered for UnitNo {
    ghost index = { λ n. n };

    ghost same = { λ a b e. e };

    fn new(n: u32) -> Self {
        UnitNo { number: n }
    }

    fn number(self) -> u32 {
        self.number
    }
}

/// A lattice of a file, counted from 0; a file has at most 16.
#[derive(Clone, Copy, PartialEq, Eq, PartialOrd, Ord, Hash, Debug)]
pub struct LatticeNo {
    number: u8,
}

impl Model for LatticeNo {
    ghost Value = { ℕ };

    ghost view = { λ a. a.number };

    ghost inverse = { λ n. record { number = n } };
}

impl LatticeNo {
    pub fn new(n: u8) -> Self
        ensures { result ≡ n }
    {
        LatticeNo { number: n }
    }

    pub fn number(self) -> u8
        ensures { result ≡ self }
    {
        self.number
    }
}

/// An element of a lattice: the number of its entry, from 0; a lattice has at most 64.
#[derive(Clone, Copy, PartialEq, Eq, PartialOrd, Ord, Hash, Debug)]
pub struct Elem {
    number: u8,
}

impl Model for Elem {
    ghost Value = { ℕ };

    ghost view = { λ a. a.number };

    ghost inverse = { λ n. record { number = n } };
}

impl Elem {
    pub fn new(n: u8) -> Self
        ensures { result ≡ n }
    {
        Elem { number: n }
    }

    pub fn number(self) -> u8
        ensures { result ≡ self }
    {
        self.number
    }
}

/// A set of elements of one lattice: bit n stands for element n.
#[derive(Clone, Copy, PartialEq, Eq, PartialOrd, Ord, Hash, Debug)]
pub struct ElemSet {
    number: u64,
}

impl Model for ElemSet {
    ghost Value = { ℕ };

    ghost view = { λ a. a.number };

    ghost inverse = { λ n. record { number = n } };
}

impl ElemSet {
    pub fn new(n: u64) -> Self
        ensures { result ≡ n }
    {
        ElemSet { number: n }
    }

    pub fn number(self) -> u64
        ensures { result ≡ self }
    {
        self.number
    }
}
