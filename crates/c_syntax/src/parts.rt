//! The parts of nodes that hold no other node.

use c_words::Keyword;
use qual_base::{NameId, TokenId};

/// A name where it stands.
#[derive(Clone, Copy, PartialEq, Eq, Debug)]
pub struct Identifier {
    pub token: TokenId,
    pub name: NameId,
}

/// A word where it stands, of those that the line leaves to choose from.
#[derive(Clone, Copy, PartialEq, Eq, Debug)]
pub struct Word {
    pub token: TokenId,
    pub keyword: Keyword,
}

/// A group of tokens from `(` to its `)`, in which all brackets match.
#[derive(Clone, Copy, PartialEq, Eq, Debug)]
pub struct Group {
    pub first: TokenId,
    pub last: TokenId,
}

/// `Attr = attribute bal`.
#[derive(Clone, Copy, PartialEq, Eq, Debug)]
pub struct Attr {
    pub keyword: TokenId,
    pub group: Group,
}

/// `AsmLabel = asm bal`: the name that the linker sees.
#[derive(Clone, Copy, PartialEq, Eq, Debug)]
pub struct AsmLabel {
    pub keyword: TokenId,
    pub group: Group,
}

/// `Semi = ;`, an item that says nothing.
#[derive(Clone, Copy, PartialEq, Eq, Debug)]
pub struct Semi {
    pub token: TokenId,
}

/// `Assert = _Static_assert bal ;`.
#[derive(Clone, Copy, PartialEq, Eq, Debug)]
pub struct Assert {
    pub keyword: TokenId,
    pub group: Group,
    pub semi: TokenId,
}

/// `qual = const | volatile | restrict | Qual | Index` (C99, 6.7.3): the annotation words among them. In wider C `_Atomic` and
/// the named address spaces too.
#[derive(Clone, Copy, PartialEq, Eq, Debug)]
pub enum Qual {
    /// One of `const`, `volatile` and `restrict`, in wider C of `_Atomic`, `__seg_fs` and `__seg_gs` too.
    Word(Word),
    /// A `$` word that names an element of a lattice.
    Element { token: TokenId },
    /// A `$_` word of a prelude.
    Index { token: TokenId },
}

/// A word after the `*` of a pointer: `qual | Attr`.
#[derive(Clone, Copy, PartialEq, Eq, Debug)]
pub enum PointerWord {
    Qual(Qual),
    Attr(Attr),
}

/// A word in the brackets of an array: `static | qual` (C99, 6.7.5.2).
#[derive(Clone, Copy, PartialEq, Eq, Debug)]
pub enum ArrayWord {
    Static { token: TokenId },
    Qual(Qual),
}

/// The end of a parameter list that takes more arguments: `, qual* ...`.
#[derive(Drop)]
pub struct Ellipsis {
    pub comma: TokenId,
    pub quals: Vec<Qual>,
    pub dots: TokenId,
}

/// A part with the sign or the word that stands before it, as in `: cond`, `= init` or `else stmt`.
#[derive(Drop)]
pub struct Marked<T> {
    pub token: TokenId,
    pub part: T,
}

/// An item of a list of declarators, with the attributes between the comma and it.
///
/// The first of a list has no such attributes: they are words of the specifiers.
#[derive(Drop)]
pub struct Listed<T> {
    pub attrs: Vec<Attr>,
    pub item: T,
}

/// The body of a struct or union: `{ member* }`.
#[derive(Drop)]
pub struct Braced<T> {
    pub open: TokenId,
    pub items: Vec<T>,
    pub close: TokenId,
}

/// The body of an enum: `{ Enumerator (, Enumerator)* [,] }`.
#[derive(Drop)]
pub struct BracedList<T> {
    pub open: TokenId,
    pub items: Vec<T>,
    pub comma: Option<TokenId>,
    pub close: TokenId,
}
