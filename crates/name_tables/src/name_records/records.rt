//! Uses and faults, each a plain value.

use crate::name_scopes::Place;
use qual_base::TypeId;

/// What a name in an expression stands for.
#[derive(Clone, Copy, PartialEq, Eq, Debug, Drop)]
pub enum Use {
    Means(Place),
    /// It is undeclared and called directly: a function of any arguments that gives an `int`.
    Called,
    Missing,
}

/// A name in an expression.
#[derive(Clone, Copy, PartialEq, Eq, Debug, Drop)]
pub struct NameUse {
    pub at: Place,
    pub use_of: Use,
}

/// A type's name, at its first token.
#[derive(Clone, Copy, PartialEq, Eq, Debug, Drop)]
pub struct TypeNamed {
    pub at: Place,
    pub ty: TypeId,
}

/// The rules of names and declared types that may fail.
#[derive(Clone, Copy, PartialEq, Eq, Debug, Drop)]
pub enum Rule {
    /// A name in an expression has no visible declaration and is not called directly.
    Undeclared,
    /// A second body of a function, or of a tag in one scope.
    DefinedTwice,
    /// A declared type or a type's name has over 4,096 constructors.
    TypeTooLarge,
    /// An expression that a type is made by has none by what is known behind it.
    NoType,
}

/// A rule that fails at a place.
#[derive(Clone, Copy, PartialEq, Eq, Debug, Drop)]
pub struct Fault {
    pub at: Place,
    pub rule: Rule,
}
