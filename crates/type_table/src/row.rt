//! A type, one level deep.

use qual_base::{StructId, TokenId, TypeId, UnitNo};

/// A type by its outermost constructor, and its parts by their numbers.
///
/// `Base` stands for each arithmetic and enumerated type (C99, 6.2.5), and `Ref` for pointers and arrays. A function has
/// its parameters, its result, and whether it takes further arguments.
#[derive(Drop, Debug)]
pub enum Shape {
    Base,
    Void,
    Ref(TypeId),
    Fun {
        params: Vec<TypeId>,
        result: TypeId,
        ellipsis: bool,
    },
    Struct(StructId),
}

/// A type with the annotation words that are written on it, each by its unit and token.
#[derive(Drop, Debug)]
pub struct TypeRow {
    pub shape: Shape,
    pub words: Vec<(UnitNo, TokenId)>,
    /// The words that are written on what stands for a function's further arguments.
    pub ellipsis_words: Vec<(UnitNo, TokenId)>,
    /// How many constructors it has, at most 2^32 - 1.
    pub size: u32,
}
