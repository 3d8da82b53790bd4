//! The table of types.

ghost use Rattle.std.specs.Prelude.{◌≡◌, ◌+◌, ◌<◌, ◌-◌, ◌^◌, ◌∷◌, ◌++◌, [], ℕ, length, slice_get};
ghost use Rattle.std.specs.Prelude.{IfOk, MatchOption, OnErr, OnOk, Some};
ghost use Rattle.type_table.specs.Types.{Words, base, size, sizes, words_of, ellipsis_words_of};
ghost use Rattle.type_table.specs.Rows.{shown, types_at, types_of, type_of, AreParts, AreMade};
ghost use Rattle.type_table.specs.Rows.{capped, Keeps, Stands};

use crate::row::{Shape, TypeRow};
use qual_base::{NoMemory, Numbered, TokenId, TypeId, UnitNo};
use std::alloc::Global;
use std::marker::Model;

/// Types by their numbers, in the order in which they were pushed. A type names lower types only, so no type is inside
/// itself, and types may share parts. A struct or union is named by its number; what it holds does not stand here.
#[derive(Drop)]
pub struct TypeTable {
    rows: Vec<TypeRow>,
    /// The type of a number past the table, which `shape` lends.
    past: Shape,
}

impl Model for TypeTable {
    ghost use Rattle.std.specs.Prelude.{List};
    ghost use Rattle.type_table.specs.declared.row.TypeRow as row;

    ghost Value = { List row.TypeRow };

    ghost use Rattle.type_table.specs.Held.{IsHeld};

    ghost view = { λ a. a.rows.items };

    ghost invariant = { IsHeld };
}

impl TypeTable {
    /// A table without types. Takes no memory.
    pub fn new(alloc: Global) -> Self
        ensures { result ≡ [] }
    {
        TypeTable {
            rows: Vec::new(alloc),
            past: Shape::Base,
        }
    }

    /// Adds a type whose parts are there, with its words. A list of words belongs to its row, so what a typedef's use adds
    /// is a row of its own. Linear in the number of parameters, and constant but for growth otherwise; memory: a row. For
    /// want of memory, and where there are 2^32 - 1 types, the table stays as it was.
    #[tactic(auto, using(crate::proofs::Pushing::pushed_is, crate::proofs::Pushing::pushed_keeps, crate::proofs::Pushing::pushed_made))]
    pub fn push(
        &mut self,
        shape: Shape,
        words: Vec<(UnitNo, TokenId)>,
        ellipsis_words: Vec<(UnitNo, TokenId)>,
    ) -> Result<TypeId, NoMemory>
        requires { AreParts (length self.old) shape }
        ensures number { IfOk result (λ at. at ≡ length self.old) }
        ensures there { IfOk result (λ at. type_of self.new at
            ≡ shown (types_of self.old) shape words.items ellipsis_words.items) }
        ensures kept { OnOk result (Keeps self.old self.new) }
        ensures longer { OnOk result (length self.new ≡ length self.old + 1) }
        ensures err { OnErr result (self.new ≡ self.old) }
    {
        let at = self.rows.len();
        if at >= 4_294_967_295 {
            return Err(NoMemory);
        }
        let size = self.size_of(&shape);
        let row = TypeRow {
            shape,
            words,
            ellipsis_words,
            size,
        };
        match self.rows.push(row) {
            Ok(()) => {}
            Err(_) => return Err(NoMemory),
        }
        Ok(TypeId::new(at as u32))
    }

    /// How many constructors a type of that shape has, at most 2^32 - 1.
    fn size_of(&self, shape: &Shape) -> u32
        ensures { (ws es : Words) →
            result ≡ capped (size (shown (types_of self.now) shape.now ws es)) }
    {
        match shape {
            Shape::Base => 1,
            Shape::Void => 1,
            Shape::Ref(inside) => self.size(*inside).saturating_add(1),
            Shape::Fun {
                params,
                result: back,
                ellipsis,
            } => self
                .sizes(params)
                .saturating_add(self.size(*back))
                .saturating_add(if *ellipsis { 2 } else { 1 }),
            Shape::Struct(_) => 1,
        }
    }

    /// How many constructors types have together, at most 2^32 - 1. Linear in the number of types.
    pub fn sizes(&self, types: &[TypeId]) -> u32
        ensures { result ≡ capped (sizes (types_at (types_of self.now) types.now)) }
    {
        let mut total = 0u32;
        for ty in types {
            total = total.saturating_add(self.size(*ty));
        }
        total
    }

    /// How many types there are. Constant time.
    pub fn len(&self) -> u32
        ensures { result ≡ length self.now }
    {
        self.rows.len() as u32
    }

    /// The row of a type of the table.
    fn there(&self, ty: TypeId) -> &TypeRow
        requires { ty < length self.now }
        ensures there { slice_get self.now ty ≡ Some result.now }
        ensures made { AreMade [] self.now }
    {
        &self.rows[ty.number() as usize]
    }

    /// The row of a type; past the table there is none.
    #[tactic(auto, using(crate::proofs::Growing::row_stands, crate::proofs::Growing::none_is))]
    fn row(&self, ty: TypeId) -> Option<&TypeRow>
        ensures { MatchOption result (type_of self.now ty ≡ base [])
            (λ row. Stands (types_of self.now) ty row.now) }
    {
        if (ty.number() as usize) < self.rows.len() {
            Some(self.there(ty))
        } else {
            None
        }
    }

    /// A type, one level deep; its parts are lower types. Past the table there are base types. Constant time.
    pub fn shape(&self, ty: TypeId) -> &Shape
        ensures shown { type_of self.now ty ≡ shown (types_of self.now) result.now
            (words_of (type_of self.now ty)) (ellipsis_words_of (type_of self.now ty)) }
        ensures low { AreParts ty result.now }
    {
        match self.row(ty) {
            Some(row) => &row.shape,
            None => &self.past,
        }
    }

    /// The annotation words that are written on a type; past the table there are none. Constant time.
    pub fn words(&self, ty: TypeId) -> &[(UnitNo, TokenId)]
        ensures { result.now ≡ words_of (type_of self.now ty) }
    {
        match self.row(ty) {
            Some(row) => row.words.as_slice(),
            None => &[],
        }
    }

    /// The annotation words before a function's `...`; none where there is no such function. Constant time.
    pub fn ellipsis_words(&self, ty: TypeId) -> &[(UnitNo, TokenId)]
        ensures { result.now ≡ ellipsis_words_of (type_of self.now ty) }
    {
        match self.row(ty) {
            Some(row) => match &row.shape {
                Shape::Fun { ellipsis: true, .. } => row.ellipsis_words.as_slice(),
                _ => &[],
            },
            None => &[],
        }
    }

    /// How many constructors a type has, at most 2^32 - 1: base types, `void`, structs, pointers, functions and ellipses,
    /// a shared part as often as it stands there. Constant time.
    pub fn size(&self, ty: TypeId) -> u32
        ensures { result ≡ capped (size (type_of self.now ty)) }
    {
        match self.row(ty) {
            Some(row) => row.size,
            None => 1,
        }
    }
}
