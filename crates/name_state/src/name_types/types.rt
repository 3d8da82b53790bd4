//! The types so far, and one more.

ghost use Rattle.std.specs.Prelude.{◌≡◌, ◌+◌, ◌<◌, ◌≤◌, ◌++◌, ℕ, [], length, map, nat_lt, true, IfOk, OnOk};
ghost use Rattle.type_table.specs.Types.{CType, base, pointer, size};
ghost use Rattle.type_table.specs.Rows.{shown, types_of, type_of, AreParts, AreBelow};
ghost use Rattle.name_rules.specs.Pieces as pieces;
ghost use Rattle.name_rules.specs.Pieces.{with_words, decayed, is_function, piece_of, to_function};
ghost use Rattle.name_rules.specs.Declaring.{struct_number};
ghost use Rattle.name_rules.specs.Pieces.{types_in};
ghost use Rattle.name_rules.specs.NameSteps.Steps.{ellipsis_where};
ghost use Rattle.name_state.specs.NameTypes.Known.{Knows, Is, Grows, so_far_type, IsLow, bare_at, AreBare};

use crate::name_types::copy::copy_of;
use name_tables::name_scopes::Place;
use qual_base::{NoMemory, Numbered, StructId, TypeId};
use std::alloc::Global;
use std::marker::Model;
use type_table::{Shape, TypeTable};

/// The type of specifiers so far, without annotation words.
#[derive(Clone, Copy, PartialEq, Eq, Debug, Drop)]
pub enum SoFar {
    Base,
    Void,
    Struct(StructId),
    Type(TypeId),
}

/// The types of a program, by numbers. Clauses see the rows of their table.
#[derive(Drop)]
pub struct Types {
    table: TypeTable,
    plain: TypeId,
    /// Of the first types, as many as were asked for, the types without annotation words.
    bare: Vec<TypeId>,
}

impl Model for Types {
    ghost use Rattle.std.specs.Prelude.{List, ◌≡◌, ◌<◌, [], length};
    ghost use Rattle.type_table.specs.declared.row.TypeRow as row;
    ghost use Rattle.type_table.specs.Types.{base};
    ghost use Rattle.type_table.specs.Rows.{type_of};

    ghost Value = { List row.TypeRow };

    ghost view = { λ s. s.table };

    ghost use Rattle.name_state.specs.NameTypes.Known.{AreBare};

    ghost invariant = { λ s. ((s.plain < length s.table) × (type_of s.table s.plain ≡ base []))
        × AreBare s.table s.bare.items };
}

impl Types {
    /// The base type alone.
    pub fn new(alloc: Global) -> Result<Self, NoMemory> {
        let mut table = TypeTable::new(alloc);
        let plain = table.push(Shape::Base, Vec::new(alloc), Vec::new(alloc))?;
        let bare = Vec::new(alloc);
        Ok(Types { table, plain, bare })
    }

    /// The table of all types.
    pub fn table(&self) -> &TypeTable
        ensures { result.now ≡ self.now }
    {
        &self.table
    }

    /// The base type without words. Constant time.
    pub fn base(&self) -> TypeId
        ensures low { result < length self.now }
        ensures is { Is self.now result (λ t. base []) }
    {
        self.plain
    }

    /// One more row.
    fn add(
        &mut self,
        shape: Shape,
        words: Vec<Place>,
        ellipsis_words: Vec<Place>,
    ) -> Result<TypeId, NoMemory>
        requires { AreParts (length self.old) shape }
        ensures there { IfOk result (λ at. type_of self.new at
            ≡ shown (types_of self.old) shape words.items ellipsis_words.items) }
        ensures low { IfOk result (λ at. at < length self.new) }
        ensures grown { OnOk result (Grows self.old self.new) }
    {
        self.table.push(shape, words, ellipsis_words)
    }

    /// Whether a type is a function's. Constant time.
    pub fn is_function(&self, ty: TypeId) -> bool
        requires { ty < length self.now }
        ensures { (t : ℕ → CType) → Knows t self.now → result ≡ is_function (t ty) }
    {
        match self.table.shape(ty) {
            Shape::Fun { .. } => true,
            Shape::Base | Shape::Void | Shape::Ref(_) | Shape::Struct(_) => false,
        }
    }

    /// The number of a struct, and 0 of any other type. Constant time.
    pub fn struct_number(&self, ty: TypeId) -> StructId
        requires { ty < length self.now }
        ensures { (t : ℕ → CType) → Knows t self.now → result ≡ struct_number (t ty) }
    {
        match self.table.shape(ty) {
            Shape::Struct(number) => *number,
            Shape::Base | Shape::Void | Shape::Ref(_) | Shape::Fun { .. } => StructId::new(0),
        }
    }

    /// Whether a type has over 4,096 constructors. Constant time.
    pub fn is_too_large(&self, ty: TypeId) -> bool
        requires { ty < length self.now }
        ensures { (t : ℕ → CType) → Knows t self.now → result ≡ nat_lt 4096 (size (t ty)) }
    {
        self.table.size(ty) > 4096
    }

    /// A pointer to a type, with its words. Constant time but for growth.
    pub fn pointer(
        &mut self,
        alloc: Global,
        words: Vec<Place>,
        inside: TypeId,
    ) -> Result<TypeId, NoMemory>
        requires { inside < length self.old }
        ensures made { IfOk result (λ ty. Is self.new ty (λ t. pointer words.items (t inside))) }
        ensures low { IfOk result (λ ty. ty < length self.new) }
        ensures grown { OnOk result (Grows self.old self.new) }
    {
        self.add(Shape::Ref(inside), words, Vec::new(alloc))
    }

    /// The type of a function's parameter or result. Constant time but for growth.
    pub fn decayed(&mut self, alloc: Global, ty: TypeId) -> Result<TypeId, NoMemory>
        requires { ty < length self.old }
        ensures made { IfOk result (λ at. Is self.new at (λ t. decayed (t ty))) }
        ensures low { IfOk result (λ at. at < length self.new) }
        ensures grown { OnOk result (Grows self.old self.new) }
    {
        if self.is_function(ty) {
            let at = self.pointer(alloc, Vec::new(alloc), ty)?;
            Ok(at)
        } else {
            Ok(ty)
        }
    }

    /// A function that gives a type; the words are those of its ellipsis. Constant time but for growth.
    pub fn function(
        &mut self,
        alloc: Global,
        params: Vec<TypeId>,
        has_ellipsis: bool,
        words: Vec<Place>,
        back: TypeId,
    ) -> Result<TypeId, NoMemory>
        requires params { AreBelow (length self.old) params.items }
        requires back { back < length self.old }
        ensures made { IfOk result (λ ty. Is self.new ty
            (λ t. piece_of (to_function (types_in (map t params.items))
            (ellipsis_where has_ellipsis words.items)) (t back))) }
        ensures low { IfOk result (λ ty. ty < length self.new) }
        ensures grown { OnOk result (Grows self.old self.new) }
    {
        let result = self.decayed(alloc, back)?;
        let shape = Shape::Fun {
            params,
            result,
            ellipsis: has_ellipsis,
        };
        let at = self.add(shape, Vec::new(alloc), words)?;
        Ok(at)
    }

    /// A type with more words behind its own. Linear in all of them and in the number of parameters, and constant without words.
    fn with_words(
        &mut self,
        alloc: Global,
        more: Vec<Place>,
        ty: TypeId,
    ) -> Result<TypeId, NoMemory>
        requires { ty < length self.old }
        ensures made { IfOk result
            (λ at. type_of self.new at ≡ with_words more.items (type_of self.old ty)) }
        ensures low { IfOk result (λ at. at < length self.new) }
        ensures grown { OnOk result (Grows self.old self.new) }
    {
        if more.is_empty() {
            return Ok(ty);
        }
        let shape = copy_of(alloc, self.table.shape(ty))?;
        let words = joined(alloc, self.table.words(ty), &more)?;
        let ellipsis_words = self.table.ellipsis_words(ty).to_vec(alloc)?;
        self.add(shape, words, ellipsis_words)
    }

    /// A type without annotation words, on each node and before each ellipsis. All calls together are linear in the types and in the
    /// parameters of those that were there.
    pub fn bare(&mut self, alloc: Global, ty: TypeId) -> Result<TypeId, NoMemory>
        ensures made { IfOk result
            (λ at. type_of self.new at ≡ pieces.bare (type_of self.old ty)) }
        ensures low { IfOk result (λ at. at < length self.new) }
        ensures grown { OnOk result (Grows self.old self.new) }
    {
        if ty.number() >= self.table.len() {
            return Ok(self.plain);
        }
        find_bare_to(alloc, &mut self.table, &mut self.bare, ty)?;
        Ok(bare_part(&self.bare, ty))
    }

    /// The type of specifiers with their words. Linear in the words, and in the number of parameters where there are words.
    pub fn specified(
        &mut self,
        alloc: Global,
        words: Vec<Place>,
        so_far: &SoFar,
    ) -> Result<TypeId, NoMemory>
        requires { IsLow (length self.old) so_far.now }
        ensures made { IfOk result
            (λ ty. Is self.new ty (λ t. with_words words.items (so_far_type t so_far.now))) }
        ensures low { IfOk result (λ ty. ty < length self.new) }
        ensures grown { OnOk result (Grows self.old self.new) }
    {
        match so_far {
            SoFar::Base => self.with_words(alloc, words, self.plain),
            SoFar::Void => self.add(Shape::Void, words, Vec::new(alloc)),
            SoFar::Struct(number) => self.add(Shape::Struct(*number), words, Vec::new(alloc)),
            SoFar::Type(ty) => self.with_words(alloc, words, *ty),
        }
    }
}

/// Words and more words. Linear in them.
fn joined(alloc: Global, words: &[Place], more: &[Place]) -> Result<Vec<Place>, NoMemory>
    ensures { IfOk result (λ all. all.items ≡ words.now ++ more.now) }
{
    let mut all = words.to_vec(alloc)?;
    all.extend_from_slice(more)?;
    Ok(all)
}

/// The type without annotation words of a type, by those of the first types; past these the type itself. Constant time.
fn bare_part(bare: &[TypeId], ty: TypeId) -> TypeId
    ensures { result ≡ bare_at bare.now ty }
{
    match bare.get(ty.number() as usize) {
        Some(at) => *at,
        None => ty,
    }
}

/// The types without annotation words of types, by those of the first types. Linear in them.
fn bare_parts(alloc: Global, bare: &[TypeId], types: &[TypeId]) -> Result<Vec<TypeId>, NoMemory>
    ensures { IfOk result (λ all. all.items ≡ map (bare_at bare.now) types.now) }
{
    let mut all = Vec::new(alloc);
    for ty in types {
        all.push(bare_part(bare, *ty))?;
    }
    Ok(all)
}

/// The outermost constructor of a type, with parts without annotation words, which are known of those before it. Linear in the number
/// of its parameters.
fn bare_shape(
    alloc: Global,
    table: &TypeTable,
    bare: &[TypeId],
    ty: TypeId,
) -> Result<Shape, NoMemory>
    requires known { AreBare table.now bare.now }
    requires next { ty ≡ length bare.now }
    requires there { ty < length table.now }
    ensures made { IfOk result
        (λ shape. shown (types_of table.now) shape [] [] ≡ pieces.bare (type_of table.now ty)) }
    ensures parts { IfOk result (AreParts (length table.now)) }
{
    match table.shape(ty) {
        Shape::Base => Ok(Shape::Base),
        Shape::Void => Ok(Shape::Void),
        Shape::Ref(inside) => Ok(Shape::Ref(bare_part(bare, *inside))),
        Shape::Fun {
            params,
            result: back,
            ellipsis,
        } => {
            let params = bare_parts(alloc, bare, params)?;
            Ok(Shape::Fun {
                params,
                result: bare_part(bare, *back),
                ellipsis: *ellipsis,
            })
        }
        Shape::Struct(number) => Ok(Shape::Struct(*number)),
    }
}

/// Whether types are their own types without annotation words. Linear in them.
fn are_bare(bare: &[TypeId], types: &[TypeId]) -> bool
    ensures { result ≡ true → map (bare_at bare.now) types.now ≡ types.now }
{
    for ty in types {
        if bare_part(bare, *ty) != *ty {
            return false;
        }
    }
    true
}

/// Whether a type has no annotation words, where that is known of those before it. Linear in the number of its parameters.
fn is_bare(table: &TypeTable, bare: &[TypeId], ty: TypeId) -> bool
    requires known { AreBare table.now bare.now }
    requires next { ty ≡ length bare.now }
    ensures { result ≡ true → pieces.bare (type_of table.now ty) ≡ type_of table.now ty }
{
    if !table.words(ty).is_empty() || !table.ellipsis_words(ty).is_empty() {
        return false;
    }
    match table.shape(ty) {
        Shape::Base | Shape::Void | Shape::Struct(_) => true,
        Shape::Ref(inside) => bare_part(bare, *inside) == *inside,
        Shape::Fun {
            params,
            result: back,
            ..
        } => are_bare(bare, params) && bare_part(bare, *back) == *back,
    }
}

/// Finds the type without annotation words of the first type of which it is not known. Linear in the number of its parameters,
/// but for growth.
fn find_bare(alloc: Global, table: &mut TypeTable, bare: &mut Vec<TypeId>) -> Result<(), NoMemory>
    requires known { AreBare table.old bare.old.items }
    requires room { length bare.old.items < length table.old }
    ensures known { AreBare table.new bare.new.items }
    ensures grown { Grows table.old table.new }
    ensures one { OnOk result (length bare.new.items ≡ length bare.old.items + 1) }
{
    let _count = table.len();
    let ty = TypeId::new(bare.len() as u32);
    if is_bare(table, bare, ty) {
        bare.push(ty)?;
        return Ok(());
    }
    let shape = bare_shape(alloc, table, bare, ty)?;
    let at = table.push(shape, Vec::new(alloc), Vec::new(alloc))?;
    bare.push(at)?;
    Ok(())
}

/// Finds the types without annotation words of the types up to one.
fn find_bare_to(
    alloc: Global,
    table: &mut TypeTable,
    bare: &mut Vec<TypeId>,
    ty: TypeId,
) -> Result<(), NoMemory>
    requires known { AreBare table.old bare.old.items }
    requires there { ty < length table.old }
    ensures known { AreBare table.new bare.new.items }
    ensures grown { Grows table.old table.new }
    ensures found { OnOk result (ty < length bare.new.items) }
{
    while bare.len() <= ty.number() as usize {
        find_bare(alloc, table, bare)?;
    }
    Ok(())
}
