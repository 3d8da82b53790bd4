//! Trees with their heights.
//!
//! A reader of the program holds these alone. A height is how many nodes are on the longest way
//! down, at most 2^32 - 1; what is no node itself, as a list, has the greatest height of its parts.

ghost use Rattle.std.specs.Prelude.{◌≡◌};
ghost use Rattle.c_tree.specs.Capped.{capped};
ghost use Rattle.c_nodes.specs.Heights.{of_assoc, of_assocs, of_block, of_block_item, of_body, of_declaration, of_declr, of_desig, of_desigs, of_else, of_enum_body, of_enumerator, of_enumerators, of_expr, of_exprs, of_init, of_init_declr, of_init_declrs, of_init_item, of_init_items, of_init_list, of_mem_declr, of_member, of_members, of_param, of_params, of_size, of_some_declr, of_some_expr, of_some_init, of_start, of_step, of_steps, of_stmt, of_struct_item, of_struct_items, of_type_name, of_value, of_word, of_words};

use c_syntax::{
    ArraySize, AsmLabel, Assoc, Attr, BlockItem, Braced, BracedList, Declaration, Declr, Desig,
    Enumerator, Expr, ForStart, Identifier, Init, InitDeclr, InitItem, Listed, Marked, MemDeclr,
    Param, SpecWord, Stmt, StructItem,
};
use qual_base::TokenId;

/// An expression and its height.
#[derive(Drop)]
pub struct SizedExpr {
    pub tree: Box<Expr>,
    pub height: u32,
    pub ghost sized: { height ≡ capped (of_expr tree) },
}

/// An expression or none, and its height.
#[derive(Drop)]
pub struct SizedSomeExpr {
    pub tree: Option<Box<Expr>>,
    pub height: u32,
    pub ghost sized: { height ≡ capped (of_some_expr tree) },
}

/// Expressions and the greatest of their heights.
#[derive(Drop)]
pub struct SizedExprs {
    pub items: Vec<Expr>,
    pub height: u32,
    pub ghost sized: { height ≡ capped (of_exprs items.items) },
}

/// An association of a selection by a type, and its height.
#[derive(Drop)]
pub struct SizedAssoc {
    pub assoc: Assoc,
    pub height: u32,
    pub ghost sized: { height ≡ capped (of_assoc assoc) },
}

/// Associations and the greatest of their heights.
#[derive(Drop)]
pub struct SizedAssocs {
    pub items: Vec<Assoc>,
    pub height: u32,
    pub ghost sized: { height ≡ capped (of_assocs items.items) },
}

/// The name of a type, and its height.
#[derive(Drop)]
pub struct SizedTypeName {
    pub words: Vec<SpecWord>,
    pub declr: Option<Box<Declr>>,
    pub height: u32,
    pub ghost sized: { height ≡ capped (of_type_name words.items declr) },
}

/// The words of specifiers, and the height of these, which count themselves.
#[derive(Drop)]
pub struct SizedSpecs {
    pub words: Vec<SpecWord>,
    pub height: u32,
    pub ghost sized: { height ≡ capped (of_words words.items) },
}

/// A word of specifiers and its height.
#[derive(Drop)]
pub struct SizedWord {
    pub word: SpecWord,
    pub height: u32,
    pub ghost sized: { height ≡ capped (of_word word) },
}

/// The body of a struct or union or none, and the greatest height of its items.
#[derive(Drop)]
pub struct SizedBody {
    pub body: Option<Braced<StructItem>>,
    pub height: u32,
    pub ghost sized: { height ≡ capped (of_body body) },
}

/// What stands in the body of a struct or union, and its height.
#[derive(Drop)]
pub struct SizedStructItem {
    pub item: StructItem,
    pub height: u32,
    pub ghost sized: { height ≡ capped (of_struct_item item) },
}

/// What stands in the body of a struct or union, and the greatest height there.
#[derive(Drop)]
pub struct SizedStructItems {
    pub items: Vec<StructItem>,
    pub height: u32,
    pub ghost sized: { height ≡ capped (of_struct_items items.items) },
}

/// A declarator of a member and its height.
#[derive(Drop)]
pub struct SizedMemDeclr {
    pub declr: MemDeclr,
    pub height: u32,
    pub ghost sized: { height ≡ capped (of_mem_declr declr) },
}

/// A declarator of a member with the attributes before it, and the greater height.
#[derive(Drop)]
pub struct SizedMember {
    pub attrs: Vec<Attr>,
    pub declr: MemDeclr,
    pub height: u32,
    pub ghost sized: { height ≡ capped (of_member attrs.items declr) },
}

/// The declarators of a member, and the greatest of their heights.
#[derive(Drop)]
pub struct SizedMembers {
    pub items: Vec<Listed<MemDeclr>>,
    pub height: u32,
    pub ghost sized: { height ≡ capped (of_members items.items) },
}

/// A value behind its sign or none, and its height.
#[derive(Drop)]
pub struct SizedValue {
    pub value: Option<Marked<Box<Expr>>>,
    pub height: u32,
    pub ghost sized: { height ≡ capped (of_value value) },
}

/// The body of an enum or none, and the greatest height of its enumerators.
#[derive(Drop)]
pub struct SizedEnumBody {
    pub body: Option<BracedList<Enumerator>>,
    pub height: u32,
    pub ghost sized: { height ≡ capped (of_enum_body body) },
}

/// An enumerator and its height.
#[derive(Drop)]
pub struct SizedEnumerator {
    pub name: Identifier,
    pub attrs: Vec<Attr>,
    pub value: Option<Marked<Box<Expr>>>,
    pub height: u32,
    pub ghost sized: { height ≡ capped (of_enumerator attrs.items value) },
}

/// Enumerators and the greatest of their heights.
#[derive(Drop)]
pub struct SizedEnumerators {
    pub items: Vec<Enumerator>,
    pub height: u32,
    pub ghost sized: { height ≡ capped (of_enumerators items.items) },
}

/// A declarator or none, and its height.
#[derive(Drop)]
pub struct SizedDeclr {
    pub declr: Option<Box<Declr>>,
    pub height: u32,
    pub ghost sized: { height ≡ capped (of_some_declr declr) },
}

/// A declarator and its height.
#[derive(Drop)]
pub struct PresentDeclr {
    pub declr: Box<Declr>,
    pub height: u32,
    pub ghost sized: { height ≡ capped (of_declr declr) },
}

/// The size of an array or none, and its height.
#[derive(Drop)]
pub struct SizedSize {
    pub size: Option<ArraySize>,
    pub height: u32,
    pub ghost sized: { height ≡ capped (of_size size) },
}

/// A parameter and its height.
#[derive(Drop)]
pub struct SizedParam {
    pub words: Vec<SpecWord>,
    pub declr: Option<Box<Declr>>,
    pub attrs: Vec<Attr>,
    pub height: u32,
    pub ghost sized: { height ≡ capped (of_param words.items declr attrs.items) },
}

/// Parameters and the greatest of their heights.
#[derive(Drop)]
pub struct SizedParams {
    pub items: Vec<Param>,
    pub height: u32,
    pub ghost sized: { height ≡ capped (of_params items.items) },
}

/// An initialiser and its height.
#[derive(Drop)]
pub struct SizedInit {
    pub init: Init,
    pub height: u32,
    pub ghost sized: { height ≡ capped (of_init init) },
}

/// An initialiser in braces and its height.
#[derive(Drop)]
pub struct SizedInitList {
    pub opening: TokenId,
    pub items: Vec<InitItem>,
    pub comma: Option<TokenId>,
    pub closing: TokenId,
    pub height: u32,
    pub ghost sized: { height ≡ capped (of_init_list items.items) },
}

/// An item of an initialiser in braces, and its height.
#[derive(Drop)]
pub struct SizedInitItem {
    pub desigs: Vec<Desig>,
    pub equal: Option<TokenId>,
    pub init: Init,
    pub height: u32,
    pub ghost sized: { height ≡ capped (of_init_item desigs.items init) },
}

/// Items of an initialiser in braces, and the greatest of their heights.
#[derive(Drop)]
pub struct SizedInitItems {
    pub items: Vec<InitItem>,
    pub height: u32,
    pub ghost sized: { height ≡ capped (of_init_items items.items) },
}

/// A designator and its height.
#[derive(Drop)]
pub struct SizedDesig {
    pub desig: Desig,
    pub height: u32,
    pub ghost sized: { height ≡ capped (of_desig desig) },
}

/// Designators and the greatest of their heights.
#[derive(Drop)]
pub struct SizedDesigs {
    pub items: Vec<Desig>,
    pub height: u32,
    pub ghost sized: { height ≡ capped (of_desigs items.items) },
}

/// A step of an offset, which is no node, and the height of its index.
#[derive(Drop)]
pub struct SizedStep {
    pub step: Desig,
    pub height: u32,
    pub ghost sized: { height ≡ capped (of_step step) },
}

/// The steps of an offset, and the greatest height of their indices.
#[derive(Drop)]
pub struct SizedSteps {
    pub items: Vec<Desig>,
    pub height: u32,
    pub ghost sized: { height ≡ capped (of_steps items.items) },
}

/// An initialiser behind its sign or none, and its height.
#[derive(Drop)]
pub struct SizedSomeInit {
    pub init: Option<Marked<Init>>,
    pub height: u32,
    pub ghost sized: { height ≡ capped (of_some_init init) },
}

/// A declarator of a declaration with what stands round it, and its height.
#[derive(Drop)]
pub struct SizedInitDeclr {
    pub before: Vec<Attr>,
    pub declr: Box<Declr>,
    pub label: Option<AsmLabel>,
    pub attrs: Vec<Attr>,
    pub init: Option<Marked<Init>>,
    pub height: u32,
    pub ghost sized: { height ≡ capped (of_init_declr before.items declr label attrs.items init) },
}

/// The declarators of a declaration, and the greatest of their heights.
#[derive(Drop)]
pub struct SizedInitDeclrs {
    pub items: Vec<Listed<InitDeclr>>,
    pub height: u32,
    pub ghost sized: { height ≡ capped (of_init_declrs items.items) },
}

/// A declaration and its height.
#[derive(Drop)]
pub struct SizedDeclaration {
    pub tree: Box<Declaration>,
    pub height: u32,
    pub ghost sized: { height ≡ capped (of_declaration tree) },
}

/// A block and its height, which counts the block.
#[derive(Drop)]
pub struct SizedBlock {
    pub opening: TokenId,
    pub items: Vec<BlockItem>,
    pub closing: TokenId,
    pub height: u32,
    pub ghost sized: { height ≡ capped (of_block items.items) },
}

/// An item of a block, and its height.
#[derive(Drop)]
pub struct SizedBlockItem {
    pub item: BlockItem,
    pub height: u32,
    pub ghost sized: { height ≡ capped (of_block_item item) },
}

/// The items of a block, and the height of the block.
#[derive(Drop)]
pub struct SizedBlockItems {
    pub items: Vec<BlockItem>,
    pub height: u32,
    pub ghost sized: { height ≡ capped (of_block items.items) },
}

/// A statement and its height.
#[derive(Drop)]
pub struct SizedStmt {
    pub tree: Box<Stmt>,
    pub height: u32,
    pub ghost sized: { height ≡ capped (of_stmt tree) },
}

/// The other branch of an `if` or none, and its height.
#[derive(Drop)]
pub struct SizedElse {
    pub other: Option<Marked<Box<Stmt>>>,
    pub height: u32,
    pub ghost sized: { height ≡ capped (of_else other) },
}

/// How a `for` begins, and the height of that.
#[derive(Drop)]
pub struct SizedStart {
    pub start: ForStart,
    pub height: u32,
    pub ghost sized: { height ≡ capped (of_start start) },
}
