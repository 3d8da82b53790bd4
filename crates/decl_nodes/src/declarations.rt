//! Declarations (C99, 6.7) and items of blocks, made of sized parts.
//!
//! Each takes constant time. Parts are let go where there is no memory.

ghost use Rattle.std.specs.Prelude.{◌≡◌, IfOk};
ghost use Rattle.c_tree.specs.Lists.{init_declrs_from};
ghost use Rattle.c_tree.specs.Tree as trees;
ghost use Rattle.c_tree.specs.Unit.{spec_words_from};
ghost use Rattle.c_tree.specs.View.{declaration_of, decl_of, block_item_of};
ghost use Rattle.decl_nodes.specs.Made.{stmt};

use crate::making;
use c_nodes::{
    PresentDeclr, SizedBlockItem, SizedDeclaration, SizedInitDeclr, SizedInitDeclrs, SizedSomeInit,
    SizedSpecs, SizedStmt, above_both, greater, of_attrs, of_label,
};
use c_syntax::{AsmLabel, Assert, Attr, BlockItem, Decl, Declaration, Identifier, Specs};
use qual_base::{NoMemory, TokenId};
use std::alloc::Global;

/// `InitDeclr = declr [AsmLabel] Attr* [= init]`, with the attributes before it.
pub fn init_declr(
    before: Vec<Attr>,
    declr: PresentDeclr,
    label: Option<AsmLabel>,
    attrs: Vec<Attr>,
    init: SizedSomeInit,
) -> SizedInitDeclr
    ensures before { result.before ≡ before }
    ensures declr { result.declr ≡ declr.declr }
    ensures label { result.label ≡ label }
    ensures attrs { result.attrs ≡ attrs }
    ensures init { result.init ≡ init.init }
{
    let behind = greater(of_attrs(attrs.as_slice()), init.height);
    let behind = greater(of_label(&label), behind);
    let behind = greater(declr.height, behind);
    let height = above_both(of_attrs(before.as_slice()), behind);
    SizedInitDeclr {
        before,
        declr: declr.declr,
        label,
        attrs,
        init: init.init,
        height,
    }
}

fn boxed_declaration(alloc: Global, it: Declaration) -> Result<Box<Declaration>, NoMemory>
    ensures { IfOk result (λ made. made.value ≡ it) }
{
    match Box::new(alloc, it) {
        Ok(made) => Ok(made),
        Err(_) => Err(NoMemory),
    }
}

/// `Declaration = ext* Specs [InitDeclr (, Attr* InitDeclr)*] ;`.
pub fn declaration(
    alloc: Global,
    extensions: Vec<TokenId>,
    specs: SizedSpecs,
    declrs: SizedInitDeclrs,
    semi: TokenId,
) -> Result<SizedDeclaration, NoMemory>
    ensures { IfOk result (λ made. declaration_of made.tree.value
        ≡ trees.declaration extensions.items
        (spec_words_from specs.words.items) (init_declrs_from declrs.items.items) semi) }
{
    let height = above_both(specs.height, declrs.height);
    let words = Specs { words: specs.words };
    let node = c_tree::declaration(extensions, words, declrs.items, semi);
    let tree = boxed_declaration(alloc, node)?;
    Ok(SizedDeclaration { tree, height })
}

/// A declaration or an assertion in a box.
pub(crate) fn boxed_decl(alloc: Global, decl: Decl) -> Result<Box<Decl>, NoMemory>
    ensures { IfOk result (λ made. made.value ≡ decl) }
{
    match Box::new(alloc, decl) {
        Ok(made) => Ok(made),
        Err(_) => Err(NoMemory),
    }
}

/// A declaration in a block.
pub fn block_declaration(alloc: Global, it: SizedDeclaration) -> Result<SizedBlockItem, NoMemory>
    ensures { IfOk result (λ made. block_item_of made.item
        ≡ trees.block_decl (trees.decl_declaration (declaration_of it.tree.value))) }
{
    let height = it.height;
    let decl = boxed_decl(alloc, Decl::Declaration(it.tree))?;
    Ok(SizedBlockItem {
        item: BlockItem::Decl(decl),
        height,
    })
}

/// `Assert = _Static_assert bal ;` in a block.
pub fn block_assert(alloc: Global, it: Assert) -> Result<SizedBlockItem, NoMemory>
    ensures { IfOk result
        (λ made. block_item_of made.item ≡ trees.block_decl (trees.decl_assert it)) }
{
    let decl = boxed_decl(alloc, Decl::Assert(it))?;
    Ok(SizedBlockItem {
        item: BlockItem::Decl(decl),
        height: 1,
    })
}

/// A statement in a block.
pub fn block_stmt(s: SizedStmt) -> SizedBlockItem
    ensures { block_item_of result.item ≡ trees.block_stmt (stmt s) }
{
    SizedBlockItem {
        item: BlockItem::Stmt(s.tree),
        height: s.height,
    }
}

/// `LabelDecl = __label__ Name (, Name)* ;`.
pub fn block_labels(keyword: TokenId, names: Vec<Identifier>, semi: TokenId) -> SizedBlockItem
    ensures { block_item_of result.item ≡ trees.block_labels keyword names.items semi }
{
    SizedBlockItem {
        item: making::labels(keyword, names, semi),
        height: 1,
    }
}
