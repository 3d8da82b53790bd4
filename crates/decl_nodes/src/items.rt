//! Items of a unit (C99, 6.9), made of sized parts.
//!
//! Each takes constant time. No height is kept of them: nothing stands above an item but the unit.

ghost use Rattle.std.specs.Prelude.{◌≡◌, ◌++◌, [], ◌∷◌, map, IfOk, OnOk};
ghost use Rattle.c_tree.specs.Tree.{decl_declaration, decl_assert};
ghost use Rattle.c_tree.specs.Unit as units;
ghost use Rattle.c_tree.specs.View.{declr_of, declaration_of};

use crate::declarations::boxed_decl;
use c_nodes::{PresentDeclr, SizedBlock, SizedDeclaration, SizedSpecs};
use c_syntax::{Assert, Attr, Block, Decl, Declaration, Group, Item, Semi, Specs};
use qual_base::{NoMemory, TokenId};
use std::alloc::Global;

/// `Function = ext* Specs declr Attr* Block`.
pub fn function_item(
    extensions: Vec<TokenId>,
    specs: SizedSpecs,
    declr: PresentDeclr,
    attrs: Vec<Attr>,
    body: SizedBlock,
) -> Item
    ensures { units.item_of result ≡ units.function_item extensions.items
        (units.spec_words_from specs.words.items) (declr_of declr.declr.value) attrs.items
        body.opening (units.block_items_from body.items.items) body.closing }
{
    Item::Function {
        extensions,
        specs: Specs { words: specs.words },
        declr: declr.declr,
        attrs,
        body: Block {
            open: body.opening,
            items: body.items,
            close: body.closing,
        },
    }
}

/// `Function = ext* Specs declr Attr* Declaration* Block`, behind a list of identifiers.
pub fn old_function_item(
    extensions: Vec<TokenId>,
    specs: SizedSpecs,
    declr: PresentDeclr,
    attrs: Vec<Attr>,
    declarations: Vec<Declaration>,
    body: SizedBlock,
) -> Item
    ensures { units.item_of result ≡ units.old_function_item extensions.items
        (units.spec_words_from specs.words.items) (declr_of declr.declr.value) attrs.items
        (map declaration_of declarations.items)
        body.opening (units.block_items_from body.items.items) body.closing }
{
    Item::OldFunction {
        extensions,
        specs: Specs { words: specs.words },
        declr: declr.declr,
        attrs,
        declarations,
        body: Block {
            open: body.opening,
            items: body.items,
            close: body.closing,
        },
    }
}

/// Puts a declaration behind others.
pub fn push_declaration(
    declarations: &mut Vec<Declaration>,
    next: SizedDeclaration,
) -> Result<(), NoMemory>
    ensures { OnOk result
        (declarations.new.items ≡ declarations.old.items ++ next.tree.value ∷ []) }
{
    declarations.push(Box::into_inner(next.tree))?;
    Ok(())
}

/// A declaration.
pub fn declaration_item(alloc: Global, it: SizedDeclaration) -> Result<Item, NoMemory>
    ensures { IfOk result (λ made. units.item_of made
        ≡ units.decl_item (decl_declaration (declaration_of it.tree.value))) }
{
    let decl = boxed_decl(alloc, Decl::Declaration(it.tree))?;
    Ok(Item::Decl(decl))
}

/// `Assert = _Static_assert bal ;`.
pub fn assert_item(alloc: Global, it: Assert) -> Result<Item, NoMemory>
    ensures { IfOk result (λ made. units.item_of made ≡ units.decl_item (decl_assert it)) }
{
    let decl = boxed_decl(alloc, Decl::Assert(it))?;
    Ok(Item::Decl(decl))
}

/// `AsmDecl = asm bal ;`.
pub fn asm_item(keyword: TokenId, group: Group, semi: TokenId) -> Item
    ensures { units.item_of result ≡ units.asm_item keyword group semi }
{
    Item::AsmDecl {
        keyword,
        group,
        semi,
    }
}

/// `Semi = ;`.
pub fn semi_item(semi: TokenId) -> Item
    ensures { units.item_of result ≡ units.semi_item (record { token = semi }) }
{
    Item::Semi(Semi { token: semi })
}

/// One item more at the end.
pub fn push_item(items: &mut Vec<Item>, next: Item) -> Result<(), NoMemory>
    ensures { OnOk result (items.new.items ≡ items.old.items ++ next ∷ []) }
{
    match items.push(next) {
        Ok(()) => Ok(()),
        Err(_) => Err(NoMemory),
    }
}
