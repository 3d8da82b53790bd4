//! Nodes of initialisers (C99, 6.7.8), made of sized parts.
//!
//! Each takes constant time.

ghost use Rattle.std.specs.Prelude.{◌≡◌, None};
ghost use Rattle.c_nodes.specs.Sized.{expr};
ghost use Rattle.c_tree.specs.Lists.{init_items_from, some_init_from};
ghost use Rattle.c_tree.specs.Tree as trees;
ghost use Rattle.c_tree.specs.View.{init_of, desig_of};

use c_nodes::{
    SizedDesig, SizedDesigs, SizedExpr, SizedInit, SizedInitItem, SizedInitItems, SizedInitList,
    SizedSomeInit, above, above_both,
};
use c_syntax::{Desig, Identifier, Init, Marked};
use qual_base::TokenId;

/// `init = assign`.
pub fn init_value(value: SizedExpr) -> SizedInit
    ensures { init_of result.init ≡ trees.init_value (expr value) }
{
    SizedInit {
        init: Init::Value(value.tree),
        height: value.height,
    }
}

/// `init = InitList`.
pub fn init_braced(list: SizedInitList) -> SizedInit
    ensures { init_of result.init ≡ trees.init_braced (trees.init_list list.opening
        (init_items_from list.items.items) list.comma list.closing) }
{
    let height = list.height;
    let list = c_nodes::list_in_braces(list.opening, list.items, list.comma, list.closing);
    SizedInit {
        init: Init::InitList(list),
        height,
    }
}

/// `InitList = { [InitItem (, InitItem)* [,]] }`.
pub fn init_list(
    opening: TokenId,
    items: SizedInitItems,
    comma: Option<TokenId>,
    closing: TokenId,
) -> SizedInitList
    ensures opening { result.opening ≡ opening }
    ensures items { result.items ≡ items.items }
    ensures comma { result.comma ≡ comma }
    ensures closing { result.closing ≡ closing }
{
    SizedInitList {
        opening,
        items: items.items,
        comma,
        closing,
        height: above(items.height),
    }
}

/// `InitItem = [Desig+ =] init`.
pub fn init_item(desigs: SizedDesigs, equal: Option<TokenId>, init: SizedInit) -> SizedInitItem
    ensures desigs { result.desigs ≡ desigs.items }
    ensures equal { result.equal ≡ equal }
    ensures init { result.init ≡ init.init }
{
    SizedInitItem {
        desigs: desigs.items,
        equal,
        init: init.init,
        height: above_both(desigs.height, init.height),
    }
}

/// `Desig = . Name`.
pub fn member_desig(dot: TokenId, name: Identifier) -> SizedDesig
    ensures { desig_of result.desig ≡ trees.member_desig dot name }
{
    SizedDesig {
        desig: Desig::Member { dot, name },
        height: 1,
    }
}

/// `Desig = [ cond ]`.
pub fn index_desig(opening: TokenId, index: SizedExpr, closing: TokenId) -> SizedDesig
    ensures { desig_of result.desig ≡ trees.index_desig opening (expr index) closing }
{
    SizedDesig {
        desig: Desig::Index {
            open: opening,
            index: index.tree,
            close: closing,
        },
        height: above(index.height),
    }
}

/// `Desig = [ cond ... cond ]`.
pub fn range_desig(
    opening: TokenId,
    first: SizedExpr,
    dots: TokenId,
    last: SizedExpr,
    closing: TokenId,
) -> SizedDesig
    ensures { desig_of result.desig
        ≡ trees.range_desig opening (expr first) dots (expr last) closing }
{
    SizedDesig {
        desig: Desig::Range {
            open: opening,
            first: first.tree,
            dots,
            last: last.tree,
            close: closing,
        },
        height: above_both(first.height, last.height),
    }
}

/// `OldDesig = Name :`.
pub fn old_desig(name: Identifier, colon: TokenId) -> SizedDesig
    ensures { desig_of result.desig ≡ trees.old_desig name colon }
{
    SizedDesig {
        desig: Desig::Old { name, colon },
        height: 1,
    }
}

/// No initialiser.
pub fn no_init() -> SizedSomeInit
    ensures { result.init ≡ None }
{
    SizedSomeInit {
        init: None,
        height: 0,
    }
}

/// `= init`.
pub fn some_init(equal: TokenId, init: SizedInit) -> SizedSomeInit
    ensures { some_init_from result.init ≡ trees.some_init equal (init_of init.init) }
{
    SizedSomeInit {
        init: Some(Marked {
            token: equal,
            part: init.init,
        }),
        height: init.height,
    }
}
