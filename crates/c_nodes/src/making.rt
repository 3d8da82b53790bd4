//! Nodes whose parts are lists or may be missing, made so that their trees are known by those of
//! the parts.

ghost use Rattle.std.specs.Prelude.{◌≡◌};
ghost use Rattle.c_tree.specs.Lists.{assocs_from, some_declr_from, desigs_from, init_items_from};
ghost use Rattle.c_tree.specs.Tree as trees;
ghost use Rattle.c_tree.specs.Unit.{spec_words_from, block_items_from};
ghost use Rattle.c_tree.specs.View.{expr_of, assoc_of, init_list_of};

use c_syntax::{Assoc, Block, Desig, Expr, Identifier, InitItem, InitList, TypeName};
use qual_base::TokenId;

/// `InitList = { [InitItem (, InitItem)* [,]] }`.
pub fn list_in_braces(
    open: TokenId,
    items: Vec<InitItem>,
    comma: Option<TokenId>,
    close: TokenId,
) -> InitList
    ensures { init_list_of result
        ≡ trees.init_list «open» (init_items_from items.items) comma close }
{
    InitList {
        open,
        items,
        comma,
        close,
    }
}

/// `Compound = ( TypeName ) InitList`.
pub(crate) fn compound(open: TokenId, type_name: TypeName, close: TokenId, list: InitList) -> Expr
    ensures { expr_of result ≡ trees.compound «open» (spec_words_from type_name.specs.words.items)
        (some_declr_from type_name.declr) close (init_list_of list) }
{
    Expr::Compound {
        open,
        type_name,
        close,
        list,
    }
}

/// `StmtExpr = ( Block )`.
pub(crate) fn statement_expr(open: TokenId, block: Block, close: TokenId) -> Expr
    ensures { expr_of result ≡ trees.statement_expr «open» block.«open»
        (block_items_from block.items.items) block.close close }
{
    Expr::StmtExpr { open, block, close }
}

/// `VaArg = __builtin_va_arg ( assign , TypeName )`.
pub(crate) fn va_arg(
    keyword: TokenId,
    open: TokenId,
    list: Box<Expr>,
    comma: TokenId,
    type_name: TypeName,
    close: TokenId,
) -> Expr
    ensures { expr_of result ≡ trees.va_arg keyword «open» (expr_of list.value) comma
        (spec_words_from type_name.specs.words.items) (some_declr_from type_name.declr) close }
{
    Expr::VaArg {
        keyword,
        open,
        list,
        comma,
        type_name,
        close,
    }
}

/// `Offset = __builtin_offsetof ( TypeName , Name (. Name | [ expr ])* )`.
pub(crate) fn offset(
    keyword: TokenId,
    open: TokenId,
    type_name: TypeName,
    comma: TokenId,
    member: Identifier,
    steps: Vec<Desig>,
    close: TokenId,
) -> Expr
    ensures { expr_of result ≡ trees.offset keyword «open»
        (spec_words_from type_name.specs.words.items) (some_declr_from type_name.declr) comma
        member (desigs_from steps.items) close }
{
    Expr::Offset {
        keyword,
        open,
        type_name,
        comma,
        member,
        steps,
        close,
    }
}

/// `Compat = __builtin_types_compatible_p ( TypeName , TypeName )`.
pub(crate) fn compat(
    keyword: TokenId,
    open: TokenId,
    left: TypeName,
    comma: TokenId,
    right: TypeName,
    close: TokenId,
) -> Expr
    ensures { expr_of result ≡ trees.compat keyword «open»
        (spec_words_from left.specs.words.items) (some_declr_from left.declr) comma
        (spec_words_from right.specs.words.items) (some_declr_from right.declr) close }
{
    Expr::Compat {
        keyword,
        open,
        left,
        comma,
        right,
        close,
    }
}

/// `Generic = _Generic ( assign , Assoc (, Assoc)* )`.
pub(crate) fn generic(
    keyword: TokenId,
    open: TokenId,
    control: Box<Expr>,
    associations: Vec<Assoc>,
    close: TokenId,
) -> Expr
    ensures { expr_of result ≡ trees.generic keyword «open» (expr_of control.value)
        (assocs_from associations.items) close }
{
    Expr::Generic {
        keyword,
        open,
        control,
        associations,
        close,
    }
}

/// `Assoc = TypeName : assign`.
pub(crate) fn typed_assoc(type_name: TypeName, colon: TokenId, value: Box<Expr>) -> Assoc
    ensures { assoc_of result ≡ trees.typed_assoc (spec_words_from type_name.specs.words.items)
        (some_declr_from type_name.declr) colon (expr_of value.value) }
{
    Assoc::Typed {
        type_name,
        colon,
        value,
    }
}
