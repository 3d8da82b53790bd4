//! Statements, and words of specifiers, whose parts are lists or may be missing, made so that their trees are known
//! by those of the parts.

ghost use Rattle.std.specs.Prelude.{◌≡◌};
ghost use Rattle.c_tree.specs.Lists.{some_declr_from, some_expr_from, some_else_from};
ghost use Rattle.c_tree.specs.Tree as trees;
ghost use Rattle.c_tree.specs.Unit.{block_items_from, spec_words_from};
ghost use Rattle.c_tree.specs.View.{expr_of, spec_word_of, block_item_of, stmt_of, for_start_of};

use c_syntax::{
    Block, BlockItem, Expr, ForStart, Identifier, Marked, SpecWord, Stmt, TypeName, Word,
};
use qual_base::TokenId;

pub(crate) fn block(block: Block) -> Stmt
    ensures { stmt_of result
        ≡ trees.block block.«open» (block_items_from block.items.items) block.close }
{
    Stmt::Block(block)
}

pub(crate) fn expr_stmt(value: Option<Box<Expr>>, semi: TokenId) -> Stmt
    ensures { stmt_of result ≡ trees.expr_stmt (some_expr_from value) semi }
{
    Stmt::ExprStmt { value, semi }
}

pub(crate) fn if_stmt(
    keyword: TokenId,
    open: TokenId,
    condition: Box<Expr>,
    close: TokenId,
    body: Box<Stmt>,
    otherwise: Option<Marked<Box<Stmt>>>,
) -> Stmt
    ensures { stmt_of result ≡ trees.if_stmt keyword «open» (expr_of condition.value) close
        (stmt_of body.value) (some_else_from otherwise) }
{
    Stmt::If {
        keyword,
        open,
        condition,
        close,
        body,
        otherwise,
    }
}

pub(crate) fn start_value(value: Option<Box<Expr>>, semi: TokenId) -> ForStart
    ensures { for_start_of result ≡ trees.start_value (some_expr_from value) semi }
{
    ForStart::Value { value, semi }
}

pub(crate) fn for_stmt(
    keyword: TokenId,
    open: TokenId,
    start: ForStart,
    condition: Option<Box<Expr>>,
    semi: TokenId,
    step: Option<Box<Expr>>,
    close: TokenId,
    body: Box<Stmt>,
) -> Stmt
    ensures { stmt_of result ≡ trees.for_stmt keyword «open» (for_start_of start)
        (some_expr_from condition) semi (some_expr_from step) close (stmt_of body.value) }
{
    Stmt::For {
        keyword,
        open,
        start,
        condition,
        semi,
        step,
        close,
        body,
    }
}

pub(crate) fn return_stmt(keyword: TokenId, value: Option<Box<Expr>>, semi: TokenId) -> Stmt
    ensures { stmt_of result ≡ trees.return_stmt keyword (some_expr_from value) semi }
{
    Stmt::Return {
        keyword,
        value,
        semi,
    }
}

/// `TypeofType = typeof ( TypeName )` and `AtomicType = _Atomic ( TypeName )`.
pub(crate) fn typeof_type(
    keyword: Word,
    open: TokenId,
    type_name: TypeName,
    close: TokenId,
) -> SpecWord
    ensures { spec_word_of result ≡ trees.typeof_type keyword «open»
        (spec_words_from type_name.specs.words.items) (some_declr_from type_name.declr) close }
{
    SpecWord::TypeofType {
        keyword,
        open,
        type_name,
        close,
    }
}

/// `LabelDecl = __label__ Name (, Name)* ;`.
pub(crate) fn labels(keyword: TokenId, names: Vec<Identifier>, semi: TokenId) -> BlockItem
    ensures { block_item_of result ≡ trees.block_labels keyword names.items semi }
{
    BlockItem::Labels {
        keyword,
        names,
        semi,
    }
}
