//! Nodes of expressions (C99, 6.5), made of sized parts.
//!
//! Each takes constant time. Parts are let go where there is no memory.

ghost use Rattle.std.specs.Prelude.{◌≡◌, None, IfOk};
ghost use Rattle.c_nodes.specs.Sized.{Makes, expr};
ghost use Rattle.c_nodes.specs.Extended.{extended};
ghost use Rattle.c_tree.specs.Lists.{assocs_from, exprs_from, some_expr_from, some_declr_from, desigs_from, init_items_from};
ghost use Rattle.c_tree.specs.Tree as trees;
ghost use Rattle.c_tree.specs.Unit.{spec_words_from, block_items_from};
ghost use Rattle.c_tree.specs.View.{assoc_of, desig_of};

use crate::heights::{above, above_both, greater};
use crate::making;
use crate::sized::{
    SizedAssoc, SizedAssocs, SizedBlock, SizedExpr, SizedExprs, SizedInitList, SizedSomeExpr,
    SizedStep, SizedSteps, SizedTypeName,
};
use c_syntax::{Assoc, Block, Desig, Expr, Identifier, Specs, TypeName, Word};
use c_words::Punct;
use qual_base::{NameId, NoMemory, TokenId};
use std::alloc::Global;

/// An expression in a box.
fn boxed(alloc: Global, e: Expr) -> Result<Box<Expr>, NoMemory>
    ensures { IfOk result (λ made. made.value ≡ e) }
{
    match Box::new(alloc, e) {
        Ok(made) => Ok(made),
        Err(_) => Err(NoMemory),
    }
}

/// `Index = postfix [ expr ]`.
pub fn index(
    alloc: Global,
    base: SizedExpr,
    opening: TokenId,
    index: SizedExpr,
    closing: TokenId,
) -> Result<SizedExpr, NoMemory>
    ensures { Makes result (trees.index (expr base) opening (expr index) closing) }
{
    let height = above_both(base.height, index.height);
    let node = Expr::Index {
        base: base.tree,
        open: opening,
        index: index.tree,
        close: closing,
    };
    let tree = boxed(alloc, node)?;
    Ok(SizedExpr { tree, height })
}

/// `Call = postfix ( [assign (, assign)*] )`.
pub fn call(
    alloc: Global,
    callee: SizedExpr,
    opening: TokenId,
    arguments: SizedExprs,
    closing: TokenId,
) -> Result<SizedExpr, NoMemory>
    ensures { Makes result
        (trees.call (expr callee) opening (exprs_from arguments.items.items) closing) }
{
    let height = above_both(callee.height, arguments.height);
    let node = c_tree::call(callee.tree, opening, arguments.items, closing);
    let tree = boxed(alloc, node)?;
    Ok(SizedExpr { tree, height })
}

/// `Dot = postfix . Name`.
pub fn dot(
    alloc: Global,
    base: SizedExpr,
    token: TokenId,
    member: Identifier,
) -> Result<SizedExpr, NoMemory>
    ensures { Makes result (trees.dot (expr base) token member) }
{
    let height = above(base.height);
    let node = Expr::Dot {
        base: base.tree,
        token,
        member,
    };
    let tree = boxed(alloc, node)?;
    Ok(SizedExpr { tree, height })
}

/// `Arrow = postfix -> Name`.
pub fn arrow(
    alloc: Global,
    base: SizedExpr,
    token: TokenId,
    member: Identifier,
) -> Result<SizedExpr, NoMemory>
    ensures { Makes result (trees.arrow (expr base) token member) }
{
    let height = above(base.height);
    let node = Expr::Arrow {
        base: base.tree,
        token,
        member,
    };
    let tree = boxed(alloc, node)?;
    Ok(SizedExpr { tree, height })
}

/// `Post = postfix (++ | --)`.
pub fn post(
    alloc: Global,
    operand: SizedExpr,
    token: TokenId,
    sign: Punct,
) -> Result<SizedExpr, NoMemory>
    ensures { Makes result (trees.post (expr operand) token sign) }
{
    let height = above(operand.height);
    let node = Expr::Post {
        operand: operand.tree,
        token,
        sign,
    };
    let tree = boxed(alloc, node)?;
    Ok(SizedExpr { tree, height })
}

/// `Compound = ( TypeName ) InitList`.
pub fn compound(
    alloc: Global,
    opening: TokenId,
    of: SizedTypeName,
    closing: TokenId,
    list: SizedInitList,
) -> Result<SizedExpr, NoMemory>
    ensures { Makes result (trees.compound opening (spec_words_from of.words.items)
        (some_declr_from of.declr) closing
        (trees.init_list list.opening (init_items_from list.items.items) list.comma list.closing)) }
{
    let height = above_both(of.height, list.height);
    let type_name = TypeName {
        specs: Specs { words: of.words },
        declr: of.declr,
    };
    let list = making::list_in_braces(list.opening, list.items, list.comma, list.closing);
    let node = making::compound(opening, type_name, closing, list);
    let tree = boxed(alloc, node)?;
    Ok(SizedExpr { tree, height })
}

/// `NameUse = Name`.
pub fn name_use(alloc: Global, token: TokenId, name: NameId) -> Result<SizedExpr, NoMemory>
    ensures { Makes result (trees.name_use token name) }
{
    let tree = boxed(alloc, Expr::NameUse { token, name })?;
    Ok(SizedExpr { tree, height: 1 })
}

/// `NumberUse = Number`.
pub fn number_use(alloc: Global, token: TokenId) -> Result<SizedExpr, NoMemory>
    ensures { Makes result (trees.number_use token) }
{
    let tree = boxed(alloc, Expr::NumberUse { token })?;
    Ok(SizedExpr { tree, height: 1 })
}

/// `CharUse = Char`.
pub fn char_use(alloc: Global, token: TokenId) -> Result<SizedExpr, NoMemory>
    ensures { Makes result (trees.char_use token) }
{
    let tree = boxed(alloc, Expr::CharUse { token })?;
    Ok(SizedExpr { tree, height: 1 })
}

/// `TextUse = Text+`.
pub fn text_use(alloc: Global, texts: Vec<TokenId>) -> Result<SizedExpr, NoMemory>
    ensures { Makes result (trees.text_use texts.items) }
{
    let tree = boxed(alloc, Expr::TextUse { texts })?;
    Ok(SizedExpr { tree, height: 1 })
}

/// `Paren = ( expr )`.
pub fn paren(
    alloc: Global,
    opening: TokenId,
    inner: SizedExpr,
    closing: TokenId,
) -> Result<SizedExpr, NoMemory>
    ensures { Makes result (trees.paren opening (expr inner) closing) }
{
    let height = above(inner.height);
    let node = Expr::Paren {
        open: opening,
        inner: inner.tree,
        close: closing,
    };
    let tree = boxed(alloc, node)?;
    Ok(SizedExpr { tree, height })
}

/// `StmtExpr = ( Block )`.
pub fn statement_expr(
    alloc: Global,
    opening: TokenId,
    block: SizedBlock,
    closing: TokenId,
) -> Result<SizedExpr, NoMemory>
    ensures { Makes result (trees.statement_expr opening block.opening
        (block_items_from block.items.items) block.closing closing) }
{
    let height = above(block.height);
    let block = Block {
        open: block.opening,
        items: block.items,
        close: block.closing,
    };
    let node = making::statement_expr(opening, block, closing);
    let tree = boxed(alloc, node)?;
    Ok(SizedExpr { tree, height })
}

/// `Cast = ( TypeName ) cast`.
pub fn cast(
    alloc: Global,
    opening: TokenId,
    of: SizedTypeName,
    closing: TokenId,
    operand: SizedExpr,
) -> Result<SizedExpr, NoMemory>
    ensures { Makes result (trees.cast opening (spec_words_from of.words.items)
        (some_declr_from of.declr) closing (expr operand)) }
{
    let height = above_both(of.height, operand.height);
    let type_name = TypeName {
        specs: Specs { words: of.words },
        declr: of.declr,
    };
    let node = c_tree::cast(opening, type_name, closing, operand.tree);
    let tree = boxed(alloc, node)?;
    Ok(SizedExpr { tree, height })
}

/// `Prefix = (++ | --) unary | (& | * | + | - | ~ | !) cast`.
pub fn prefix(
    alloc: Global,
    token: TokenId,
    sign: Punct,
    operand: SizedExpr,
) -> Result<SizedExpr, NoMemory>
    ensures { Makes result (trees.prefix token sign (expr operand)) }
{
    let height = above(operand.height);
    let node = Expr::Prefix {
        token,
        sign,
        operand: operand.tree,
    };
    let tree = boxed(alloc, node)?;
    Ok(SizedExpr { tree, height })
}

/// `Ext = ext cast`.
pub fn extension(alloc: Global, token: TokenId, operand: SizedExpr) -> Result<SizedExpr, NoMemory>
    ensures { Makes result (trees.extension token (expr operand)) }
{
    let height = above(operand.height);
    let node = Expr::Ext {
        keyword: token,
        operand: operand.tree,
    };
    let tree = boxed(alloc, node)?;
    Ok(SizedExpr { tree, height })
}

/// An expression behind `__extension__` again and again, at these tokens.
///
/// Linear in the tokens. Recursive as deep as there are such.
pub fn extended(
    alloc: Global,
    tokens: &[TokenId],
    operand: SizedExpr,
) -> Result<SizedExpr, NoMemory>
    ensures { Makes result (extended tokens.now (expr operand)) }
{
    match tokens {
        [] => Ok(operand),
        [first, rest @ ..] => {
            let inner = extended(alloc, rest, operand)?;
            extension(alloc, *first, inner)
        }
    }
}

/// `Sizeof = (sizeof | alignof) unary`.
pub fn sizeof_value(alloc: Global, keyword: Word, operand: SizedExpr) -> Result<SizedExpr, NoMemory>
    ensures { Makes result (trees.sizeof_value keyword (expr operand)) }
{
    let height = above(operand.height);
    let node = Expr::Sizeof {
        keyword,
        operand: operand.tree,
    };
    let tree = boxed(alloc, node)?;
    Ok(SizedExpr { tree, height })
}

/// `SizeofType = (sizeof | alignof) ( TypeName )`.
pub fn sizeof_type(
    alloc: Global,
    keyword: Word,
    opening: TokenId,
    of: SizedTypeName,
    closing: TokenId,
) -> Result<SizedExpr, NoMemory>
    ensures { Makes result (trees.sizeof_type keyword opening (spec_words_from of.words.items)
        (some_declr_from of.declr) closing) }
{
    let height = above(of.height);
    let type_name = TypeName {
        specs: Specs { words: of.words },
        declr: of.declr,
    };
    let node = c_tree::sizeof_type(keyword, opening, type_name, closing);
    let tree = boxed(alloc, node)?;
    Ok(SizedExpr { tree, height })
}

/// `VaArg = __builtin_va_arg ( assign , TypeName )`.
pub fn va_arg(
    alloc: Global,
    keyword: TokenId,
    opening: TokenId,
    list: SizedExpr,
    comma: TokenId,
    of: SizedTypeName,
    closing: TokenId,
) -> Result<SizedExpr, NoMemory>
    ensures { Makes result (trees.va_arg keyword opening (expr list) comma
        (spec_words_from of.words.items) (some_declr_from of.declr) closing) }
{
    let height = above_both(list.height, of.height);
    let type_name = TypeName {
        specs: Specs { words: of.words },
        declr: of.declr,
    };
    let node = making::va_arg(keyword, opening, list.tree, comma, type_name, closing);
    let tree = boxed(alloc, node)?;
    Ok(SizedExpr { tree, height })
}

/// `VaStart = __builtin_va_start ( assign , assign )`.
pub fn va_start(
    alloc: Global,
    keyword: TokenId,
    opening: TokenId,
    list: SizedExpr,
    comma: TokenId,
    last: SizedExpr,
    closing: TokenId,
) -> Result<SizedExpr, NoMemory>
    ensures { Makes result (trees.va_start keyword opening (expr list) comma (expr last) closing) }
{
    let height = above_both(list.height, last.height);
    let node = Expr::VaStart {
        keyword,
        open: opening,
        list: list.tree,
        comma,
        last: last.tree,
        close: closing,
    };
    let tree = boxed(alloc, node)?;
    Ok(SizedExpr { tree, height })
}

/// `VaCopy = __builtin_va_copy ( assign , assign )`.
pub fn va_copy(
    alloc: Global,
    keyword: TokenId,
    opening: TokenId,
    target: SizedExpr,
    comma: TokenId,
    source: SizedExpr,
    closing: TokenId,
) -> Result<SizedExpr, NoMemory>
    ensures { Makes result
        (trees.va_copy keyword opening (expr target) comma (expr source) closing) }
{
    let height = above_both(target.height, source.height);
    let node = Expr::VaCopy {
        keyword,
        open: opening,
        target: target.tree,
        comma,
        source: source.tree,
        close: closing,
    };
    let tree = boxed(alloc, node)?;
    Ok(SizedExpr { tree, height })
}

/// `Offset = __builtin_offsetof ( TypeName , Name (. Name | [ expr ])* )`.
pub fn offset(
    alloc: Global,
    keyword: TokenId,
    opening: TokenId,
    of: SizedTypeName,
    comma: TokenId,
    member: Identifier,
    steps: SizedSteps,
    closing: TokenId,
) -> Result<SizedExpr, NoMemory>
    ensures { Makes result (trees.offset keyword opening (spec_words_from of.words.items)
        (some_declr_from of.declr) comma member (desigs_from steps.items.items) closing) }
{
    let height = above_both(of.height, steps.height);
    let type_name = TypeName {
        specs: Specs { words: of.words },
        declr: of.declr,
    };
    let node = making::offset(
        keyword,
        opening,
        type_name,
        comma,
        member,
        steps.items,
        closing,
    );
    let tree = boxed(alloc, node)?;
    Ok(SizedExpr { tree, height })
}

/// `Part = part cast`: the real or the imaginary part.
pub fn complex_part(
    alloc: Global,
    keyword: TokenId,
    operand: SizedExpr,
) -> Result<SizedExpr, NoMemory>
    ensures { Makes result (trees.complex_part keyword (expr operand)) }
{
    let height = above(operand.height);
    let node = Expr::Part {
        keyword,
        operand: operand.tree,
    };
    let tree = boxed(alloc, node)?;
    Ok(SizedExpr { tree, height })
}

/// `LabelUse = && Name`.
pub fn label_use(alloc: Global, token: TokenId, label: Identifier) -> Result<SizedExpr, NoMemory>
    ensures { Makes result (trees.label_use token label) }
{
    let tree = boxed(alloc, Expr::LabelUse { token, label })?;
    Ok(SizedExpr { tree, height: 1 })
}

/// `Compat = __builtin_types_compatible_p ( TypeName , TypeName )`.
pub fn compat(
    alloc: Global,
    keyword: TokenId,
    opening: TokenId,
    left: SizedTypeName,
    comma: TokenId,
    right: SizedTypeName,
    closing: TokenId,
) -> Result<SizedExpr, NoMemory>
    ensures { Makes result (trees.compat keyword opening (spec_words_from left.words.items)
        (some_declr_from left.declr) comma (spec_words_from right.words.items)
        (some_declr_from right.declr) closing) }
{
    let height = above_both(left.height, right.height);
    let left = TypeName {
        specs: Specs { words: left.words },
        declr: left.declr,
    };
    let right = TypeName {
        specs: Specs { words: right.words },
        declr: right.declr,
    };
    let node = making::compat(keyword, opening, left, comma, right, closing);
    let tree = boxed(alloc, node)?;
    Ok(SizedExpr { tree, height })
}

/// `Choose = __builtin_choose_expr ( assign , assign , assign )`.
pub fn choose(
    alloc: Global,
    keyword: TokenId,
    opening: TokenId,
    condition: SizedExpr,
    comma: TokenId,
    first: SizedExpr,
    second_comma: TokenId,
    second: SizedExpr,
    closing: TokenId,
) -> Result<SizedExpr, NoMemory>
    ensures { Makes result (trees.choose keyword opening (expr condition) comma (expr first)
        second_comma (expr second) closing) }
{
    let height = above_both(condition.height, greater(first.height, second.height));
    let node = Expr::Choose {
        keyword,
        open: opening,
        condition: condition.tree,
        comma,
        first: first.tree,
        second_comma,
        second: second.tree,
        close: closing,
    };
    let tree = boxed(alloc, node)?;
    Ok(SizedExpr { tree, height })
}

/// `Assoc = TypeName : assign`.
pub fn typed_assoc(of: SizedTypeName, colon: TokenId, value: SizedExpr) -> SizedAssoc
    ensures { assoc_of result.assoc ≡ trees.typed_assoc (spec_words_from of.words.items)
        (some_declr_from of.declr) colon (expr value) }
{
    let height = above_both(of.height, value.height);
    let type_name = TypeName {
        specs: Specs { words: of.words },
        declr: of.declr,
    };
    let assoc = making::typed_assoc(type_name, colon, value.tree);
    SizedAssoc { assoc, height }
}

/// `Assoc = default : assign`.
pub fn default_assoc(keyword: TokenId, colon: TokenId, value: SizedExpr) -> SizedAssoc
    ensures { assoc_of result.assoc ≡ trees.default_assoc keyword colon (expr value) }
{
    SizedAssoc {
        assoc: Assoc::Default {
            keyword,
            colon,
            value: value.tree,
        },
        height: above(value.height),
    }
}

/// `Generic = _Generic ( assign , Assoc (, Assoc)* )`.
pub fn generic(
    alloc: Global,
    keyword: TokenId,
    opening: TokenId,
    control: SizedExpr,
    associations: SizedAssocs,
    closing: TokenId,
) -> Result<SizedExpr, NoMemory>
    ensures { Makes result (trees.generic keyword opening (expr control)
        (assocs_from associations.items.items) closing) }
{
    let height = above_both(control.height, associations.height);
    let node = making::generic(keyword, opening, control.tree, associations.items, closing);
    let tree = boxed(alloc, node)?;
    Ok(SizedExpr { tree, height })
}

/// A step `. Name` of an offset.
pub fn member_step(dot: TokenId, name: Identifier) -> SizedStep
    ensures { desig_of result.step ≡ trees.member_desig dot name }
{
    SizedStep {
        step: Desig::Member { dot, name },
        height: 0,
    }
}

/// A step `[ expr ]` of an offset.
pub fn index_step(opening: TokenId, index: SizedExpr, closing: TokenId) -> SizedStep
    ensures { desig_of result.step ≡ trees.index_desig opening (expr index) closing }
{
    SizedStep {
        step: Desig::Index {
            open: opening,
            index: index.tree,
            close: closing,
        },
        height: index.height,
    }
}

/// No expression.
pub fn no_expr() -> SizedSomeExpr
    ensures { result.tree ≡ None }
{
    SizedSomeExpr {
        tree: None,
        height: 0,
    }
}

/// An expression where one may be missing.
pub fn some_expr(e: SizedExpr) -> SizedSomeExpr
    ensures { some_expr_from result.tree ≡ trees.some_expr (expr e) }
{
    SizedSomeExpr {
        tree: Some(e.tree),
        height: e.height,
    }
}
