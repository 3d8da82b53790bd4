//! Nodes of statements (C99, 6.8), made of sized parts.
//!
//! Each takes constant time. Parts are let go where there is no memory.

ghost use Rattle.std.specs.Prelude.{◌≡◌, None, IfOk};
ghost use Rattle.c_nodes.specs.Sized.{expr};
ghost use Rattle.c_tree.specs.Lists.{some_expr_from, some_else_from};
ghost use Rattle.c_tree.specs.Tree as trees;
ghost use Rattle.c_tree.specs.Unit.{block_items_from};
ghost use Rattle.c_tree.specs.View.{declaration_of, stmt_of, for_start_of};
ghost use Rattle.decl_nodes.specs.Made.{MakesStmt, stmt};

use crate::making;
use c_nodes::{
    SizedBlock, SizedBlockItems, SizedDeclaration, SizedElse, SizedExpr, SizedSomeExpr, SizedStart,
    SizedStmt, above, above_both, greater, of_attrs,
};
use c_syntax::{Attr, Block, ForStart, Group, Identifier, Marked, Stmt, Word};
use qual_base::{NoMemory, TokenId};
use std::alloc::Global;

/// A statement in a box.
fn boxed(alloc: Global, s: Stmt) -> Result<Box<Stmt>, NoMemory>
    ensures { IfOk result (λ made. made.value ≡ s) }
{
    match Box::new(alloc, s) {
        Ok(made) => Ok(made),
        Err(_) => Err(NoMemory),
    }
}

/// `Block = { (decl | stmt)* }`.
pub fn block_of(opening: TokenId, items: SizedBlockItems, closing: TokenId) -> SizedBlock
    ensures opening { result.opening ≡ opening }
    ensures items { result.items ≡ items.items }
    ensures closing { result.closing ≡ closing }
{
    SizedBlock {
        opening,
        items: items.items,
        closing,
        height: items.height,
    }
}

/// A block as a statement.
pub fn block(alloc: Global, found: SizedBlock) -> Result<SizedStmt, NoMemory>
    ensures { MakesStmt result
        (trees.block found.opening (block_items_from found.items.items) found.closing) }
{
    let height = found.height;
    let node = making::block(Block {
        open: found.opening,
        items: found.items,
        close: found.closing,
    });
    let tree = boxed(alloc, node)?;
    Ok(SizedStmt { tree, height })
}

/// `ExprStmt = [expr] ;`.
pub fn expr_stmt(alloc: Global, value: SizedSomeExpr, semi: TokenId) -> Result<SizedStmt, NoMemory>
    ensures { MakesStmt result (trees.expr_stmt (some_expr_from value.tree) semi) }
{
    let height = above(value.height);
    let tree = boxed(alloc, making::expr_stmt(value.tree, semi))?;
    Ok(SizedStmt { tree, height })
}

/// `AttrStmt = Attr+ ;`.
pub fn attr_stmt(alloc: Global, attrs: Vec<Attr>, semi: TokenId) -> Result<SizedStmt, NoMemory>
    ensures { MakesStmt result (trees.attr_stmt attrs.items semi) }
{
    let height = above(of_attrs(attrs.as_slice()));
    let tree = boxed(alloc, Stmt::AttrStmt { attrs, semi })?;
    Ok(SizedStmt { tree, height })
}

/// `Label = Name : Attr* stmt`.
pub fn label(
    alloc: Global,
    name: Identifier,
    colon: TokenId,
    attrs: Vec<Attr>,
    body: SizedStmt,
) -> Result<SizedStmt, NoMemory>
    ensures { MakesStmt result (trees.label name colon attrs.items (stmt body)) }
{
    let height = above_both(of_attrs(attrs.as_slice()), body.height);
    let node = Stmt::Label {
        name,
        colon,
        attrs,
        body: body.tree,
    };
    let tree = boxed(alloc, node)?;
    Ok(SizedStmt { tree, height })
}

/// `Case = case cond : stmt`.
pub fn case_stmt(
    alloc: Global,
    keyword: TokenId,
    value: SizedExpr,
    colon: TokenId,
    body: SizedStmt,
) -> Result<SizedStmt, NoMemory>
    ensures { MakesStmt result (trees.case_stmt keyword (expr value) colon (stmt body)) }
{
    let height = above_both(value.height, body.height);
    let node = Stmt::Case {
        keyword,
        value: value.tree,
        colon,
        body: body.tree,
    };
    let tree = boxed(alloc, node)?;
    Ok(SizedStmt { tree, height })
}

/// `Case = case cond ... cond : stmt`.
pub fn case_range(
    alloc: Global,
    keyword: TokenId,
    first: SizedExpr,
    dots: TokenId,
    last: SizedExpr,
    colon: TokenId,
    body: SizedStmt,
) -> Result<SizedStmt, NoMemory>
    ensures { MakesStmt result
        (trees.case_range keyword (expr first) dots (expr last) colon (stmt body)) }
{
    let height = above_both(greater(first.height, last.height), body.height);
    let node = Stmt::CaseRange {
        keyword,
        first: first.tree,
        dots,
        last: last.tree,
        colon,
        body: body.tree,
    };
    let tree = boxed(alloc, node)?;
    Ok(SizedStmt { tree, height })
}

/// `GotoValue = goto * expr ;`.
pub fn goto_value(
    alloc: Global,
    keyword: TokenId,
    star: TokenId,
    value: SizedExpr,
    semi: TokenId,
) -> Result<SizedStmt, NoMemory>
    ensures { MakesStmt result (trees.goto_value keyword star (expr value) semi) }
{
    let height = above(value.height);
    let node = Stmt::GotoValue {
        keyword,
        star,
        value: value.tree,
        semi,
    };
    let tree = boxed(alloc, node)?;
    Ok(SizedStmt { tree, height })
}

/// `Default = default : stmt`.
pub fn default_stmt(
    alloc: Global,
    keyword: TokenId,
    colon: TokenId,
    body: SizedStmt,
) -> Result<SizedStmt, NoMemory>
    ensures { MakesStmt result (trees.default_stmt keyword colon (stmt body)) }
{
    let height = above(body.height);
    let node = Stmt::Default {
        keyword,
        colon,
        body: body.tree,
    };
    let tree = boxed(alloc, node)?;
    Ok(SizedStmt { tree, height })
}

/// No other branch.
pub fn no_else() -> SizedElse
    ensures { result.other ≡ None }
{
    SizedElse {
        other: None,
        height: 0,
    }
}

/// `else stmt`.
pub fn some_else(keyword: TokenId, body: SizedStmt) -> SizedElse
    ensures { some_else_from result.other ≡ trees.some_else keyword (stmt body) }
{
    SizedElse {
        other: Some(Marked {
            token: keyword,
            part: body.tree,
        }),
        height: body.height,
    }
}

/// `If = if ( expr ) stmt [else stmt]`.
pub fn if_stmt(
    alloc: Global,
    keyword: TokenId,
    opening: TokenId,
    condition: SizedExpr,
    closing: TokenId,
    body: SizedStmt,
    otherwise: SizedElse,
) -> Result<SizedStmt, NoMemory>
    ensures { MakesStmt result (trees.if_stmt keyword opening (expr condition) closing (stmt body)
        (some_else_from otherwise.other)) }
{
    let branches = greater(body.height, otherwise.height);
    let height = above_both(condition.height, branches);
    let node = making::if_stmt(
        keyword,
        opening,
        condition.tree,
        closing,
        body.tree,
        otherwise.other,
    );
    let tree = boxed(alloc, node)?;
    Ok(SizedStmt { tree, height })
}

/// `Switch = switch ( expr ) stmt`.
pub fn switch_stmt(
    alloc: Global,
    keyword: TokenId,
    opening: TokenId,
    value: SizedExpr,
    closing: TokenId,
    body: SizedStmt,
) -> Result<SizedStmt, NoMemory>
    ensures { MakesStmt result
        (trees.switch_stmt keyword opening (expr value) closing (stmt body)) }
{
    let height = above_both(value.height, body.height);
    let node = Stmt::Switch {
        keyword,
        open: opening,
        value: value.tree,
        close: closing,
        body: body.tree,
    };
    let tree = boxed(alloc, node)?;
    Ok(SizedStmt { tree, height })
}

/// `While = while ( expr ) stmt`.
pub fn while_stmt(
    alloc: Global,
    keyword: TokenId,
    opening: TokenId,
    condition: SizedExpr,
    closing: TokenId,
    body: SizedStmt,
) -> Result<SizedStmt, NoMemory>
    ensures { MakesStmt result
        (trees.while_stmt keyword opening (expr condition) closing (stmt body)) }
{
    let height = above_both(condition.height, body.height);
    let node = Stmt::While {
        keyword,
        open: opening,
        condition: condition.tree,
        close: closing,
        body: body.tree,
    };
    let tree = boxed(alloc, node)?;
    Ok(SizedStmt { tree, height })
}

/// `Do = do stmt while ( expr ) ;`.
pub fn do_stmt(
    alloc: Global,
    keyword: TokenId,
    body: SizedStmt,
    while_keyword: TokenId,
    opening: TokenId,
    condition: SizedExpr,
    closing: TokenId,
    semi: TokenId,
) -> Result<SizedStmt, NoMemory>
    ensures { MakesStmt result (trees.do_stmt keyword (stmt body) while_keyword opening
        (expr condition) closing semi) }
{
    let height = above_both(body.height, condition.height);
    let node = Stmt::Do {
        keyword,
        body: body.tree,
        while_keyword,
        open: opening,
        condition: condition.tree,
        close: closing,
        semi,
    };
    let tree = boxed(alloc, node)?;
    Ok(SizedStmt { tree, height })
}

/// A declaration as the start of a `for`.
pub fn start_declaration(it: SizedDeclaration) -> SizedStart
    ensures { for_start_of result.start ≡ trees.start_declaration (declaration_of it.tree.value) }
{
    SizedStart {
        start: ForStart::Declaration(it.tree),
        height: it.height,
    }
}

/// `[expr] ;` as the start of a `for`.
pub fn start_value(value: SizedSomeExpr, semi: TokenId) -> SizedStart
    ensures { for_start_of result.start ≡ trees.start_value (some_expr_from value.tree) semi }
{
    let height = value.height;
    let start = making::start_value(value.tree, semi);
    SizedStart { start, height }
}

/// `For = for ( (Declaration | [expr] ;) [expr] ; [expr] ) stmt`.
pub fn for_stmt(
    alloc: Global,
    keyword: TokenId,
    opening: TokenId,
    start: SizedStart,
    condition: SizedSomeExpr,
    semi: TokenId,
    step: SizedSomeExpr,
    closing: TokenId,
    body: SizedStmt,
) -> Result<SizedStmt, NoMemory>
    ensures { MakesStmt result (trees.for_stmt keyword opening (for_start_of start.start)
        (some_expr_from condition.tree) semi (some_expr_from step.tree) closing (stmt body)) }
{
    let behind = greater(step.height, body.height);
    let parts = greater(condition.height, behind);
    let height = above_both(start.height, parts);
    let node = making::for_stmt(
        keyword,
        opening,
        start.start,
        condition.tree,
        semi,
        step.tree,
        closing,
        body.tree,
    );
    let tree = boxed(alloc, node)?;
    Ok(SizedStmt { tree, height })
}

/// `Goto = goto Name ;`.
pub fn goto_stmt(
    alloc: Global,
    keyword: TokenId,
    label: Identifier,
    semi: TokenId,
) -> Result<SizedStmt, NoMemory>
    ensures { MakesStmt result (trees.goto_stmt keyword label semi) }
{
    let node = Stmt::Goto {
        keyword,
        label,
        semi,
    };
    let tree = boxed(alloc, node)?;
    Ok(SizedStmt { tree, height: 1 })
}

/// `Continue = continue ;`.
pub fn continue_stmt(alloc: Global, keyword: TokenId, semi: TokenId) -> Result<SizedStmt, NoMemory>
    ensures { MakesStmt result (trees.continue_stmt keyword semi) }
{
    let tree = boxed(alloc, Stmt::Continue { keyword, semi })?;
    Ok(SizedStmt { tree, height: 1 })
}

/// `Break = break ;`.
pub fn break_stmt(alloc: Global, keyword: TokenId, semi: TokenId) -> Result<SizedStmt, NoMemory>
    ensures { MakesStmt result (trees.break_stmt keyword semi) }
{
    let tree = boxed(alloc, Stmt::Break { keyword, semi })?;
    Ok(SizedStmt { tree, height: 1 })
}

/// `Return = return [expr] ;`.
pub fn return_stmt(
    alloc: Global,
    keyword: TokenId,
    value: SizedSomeExpr,
    semi: TokenId,
) -> Result<SizedStmt, NoMemory>
    ensures { MakesStmt result (trees.return_stmt keyword (some_expr_from value.tree) semi) }
{
    let height = above(value.height);
    let tree = boxed(alloc, making::return_stmt(keyword, value.tree, semi))?;
    Ok(SizedStmt { tree, height })
}

/// `Asm = asm (volatile | goto | inline)* bal ;`.
pub fn asm_stmt(
    alloc: Global,
    keyword: TokenId,
    words: Vec<Word>,
    group: Group,
    semi: TokenId,
) -> Result<SizedStmt, NoMemory>
    ensures { MakesStmt result (trees.asm_stmt keyword words.items group semi) }
{
    let node = Stmt::Asm {
        keyword,
        words,
        group,
        semi,
    };
    let tree = boxed(alloc, node)?;
    Ok(SizedStmt { tree, height: 1 })
}
