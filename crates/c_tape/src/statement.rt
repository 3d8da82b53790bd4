//! Statements and blocks.

ghost use Rattle.std.specs.Prelude.{◌≡◌, ◌++◌, OnOk, true, false, if◌then◌else◌};
ghost use Rattle.c_tree.specs.View.{expr_of, stmt_of, block_item_of, declaration_of};
ghost use Rattle.c_tree.specs.Lists.{some_expr_from, some_else_from};
ghost use Rattle.c_tree.specs.Unit.{block_items_from};
ghost use Rattle.c_tape.specs.Tape.{in_scope, quietly, declaration_tape, stmt, expr_tape, dropped_tape, some_expr_tape, return_tape, stmt_tape, some_else_tape, block_items_tape, block_item_tape};
ghost use Rattle.tape_ops.specs.declared.statement.StmtOp.TheVariants as stmts;

use crate::declaration::{decl, declaration};
use crate::expression::some_expr;
use crate::testing::is_last;
use crate::todo::Todo;
use c_shape::{StartShape, StatementShape, statement_shape};
use c_syntax::{BlockItem, Declaration, Expr, Marked, Stmt};
use qual_base::{NoMemory, TokenId};
use tape_ops::StmtOp;

/// An expression whose value is dropped, if there is one.
#[tactic(auto, using(crate::proofs::TodoLemmas::list_assoc))]
fn dropped<'a>(e: &'a Option<Box<Expr>>, todo: &mut Todo<'a>) -> Result<(), NoMemory>
    ensures { OnOk result (todo.new ≡ dropped_tape (some_expr_from e.now) ++ todo.old) }
{
    match e {
        Some(e) => condition(e, todo),
        None => Ok(()),
    }
}

/// An expression whose value is dropped.
#[tactic(auto, using(crate::proofs::TodoLemmas::list_assoc))]
fn condition<'a>(e: &'a Box<Expr>, todo: &mut Todo<'a>) -> Result<(), NoMemory>
    ensures { OnOk result
        (todo.new ≡ expr_tape false (expr_of e.now.value) ++ stmt stmts.Pop ++ todo.old) }
{
    todo.stmt_op(StmtOp::Pop)?;
    todo.expr(e)
}

fn expression_statement<'a>(
    e: &'a Option<Box<Expr>>,
    is_kept: bool,
    todo: &mut Todo<'a>,
) -> Result<(), NoMemory>
    ensures { OnOk result
        (todo.new ≡ (if is_kept then some_expr_tape (some_expr_from e.now) else dropped_tape
        (some_expr_from e.now)) ++ todo.old) }
{
    if is_kept {
        some_expr(e, todo)
    } else {
        dropped(e, todo)
    }
}

#[tactic(auto, using(crate::proofs::TodoLemmas::list_assoc))]
fn returned<'a>(
    keyword: TokenId,
    e: &'a Option<Box<Expr>>,
    semi: TokenId,
    todo: &mut Todo<'a>,
) -> Result<(), NoMemory>
    ensures { OnOk result (todo.new ≡ return_tape keyword (some_expr_from e.now) semi ++ todo.old) }
{
    match e {
        Some(e) => {
            todo.stmt_op(StmtOp::Return {
                token: keyword,
                last: semi,
            })?;
            todo.expr(e)
        }
        None => Ok(()),
    }
}

/// A statement inside another one, with a scope of its own.
#[tactic(auto, using(crate::proofs::TodoLemmas::list_assoc))]
fn part<'a>(s: &'a Box<Stmt>, todo: &mut Todo<'a>) -> Result<(), NoMemory>
    ensures { OnOk result
        (todo.new ≡ in_scope (stmt_tape false (stmt_of s.now.value)) ++ todo.old) }
{
    todo.stmt_op(StmtOp::Leave)?;
    todo.stmt(s)?;
    todo.stmt_op(StmtOp::Enter)
}

fn some_else<'a>(other: &'a Option<Marked<Box<Stmt>>>, todo: &mut Todo<'a>) -> Result<(), NoMemory>
    ensures { OnOk result (todo.new ≡ some_else_tape (some_else_from other.now) ++ todo.old) }
{
    match other {
        Some(other) => part(&other.part, todo),
        None => Ok(()),
    }
}

#[tactic(auto, using(crate::proofs::TodoLemmas::list_assoc))]
fn block<'a>(items: &'a Vec<BlockItem>, todo: &mut Todo<'a>) -> Result<(), NoMemory>
    ensures { OnOk result
        (todo.new ≡ in_scope
        (block_items_tape false (block_items_from items.now.items)) ++ todo.old) }
{
    todo.stmt_op(StmtOp::Leave)?;
    todo.block_items(items.as_slice(), false)?;
    todo.stmt_op(StmtOp::Enter)
}

#[tactic(auto, using(crate::proofs::TodoLemmas::list_assoc))]
fn case<'a>(e: &'a Box<Expr>, body: &'a Box<Stmt>, todo: &mut Todo<'a>) -> Result<(), NoMemory>
    ensures { OnOk result
        (todo.new ≡ (quietly (expr_tape false (expr_of e.now.value)) ++ stmt_tape false
        (stmt_of body.now.value)) ++ todo.old) }
{
    todo.stmt(body)?;
    todo.quiet(e)
}

#[tactic(auto, using(crate::proofs::TodoLemmas::list_assoc))]
fn case_range<'a>(
    first: &'a Box<Expr>,
    last: &'a Box<Expr>,
    body: &'a Box<Stmt>,
    todo: &mut Todo<'a>,
) -> Result<(), NoMemory>
    ensures { OnOk result
        (todo.new ≡ (quietly (expr_tape false (expr_of first.now.value))
        ++ quietly (expr_tape false (expr_of last.now.value)) ++ stmt_tape false
        (stmt_of body.now.value)) ++ todo.old) }
{
    todo.stmt(body)?;
    todo.quiet(last)?;
    todo.quiet(first)
}

#[tactic(auto, using(crate::proofs::TodoLemmas::list_assoc))]
fn choice<'a>(
    e: &'a Box<Expr>,
    body: &'a Box<Stmt>,
    other: &'a Option<Marked<Box<Stmt>>>,
    todo: &mut Todo<'a>,
) -> Result<(), NoMemory>
    ensures { OnOk result
        (todo.new ≡ in_scope (expr_tape false (expr_of e.now.value) ++ stmt stmts.Pop ++ in_scope
        (stmt_tape false (stmt_of body.now.value)) ++ some_else_tape (some_else_from other.now)) ++
        todo.old) }
{
    todo.stmt_op(StmtOp::Leave)?;
    some_else(other, todo)?;
    part(body, todo)?;
    condition(e, todo)?;
    todo.stmt_op(StmtOp::Enter)
}

/// A `switch` or a `while`.
#[tactic(auto, using(crate::proofs::TodoLemmas::list_assoc))]
fn switch_or_while<'a>(
    e: &'a Box<Expr>,
    body: &'a Box<Stmt>,
    todo: &mut Todo<'a>,
) -> Result<(), NoMemory>
    ensures { OnOk result
        (todo.new ≡ in_scope (expr_tape false (expr_of e.now.value) ++ stmt stmts.Pop ++ in_scope
        (stmt_tape false (stmt_of body.now.value))) ++ todo.old) }
{
    todo.stmt_op(StmtOp::Leave)?;
    part(body, todo)?;
    condition(e, todo)?;
    todo.stmt_op(StmtOp::Enter)
}

#[tactic(auto, using(crate::proofs::TodoLemmas::list_assoc))]
fn do_while<'a>(body: &'a Box<Stmt>, e: &'a Box<Expr>, todo: &mut Todo<'a>) -> Result<(), NoMemory>
    ensures { OnOk result
        (todo.new ≡ in_scope (in_scope (stmt_tape false (stmt_of body.now.value)) ++ expr_tape false
        (expr_of e.now.value) ++ stmt stmts.Pop) ++ todo.old) }
{
    todo.stmt_op(StmtOp::Leave)?;
    condition(e, todo)?;
    part(body, todo)?;
    todo.stmt_op(StmtOp::Enter)
}

/// A `for` behind its beginning, with the end of its scope.
#[tactic(auto, using(crate::proofs::TodoLemmas::list_assoc))]
fn for_behind<'a>(
    e: &'a Option<Box<Expr>>,
    step: &'a Option<Box<Expr>>,
    body: &'a Box<Stmt>,
    todo: &mut Todo<'a>,
) -> Result<(), NoMemory>
    ensures { OnOk result
        (todo.new ≡ (dropped_tape (some_expr_from e.now) ++ dropped_tape
        (some_expr_from step.now) ++ in_scope
        (stmt_tape false (stmt_of body.now.value)) ++ stmt stmts.Leave) ++ todo.old) }
{
    todo.stmt_op(StmtOp::Leave)?;
    part(body, todo)?;
    dropped(step, todo)?;
    dropped(e, todo)
}

#[tactic(auto, using(crate::proofs::TodoLemmas::list_assoc))]
fn for_declared<'a>(
    it: &'a Box<Declaration>,
    e: &'a Option<Box<Expr>>,
    step: &'a Option<Box<Expr>>,
    body: &'a Box<Stmt>,
    todo: &mut Todo<'a>,
) -> Result<(), NoMemory>
    ensures { OnOk result
        (todo.new ≡ in_scope (declaration_tape (declaration_of it.now.value) ++ dropped_tape
        (some_expr_from e.now) ++ dropped_tape (some_expr_from step.now) ++ in_scope
        (stmt_tape false (stmt_of body.now.value))) ++ todo.old) }
{
    for_behind(e, step, body, todo)?;
    declaration(it, todo)?;
    todo.stmt_op(StmtOp::Enter)
}

#[tactic(auto, using(crate::proofs::TodoLemmas::list_assoc))]
fn for_value<'a>(
    value: &'a Option<Box<Expr>>,
    e: &'a Option<Box<Expr>>,
    step: &'a Option<Box<Expr>>,
    body: &'a Box<Stmt>,
    todo: &mut Todo<'a>,
) -> Result<(), NoMemory>
    ensures { OnOk result
        (todo.new ≡ in_scope (dropped_tape (some_expr_from value.now) ++ dropped_tape
        (some_expr_from e.now) ++ dropped_tape (some_expr_from step.now) ++ in_scope
        (stmt_tape false (stmt_of body.now.value))) ++ todo.old) }
{
    for_behind(e, step, body, todo)?;
    dropped(value, todo)?;
    todo.stmt_op(StmtOp::Enter)
}

/// A statement. `is_kept`: if it is an expression, its value stays on the stack.
pub fn expand_stmt<'a>(s: &'a Stmt, is_kept: bool, todo: &mut Todo<'a>) -> Result<(), NoMemory>
    ensures { OnOk result (todo.new ≡ stmt_tape is_kept (stmt_of s.now) ++ todo.old) }
{
    match statement_shape(s) {
        StatementShape::Block { items, .. } => block(items, todo),
        StatementShape::ExprStmt { value, .. } => expression_statement(value, is_kept, todo),
        StatementShape::Label { body, .. } => todo.stmt(body),
        StatementShape::Default { body, .. } => todo.stmt(body),
        StatementShape::Case { value, body, .. } => case(value, body, todo),
        StatementShape::CaseRange {
            first,
            last,
            body,
            ..
        } => case_range(first, last, body, todo),
        StatementShape::GotoValue { value, .. } => condition(value, todo),
        StatementShape::If {
            condition: e,
            body,
            otherwise,
            ..
        } => choice(e, body, otherwise, todo),
        StatementShape::Switch { value: e, body, .. } => switch_or_while(e, body, todo),
        StatementShape::While {
            condition: e,
            body,
            ..
        } => switch_or_while(e, body, todo),
        StatementShape::Do {
            body,
            condition: e,
            ..
        } => do_while(body, e, todo),
        StatementShape::For {
            start,
            condition: e,
            step,
            body,
            ..
        } => match start {
            StartShape::Declaration(it) => for_declared(it, e, step, body, todo),
            StartShape::Value { value, .. } => for_value(value, e, step, body, todo),
        },
        StatementShape::Return {
            keyword,
            value,
            semi,
        } => returned(keyword, value, semi, todo),
        StatementShape::AttrStmt { .. }
        | StatementShape::Goto { .. }
        | StatementShape::Continue { .. }
        | StatementShape::Break { .. }
        | StatementShape::Asm { .. } => Ok(()),
    }
}

fn block_item<'a>(item: &'a BlockItem, is_kept: bool, todo: &mut Todo<'a>) -> Result<(), NoMemory>
    ensures { OnOk result
        (todo.new ≡ block_item_tape is_kept (block_item_of item.now) ++ todo.old) }
{
    match item {
        BlockItem::Decl(it) => decl(it, todo),
        BlockItem::Stmt(s) => expand_stmt(s, is_kept, todo),
        BlockItem::Labels { .. } => Ok(()),
    }
}

/// Items of a block one after the other. `is_kept`: the value of the last one stays on the stack.
#[tactic(auto, using(crate::proofs::TodoLemmas::list_assoc))]
pub fn expand_block_items<'a>(
    items: &'a [BlockItem],
    is_kept: bool,
    todo: &mut Todo<'a>,
) -> Result<(), NoMemory>
    ensures { OnOk result
        (todo.new ≡ block_items_tape is_kept (block_items_from items.now) ++ todo.old) }
{
    match items.split_first() {
        None => Ok(()),
        Some((item, rest)) => {
            todo.block_items(rest, is_kept)?;
            block_item(item, is_kept && is_last(rest), todo)
        }
    }
}
