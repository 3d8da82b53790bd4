//! Units.

ghost use Rattle.std.specs.Prelude.{◌≡◌, ◌++◌, OnOk, IfOk};
ghost use Rattle.c_tree.specs.Unit.{item_of, items_of};
ghost use Rattle.c_tape.specs.Tape.{item_tape, items_tape, tape_of};

use crate::declaration::{decl, expand_auto_declrs, expand_init_declrs};
use crate::declarator::{
    declarator, expand_array_words, expand_contents, expand_params, expand_pieces,
    expand_pointer_words, expand_quals, specifiers,
};
use crate::expression::{expand_arguments, expand_expr, expand_exprs};
use crate::forms::expand_assocs;
use crate::initialiser::{
    expand_desigs, expand_indices, expand_init_items, expand_rule_items, expand_steps,
};
use crate::list::OpList;
use crate::old::{
    expand_identifiers, expand_old_contents, expand_old_declarations, expand_old_declrs,
};
use crate::specifier::{
    expand_enumerators, expand_mem_declrs, expand_struct_items, expand_unnamed, expand_words,
};
use crate::statement::{expand_block_items, expand_stmt};
use crate::todo::{Task, Todo};
use c_syntax::{Item, Unit};
use qual_base::NoMemory;
use std::alloc::Global;
use tape_ops::{DeclrOp, StmtOp};

/// An item of a unit.
#[tactic(auto, using(crate::proofs::TodoLemmas::list_assoc))]
fn expand_item<'a>(item: &'a Item, todo: &mut Todo<'a>) -> Result<(), NoMemory>
    ensures { OnOk result (todo.new ≡ item_tape (item_of item.now) ++ todo.old) }
{
    match item {
        Item::Function {
            specs,
            declr,
            body,
            ..
        } => {
            todo.declr_op(DeclrOp::DeclarationEnd)?;
            todo.stmt_op(StmtOp::FunctionEnd)?;
            todo.block_items(body.items.as_slice(), false)?;
            todo.stmt_op(StmtOp::FunctionBody)?;
            todo.declr_op(DeclrOp::Declare)?;
            declarator(declr, true, todo)?;
            specifiers(&specs.words, false, todo)
        }
        Item::OldFunction {
            specs,
            declr,
            declarations,
            body,
            ..
        } => {
            todo.declr_op(DeclrOp::DeclarationEnd)?;
            todo.stmt_op(StmtOp::FunctionEnd)?;
            todo.block_items(body.items.as_slice(), false)?;
            todo.stmt_op(StmtOp::FunctionBody)?;
            todo.declr_op(DeclrOp::Declare)?;
            todo.pieces(declr)?;
            todo.old_contents(declr, declarations.as_slice())?;
            specifiers(&specs.words, false, todo)
        }
        Item::Decl(it) => decl(it, todo),
        Item::AsmDecl { .. } | Item::Semi(_) => Ok(()),
    }
}

/// Items of a unit one after the other.
#[tactic(auto, using(crate::proofs::TodoLemmas::list_assoc))]
fn expand_items<'a>(items: &'a [Item], todo: &mut Todo<'a>) -> Result<(), NoMemory>
    ensures { OnOk result (todo.new ≡ items_tape items.now ++ todo.old) }
{
    match items.split_first() {
        None => Ok(()),
        Some((item, rest)) => {
            todo.items(rest)?;
            expand_item(item, todo)
        }
    }
}

/// Takes the next task: an op goes to the tape, and the parts of a node take its place.
#[tactic(auto, using(crate::proofs::TodoLemmas::list_assoc))]
fn turn<'a>(todo: &mut Todo<'a>, out: &mut OpList) -> Result<(), NoMemory>
    ensures { OnOk result (out.new ++ todo.new ≡ out.old ++ todo.old) }
{
    match todo.next() {
        None => Ok(()),
        Some(Task::Put(op)) => out.push(op),
        Some(Task::Expr(e, is_called, is_addressed)) => {
            expand_expr(e, is_called, is_addressed, todo)
        }
        Some(Task::Exprs(es)) => expand_exprs(es, todo),
        Some(Task::Arguments(es)) => expand_arguments(es, todo),
        Some(Task::Steps(steps)) => expand_steps(steps, todo),
        Some(Task::Words(words, is_alone)) => expand_words(words, is_alone, todo),
        Some(Task::Unnamed(words)) => expand_unnamed(words, todo),
        Some(Task::StructItems(items)) => expand_struct_items(items, todo),
        Some(Task::MemDeclrs(declrs)) => expand_mem_declrs(declrs, todo),
        Some(Task::Enumerators(items)) => expand_enumerators(items, todo),
        Some(Task::Contents(d, is_own)) => expand_contents(d, is_own, todo),
        Some(Task::Pieces(d)) => expand_pieces(d, todo),
        Some(Task::Params(params)) => expand_params(params, todo),
        Some(Task::PointerWords(words)) => expand_pointer_words(words, todo),
        Some(Task::ArrayWords(words)) => expand_array_words(words, todo),
        Some(Task::Quals(quals)) => expand_quals(quals, todo),
        Some(Task::InitItems(items)) => expand_init_items(items, todo),
        Some(Task::Indices(desigs)) => expand_indices(desigs, todo),
        Some(Task::RuleItems(items)) => expand_rule_items(items, todo),
        Some(Task::Desigs(desigs)) => expand_desigs(desigs, todo),
        Some(Task::InitDeclrs(declrs)) => expand_init_declrs(declrs, todo),
        Some(Task::BlockItems(items, is_kept)) => expand_block_items(items, is_kept, todo),
        Some(Task::Stmt(s)) => expand_stmt(s, false, todo),
        Some(Task::Items(items)) => expand_items(items, todo),
        Some(Task::Assocs(assocs)) => expand_assocs(assocs, todo),
        Some(Task::AutoDeclrs(declrs, semi)) => expand_auto_declrs(declrs, semi, todo),
        Some(Task::Identifiers(names)) => expand_identifiers(names, todo),
        Some(Task::OldContents(d, declarations)) => expand_old_contents(d, declarations, todo),
        Some(Task::OldDeclarations(declarations)) => expand_old_declarations(declarations, todo),
        Some(Task::OldDeclrs(declrs)) => expand_old_declrs(declrs, todo),
    }
}

/// The tape of a unit.
///
/// Linear in the nodes of the unit in memory. In time at most the nodes times the height of the unit, which is at most 500
/// where it is well formed: at each operator the first and the last token of its operands are looked for. No recursion,
/// but for these ends and the parentheses round a name. The one error is want of memory, and more than 2^32 - 1 arguments
/// of a call count as that.
#[tactic(auto, using(crate::proofs::TodoLemmas::append_nil))]
pub fn tape(alloc: Global, unit: &Unit) -> Result<OpList, NoMemory>
    ensures { IfOk result (λ ops. ops ≡ tape_of (items_of unit.now)) }
{
    let mut todo = Todo::new(alloc);
    let mut out = OpList::new(alloc);
    todo.items(unit.items.as_slice())?;
    for _ in 0..u64::MAX {
        if todo.is_done() {
            return Ok(out);
        }
        turn(&mut todo, &mut out)?;
    }
    Err(NoMemory)
}
