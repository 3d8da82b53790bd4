//! Expressions with a type name or a block, and the GNU forms.

ghost use Rattle.std.specs.Prelude.{◌≡◌, ◌++◌, OnOk, IfOk, true};
ghost use Rattle.c_tree.specs.View.{expr_of};
ghost use Rattle.c_tree.specs.Ends.{last_token};
ghost use Rattle.c_tree.specs.Lists.{desigs_from};
ghost use Rattle.c_tree.specs.Unit.{block_items_from};
ghost use Rattle.c_tree.specs.Lists.{assocs_from};
ghost use Rattle.c_tree.specs.View.{assoc_of};
ghost use Rattle.c_tape.specs.Tape.{assoc_count, assoc_tape, assocs_tape, quietly, steps_tape, block_items_tape, in_scope, form, stmt};
ghost use Rattle.c_tape.specs.Parts.{boxed_tape, type_tape, literal_tape};
ghost use Rattle.c_tape.specs.Tests.{ends_in_value};
ghost use Rattle.tape_ops.specs.declared.form.FormOp.TheVariants as forms;
ghost use Rattle.tape_ops.specs.declared.statement.StmtOp.TheVariants as stmts;

use crate::declarator::{some_declr, specifiers};
use crate::initialiser::rule_of_list;
use crate::testing::has_last_value;
use crate::todo::Todo;
use c_syntax::{Assoc, BlockItem, Declr, Desig, Expr, Identifier, InitItem, SpecWord, TypeName};
use c_tree::{first_of_specs, last};
use qual_base::{NoMemory, TokenId};
use tape_ops::{DeclrOp, FormOp, InitOp, StmtOp};

/// A type name, whose type stays on the stack.
#[tactic(auto, using(crate::proofs::TodoLemmas::list_assoc))]
pub fn type_name<'a>(
    words: &'a Vec<SpecWord>,
    d: &'a Option<Box<Declr>>,
    todo: &mut Todo<'a>,
) -> Result<(), NoMemory>
    ensures { OnOk result (todo.new ≡ type_tape words.now.items d.now ++ todo.old) }
{
    todo.declr_op(DeclrOp::TypeName {
        first: first_of_specs(words.as_slice()),
    })?;
    some_declr(d, todo)?;
    specifiers(words, false, todo)
}

/// A cast.
#[tactic(auto, using(crate::proofs::TodoLemmas::list_assoc))]
pub fn cast<'a>(
    open: TokenId,
    words: &'a Vec<SpecWord>,
    d: &'a Option<Box<Declr>>,
    operand: &'a Box<Expr>,
    todo: &mut Todo<'a>,
) -> Result<(), NoMemory>
    ensures { OnOk result
        (todo.new ≡ (type_tape words.now.items d.now ++ boxed_tape operand.now ++ form
        (forms.Cast «open» (last_token (expr_of operand.now.value)))) ++ todo.old) }
{
    todo.form_op(FormOp::Cast {
        token: open,
        last: last(operand),
    })?;
    todo.expr(operand)?;
    type_name(words, d, todo)
}

/// The size of an expression.
#[tactic(auto, using(crate::proofs::TodoLemmas::list_assoc))]
pub fn size_of_value<'a>(
    keyword: TokenId,
    operand: &'a Box<Expr>,
    todo: &mut Todo<'a>,
) -> Result<(), NoMemory>
    ensures { OnOk result
        (todo.new ≡ (stmt stmts.Quiet ++ boxed_tape operand.now ++ form (forms.Sizeof keyword)) ++
        todo.old) }
{
    todo.form_op(FormOp::Sizeof { token: keyword })?;
    todo.expr(operand)?;
    todo.stmt_op(StmtOp::Quiet)
}

/// The size of a type.
#[tactic(auto, using(crate::proofs::TodoLemmas::list_assoc))]
pub fn size_of_type<'a>(
    keyword: TokenId,
    words: &'a Vec<SpecWord>,
    d: &'a Option<Box<Declr>>,
    todo: &mut Todo<'a>,
) -> Result<(), NoMemory>
    ensures { OnOk result
        (todo.new ≡ (stmt stmts.Quiet ++ type_tape words.now.items d.now ++ form
        (forms.Sizeof keyword)) ++ todo.old) }
{
    todo.form_op(FormOp::Sizeof { token: keyword })?;
    type_name(words, d, todo)?;
    todo.stmt_op(StmtOp::Quiet)
}

/// A compound literal behind its type name.
#[tactic(auto, using(crate::proofs::TodoLemmas::list_assoc))]
fn literal<'a>(open: TokenId, items: &'a Vec<InitItem>, todo: &mut Todo<'a>) -> Result<(), NoMemory>
    ensures { OnOk result (todo.new ≡ literal_tape «open» items.now.items ++ todo.old) }
{
    todo.init_op(InitOp::LiteralEnd)?;
    rule_of_list(items, todo)?;
    todo.init_op(InitOp::Literal { token: open })?;
    todo.init_items(items.as_slice())?;
    todo.init_op(InitOp::Begin)
}

/// A compound literal.
#[tactic(auto, using(crate::proofs::TodoLemmas::list_assoc))]
pub fn compound<'a>(
    open: TokenId,
    words: &'a Vec<SpecWord>,
    d: &'a Option<Box<Declr>>,
    items: &'a Vec<InitItem>,
    todo: &mut Todo<'a>,
) -> Result<(), NoMemory>
    ensures { OnOk result
        (todo.new ≡ (type_tape words.now.items d.now ++ literal_tape «open» items.now.items) ++
        todo.old) }
{
    literal(open, items, todo)?;
    type_name(words, d, todo)
}

/// A block as an expression.
#[tactic(auto, using(crate::proofs::TodoLemmas::list_assoc))]
pub fn statement_expression<'a>(
    open: TokenId,
    items: &'a Vec<BlockItem>,
    todo: &mut Todo<'a>,
) -> Result<(), NoMemory>
    ensures { OnOk result
        (todo.new ≡ (in_scope (block_items_tape true (block_items_from items.now.items)) ++ form
        (forms.StmtExpr (ends_in_value (block_items_from items.now.items)) «open»)) ++ todo.old) }
{
    todo.form_op(FormOp::StmtExpr {
        has_value: has_last_value(items.as_slice()),
        token: open,
    })?;
    todo.stmt_op(StmtOp::Leave)?;
    todo.block_items(items.as_slice(), true)?;
    todo.stmt_op(StmtOp::Enter)
}

/// The next argument of a list of them.
#[tactic(auto, using(crate::proofs::TodoLemmas::list_assoc))]
pub fn next_argument<'a>(
    keyword: TokenId,
    list: &'a Box<Expr>,
    words: &'a Vec<SpecWord>,
    d: &'a Option<Box<Declr>>,
    close: TokenId,
    todo: &mut Todo<'a>,
) -> Result<(), NoMemory>
    ensures { OnOk result
        (todo.new ≡ (boxed_tape list.now ++ type_tape words.now.items d.now ++ form
        (forms.VaArg keyword close)) ++ todo.old) }
{
    todo.form_op(FormOp::VaArg {
        token: keyword,
        last: close,
    })?;
    type_name(words, d, todo)?;
    todo.expr(list)
}

/// The beginning of a list of arguments.
#[tactic(auto, using(crate::proofs::TodoLemmas::list_assoc))]
pub fn list_start<'a>(
    keyword: TokenId,
    list: &'a Box<Expr>,
    parameter: &'a Box<Expr>,
    close: TokenId,
    todo: &mut Todo<'a>,
) -> Result<(), NoMemory>
    ensures { OnOk result
        (todo.new ≡ (boxed_tape list.now ++ boxed_tape parameter.now ++ form
        (forms.VaStart keyword close)) ++ todo.old) }
{
    todo.form_op(FormOp::VaStart {
        token: keyword,
        last: close,
    })?;
    todo.expr(parameter)?;
    todo.expr(list)
}

/// A copy of a list of arguments.
#[tactic(auto, using(crate::proofs::TodoLemmas::list_assoc))]
pub fn list_copy<'a>(
    keyword: TokenId,
    target: &'a Box<Expr>,
    source: &'a Box<Expr>,
    close: TokenId,
    todo: &mut Todo<'a>,
) -> Result<(), NoMemory>
    ensures { OnOk result
        (todo.new ≡ (boxed_tape target.now ++ boxed_tape source.now ++ form
        (forms.VaCopy keyword close)) ++ todo.old) }
{
    todo.form_op(FormOp::VaCopy {
        token: keyword,
        last: close,
    })?;
    todo.expr(source)?;
    todo.expr(target)
}

/// The members and indices of an offset, behind its type name.
#[tactic(auto, using(crate::proofs::TodoLemmas::list_assoc))]
fn offset_steps<'a>(
    keyword: TokenId,
    member: &Identifier,
    steps: &'a Vec<Desig>,
    todo: &mut Todo<'a>,
) -> Result<(), NoMemory>
    ensures { OnOk result
        (todo.new ≡ (form (forms.OffsetMember member.now.token member.now.name) ++ steps_tape
        (desigs_from steps.now.items) ++ form (forms.Offset keyword)) ++ todo.old) }
{
    todo.form_op(FormOp::Offset { token: keyword })?;
    todo.steps(steps.as_slice())?;
    todo.form_op(FormOp::OffsetMember {
        token: member.token,
        name: member.name,
    })
}

/// An offset.
#[tactic(auto, using(crate::proofs::TodoLemmas::list_assoc))]
pub fn offset<'a>(
    keyword: TokenId,
    words: &'a Vec<SpecWord>,
    d: &'a Option<Box<Declr>>,
    member: &Identifier,
    steps: &'a Vec<Desig>,
    todo: &mut Todo<'a>,
) -> Result<(), NoMemory>
    ensures { OnOk result
        (todo.new ≡ (stmt stmts.Quiet ++ type_tape words.now.items d.now ++ form
        (forms.OffsetMember member.now.token member.now.name) ++ steps_tape
        (desigs_from steps.now.items) ++ form (forms.Offset keyword)) ++ todo.old) }
{
    offset_steps(keyword, member, steps, todo)?;
    type_name(words, d, todo)?;
    todo.stmt_op(StmtOp::Quiet)
}

/// Whether two types are compatible.
#[tactic(auto, using(crate::proofs::TodoLemmas::list_assoc))]
pub fn are_compatible<'a>(
    keyword: TokenId,
    words: &'a Vec<SpecWord>,
    d: &'a Option<Box<Declr>>,
    other_words: &'a Vec<SpecWord>,
    other: &'a Option<Box<Declr>>,
    todo: &mut Todo<'a>,
) -> Result<(), NoMemory>
    ensures { OnOk result
        (todo.new ≡ (stmt stmts.Quiet ++ type_tape words.now.items d.now
        ++ type_tape other_words.now.items other.now ++ form (forms.Compat keyword))
        ++ todo.old) }
{
    todo.form_op(FormOp::Compat { token: keyword })?;
    type_name(other_words, other, todo)?;
    type_name(words, d, todo)?;
    todo.stmt_op(StmtOp::Quiet)
}

/// A choice between two expressions by a constant.
#[tactic(auto, using(crate::proofs::TodoLemmas::list_assoc))]
pub fn chosen<'a>(
    keyword: TokenId,
    condition: &'a Box<Expr>,
    left: &'a Box<Expr>,
    right: &'a Box<Expr>,
    todo: &mut Todo<'a>,
) -> Result<(), NoMemory>
    ensures { OnOk result (todo.new ≡ (quietly (boxed_tape condition.now)
        ++ boxed_tape left.now ++ boxed_tape right.now ++ form (forms.Choose keyword))
        ++ todo.old) }
{
    todo.form_op(FormOp::Choose { token: keyword })?;
    todo.expr(right)?;
    todo.expr(left)?;
    todo.quiet(condition)
}

/// The number of associations. More than 2^32 - 1 are taken for want of memory.
fn count_of(assocs: &[Assoc]) -> Result<u32, NoMemory>
    ensures { IfOk result (λ n. n ≡ assoc_count (assocs_from assocs.now)) }
{
    let count = assocs.len();
    if count > 4_294_967_295 {
        return Err(NoMemory);
    }
    Ok(count as u32)
}

/// A selection by the type of its control.
#[tactic(auto, using(crate::proofs::TodoLemmas::list_assoc))]
pub fn selected<'a>(
    keyword: TokenId,
    control: &'a Box<Expr>,
    associations: &'a Vec<Assoc>,
    todo: &mut Todo<'a>,
) -> Result<(), NoMemory>
    ensures { OnOk result (todo.new ≡ (stmt stmts.Quiet ++ boxed_tape control.now
        ++ form forms.Control ++ assocs_tape (assocs_from associations.now.items)
        ++ form (forms.Generic keyword (assoc_count (assocs_from associations.now.items))))
        ++ todo.old) }
{
    let count = count_of(associations.as_slice())?;
    todo.form_op(FormOp::Generic {
        token: keyword,
        count,
    })?;
    todo.assocs(associations.as_slice())?;
    todo.form_op(FormOp::Control)?;
    todo.expr(control)?;
    todo.stmt_op(StmtOp::Quiet)
}

/// The expression of a type.
#[tactic(auto, using(crate::proofs::TodoLemmas::list_assoc))]
fn typed_association<'a>(
    t: &'a TypeName,
    value: &'a Box<Expr>,
    todo: &mut Todo<'a>,
) -> Result<(), NoMemory>
    ensures { OnOk result
        (todo.new ≡ (type_tape t.now.specs.words.items t.now.declr ++ boxed_tape value.now)
        ++ todo.old) }
{
    todo.expr(value)?;
    type_name(&t.specs.words, &t.declr, todo)
}

/// The expression of all other types.
#[tactic(auto, using(crate::proofs::TodoLemmas::list_assoc))]
fn default_association<'a>(value: &'a Box<Expr>, todo: &mut Todo<'a>) -> Result<(), NoMemory>
    ensures { OnOk result
        (todo.new ≡ (form forms.NoType ++ boxed_tape value.now) ++ todo.old) }
{
    todo.expr(value)?;
    todo.form_op(FormOp::NoType)
}

/// An association.
fn association<'a>(assoc: &'a Assoc, todo: &mut Todo<'a>) -> Result<(), NoMemory>
    ensures { OnOk result (todo.new ≡ assoc_tape (assoc_of assoc.now) ++ todo.old) }
{
    match assoc {
        Assoc::Typed {
            type_name: t,
            value,
            ..
        } => typed_association(t, value, todo),
        Assoc::Default { value, .. } => default_association(value, todo),
    }
}

/// Associations one after the other.
#[tactic(auto, using(crate::proofs::TodoLemmas::list_assoc))]
pub fn expand_assocs<'a>(assocs: &'a [Assoc], todo: &mut Todo<'a>) -> Result<(), NoMemory>
    ensures { OnOk result (todo.new ≡ assocs_tape (assocs_from assocs.now) ++ todo.old) }
{
    match assocs.split_first() {
        None => Ok(()),
        Some((assoc, rest)) => {
            todo.assocs(rest)?;
            association(assoc, todo)
        }
    }
}
