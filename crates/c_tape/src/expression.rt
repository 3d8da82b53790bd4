//! Expressions.

ghost use Rattle.std.specs.Prelude.{◌≡◌, ◌++◌, OnOk, IfOk, true, false};
ghost use Rattle.c_tree.specs.View.{expr_of};
ghost use Rattle.c_tree.specs.Ends.{first_text, first_token, last_token};
ghost use Rattle.c_tree.specs.Lists.{exprs_from, some_expr_from};
ghost use Rattle.c_tree.specs.Addresses.{by_star, comes_by_pointer};
ghost use Rattle.c_tape.specs.Tape.{tape_in, prefix_tape, expr, count, has_middle, expr_tape, some_expr_tape, exprs_tape, arguments};
ghost use Rattle.c_tape.specs.Parts.{boxed_tape};
ghost use Rattle.tape_ops.specs.declared.expression.ExprOp.TheVariants as exprs;

use crate::forms::{
    are_compatible, cast, chosen, compound, list_copy, list_start, next_argument, offset, selected,
    size_of_type, size_of_value, statement_expression,
};
use crate::todo::Todo;
use c_shape::{Between, Shape, shape_of};
use c_syntax::{Expr, Identifier};
use c_tree::{first, last};
use c_words::Punct;
use qual_base::{NoMemory, Numbered, TokenId};
use tape_ops::ExprOp;

/// The number of arguments. More than 2^32 - 1 are taken for want of memory.
#[tactic(auto, using(crate::proofs::BlockLemmas::count_is))]
fn count_of(es: &[Expr]) -> Result<u32, NoMemory>
    ensures { IfOk result (λ n. n ≡ count (exprs_from es.now)) }
{
    let count = es.len();
    if count > 4_294_967_295 {
        return Err(NoMemory);
    }
    Ok(count as u32)
}

/// The first of adjacent texts.
fn first_of_texts(texts: &[TokenId]) -> TokenId
    ensures { result ≡ first_text texts.now }
{
    match texts {
        [first, ..] => *first,
        [] => TokenId::new(0),
    }
}

/// What may stand between the operands of `?:`.
pub fn some_expr<'a>(e: &'a Option<Box<Expr>>, todo: &mut Todo<'a>) -> Result<(), NoMemory>
    ensures { OnOk result (todo.new ≡ some_expr_tape (some_expr_from e.now) ++ todo.old) }
{
    match e {
        Some(e) => todo.expr(e),
        None => Ok(()),
    }
}

fn is_some(e: &Option<Box<Expr>>) -> bool
    ensures { result ≡ has_middle (some_expr_from e.now) }
{
    match e {
        Some(_) => true,
        None => false,
    }
}

/// Two operands with one of `,`, `=` or a binary operator between them, or of a `?:` without its middle.
#[tactic(auto, using(crate::proofs::TodoLemmas::list_assoc))]
fn operation<'a>(
    left: &'a Box<Expr>,
    right: &'a Box<Expr>,
    op: ExprOp,
    todo: &mut Todo<'a>,
) -> Result<(), NoMemory>
    ensures { OnOk result
        (todo.new ≡ (boxed_tape left.now ++ boxed_tape right.now ++ expr op) ++ todo.old) }
{
    todo.expr_op(op)?;
    todo.expr(right)?;
    todo.expr(left)
}

/// A `?:`.
#[tactic(auto, using(crate::proofs::TodoLemmas::list_assoc))]
fn conditional<'a>(
    condition: &'a Box<Expr>,
    token: TokenId,
    middle: &'a Option<Box<Expr>>,
    otherwise: &'a Box<Expr>,
    todo: &mut Todo<'a>,
) -> Result<(), NoMemory>
    ensures { OnOk result (todo.new
        ≡ (boxed_tape condition.now ++ some_expr_tape (some_expr_from middle.now)
        ++ boxed_tape otherwise.now
        ++ expr (exprs.Cond (has_middle (some_expr_from middle.now)) token
        (first_token (expr_of condition.now.value))
        (last_token (expr_of otherwise.now.value)))) ++ todo.old) }
{
    todo.expr_op(ExprOp::Cond {
        has_middle: is_some(middle),
        token,
        first: first(condition),
        last: last(otherwise),
    })?;
    todo.expr(otherwise)?;
    some_expr(middle, todo)?;
    todo.expr(condition)
}

/// An operand with an op behind it.
#[tactic(auto, using(crate::proofs::TodoLemmas::list_assoc))]
fn operand_of<'a>(operand: &'a Box<Expr>, op: ExprOp, todo: &mut Todo<'a>) -> Result<(), NoMemory>
    ensures { OnOk result (todo.new ≡ (boxed_tape operand.now ++ expr op) ++ todo.old) }
{
    todo.expr_op(op)?;
    todo.expr(operand)
}

/// A part of an expression with an op behind it. `is_addressed`: its place is only addressed.
#[tactic(auto, using(crate::proofs::TodoLemmas::list_assoc))]
fn part_of<'a>(
    part: &'a Box<Expr>,
    is_addressed: bool,
    op: ExprOp,
    todo: &mut Todo<'a>,
) -> Result<(), NoMemory>
    ensures { OnOk result (todo.new
        ≡ (tape_in false is_addressed (expr_of part.now.value) ++ expr op) ++ todo.old) }
{
    todo.expr_op(op)?;
    todo.part(part, is_addressed)
}

/// A call.
#[tactic(auto, using(crate::proofs::TodoLemmas::list_assoc))]
fn call<'a>(
    callee: &'a Box<Expr>,
    token: TokenId,
    es: &'a Vec<Expr>,
    todo: &mut Todo<'a>,
) -> Result<(), NoMemory>
    ensures { OnOk result (todo.new
        ≡ (expr_tape true (expr_of callee.now.value) ++ exprs_tape (exprs_from es.now.items)
        ++ arguments (exprs_from es.now.items)
        ++ expr (exprs.Call token (count (exprs_from es.now.items)))) ++ todo.old) }
{
    let count = count_of(es.as_slice())?;
    todo.expr_op(ExprOp::Call { token, count })?;
    todo.arguments(es.as_slice())?;
    todo.exprs(es.as_slice())?;
    todo.callee(callee)
}

/// A member of what a pointer points at.
#[tactic(auto, using(crate::proofs::TodoLemmas::list_assoc))]
fn member_behind<'a>(
    base: &'a Box<Expr>,
    token: TokenId,
    member: &Identifier,
    aims: bool,
    todo: &mut Todo<'a>,
) -> Result<(), NoMemory>
    ensures { OnOk result (todo.new
        ≡ (boxed_tape base.now
        ++ expr (exprs.Arrow token (first_token (expr_of base.now.value)) member.now.token aims)
        ++ expr (exprs.Dot token member.now.token member.now.name)) ++ todo.old) }
{
    todo.expr_op(ExprOp::Dot {
        token,
        member: member.token,
        name: member.name,
    })?;
    todo.expr_op(ExprOp::Arrow {
        token,
        first: first(base),
        last: member.token,
        aims,
    })?;
    todo.expr(base)
}

fn is_led_to(sign: Punct, is_within: bool) -> bool
    ensures { result ≡ by_star sign is_within }
{
    match sign {
        Punct::Star => is_within,
        _ => false,
    }
}

/// Whether an operand leads to its place by a pointer, through parentheses, `__extension__`, parts and members alone.
/// `is_within`: a member is taken of it. Linear in these, and recursive as deep.
fn comes_by_pointer(e: &Expr, is_within: bool) -> bool
    ensures { result ≡ comes_by_pointer is_within (expr_of e.now) }
{
    match e {
        Expr::Paren { inner, .. } => comes_by_pointer(inner, is_within),
        Expr::Ext { operand, .. } | Expr::Part { operand, .. } => {
            comes_by_pointer(operand, is_within)
        }
        Expr::Dot { base, .. } => comes_by_pointer(base, true),
        Expr::Arrow { .. } => true,
        Expr::Index { .. } => is_within,
        Expr::Prefix { sign, .. } => is_led_to(*sign, is_within),
        Expr::Comma { .. }
        | Expr::Assign { .. }
        | Expr::Cond { .. }
        | Expr::Or { .. }
        | Expr::And { .. }
        | Expr::BitOr { .. }
        | Expr::BitXor { .. }
        | Expr::BitAnd { .. }
        | Expr::Equal { .. }
        | Expr::NotEqual { .. }
        | Expr::Less { .. }
        | Expr::Greater { .. }
        | Expr::LessEqual { .. }
        | Expr::GreaterEqual { .. }
        | Expr::ShiftLeft { .. }
        | Expr::ShiftRight { .. }
        | Expr::Plus { .. }
        | Expr::Minus { .. }
        | Expr::Times { .. }
        | Expr::Divide { .. }
        | Expr::Remainder { .. }
        | Expr::Cast { .. }
        | Expr::Sizeof { .. }
        | Expr::SizeofType { .. }
        | Expr::Call { .. }
        | Expr::Post { .. }
        | Expr::Compound { .. }
        | Expr::NameUse { .. }
        | Expr::NumberUse { .. }
        | Expr::CharUse { .. }
        | Expr::TextUse { .. }
        | Expr::StmtExpr { .. }
        | Expr::VaArg { .. }
        | Expr::VaStart { .. }
        | Expr::VaCopy { .. }
        | Expr::Offset { .. }
        | Expr::LabelUse { .. }
        | Expr::Compat { .. }
        | Expr::Choose { .. }
        | Expr::Generic { .. } => false,
    }
}

/// An operator before its operand. `aims`: its place is only addressed. The operand of `&` is only addressed.
#[tactic(auto, using(crate::proofs::TodoLemmas::list_assoc))]
fn before_operand<'a>(
    sign: Punct,
    token: TokenId,
    operand: &'a Box<Expr>,
    aims: bool,
    todo: &mut Todo<'a>,
) -> Result<(), NoMemory>
    ensures { OnOk result (todo.new
        ≡ prefix_tape token sign (expr_of operand.now.value) aims
        (tape_in false true (expr_of operand.now.value)) (boxed_tape operand.now) ++ todo.old) }
{
    match sign {
        Punct::Ampersand => {
            todo.expr_op(ExprOp::Prefix {
                sign,
                token,
                last: last(operand),
                aims: comes_by_pointer(operand, false),
            })?;
            todo.part(operand, true)
        }
        _ => {
            todo.expr_op(ExprOp::Prefix {
                sign,
                token,
                last: last(operand),
                aims,
            })?;
            todo.expr(operand)
        }
    }
}

/// An expression. `is_called`: it stands right before the `(` of a call. `is_addressed`: its place is only addressed.
pub fn expand_expr<'a>(
    e: &'a Expr,
    is_called: bool,
    is_addressed: bool,
    todo: &mut Todo<'a>,
) -> Result<(), NoMemory>
    ensures { OnOk result
        (todo.new ≡ tape_in is_called is_addressed (expr_of e.now) ++ todo.old) }
{
    match shape_of(e) {
        Shape::Operation {
            left,
            between,
            token,
            right,
        } => match between {
            Between::Comma => operation(left, right, ExprOp::Comma { token }, todo),
            Between::Assign(sign) => {
                operation(
                    left,
                    right,
                    ExprOp::Assign {
                        sign,
                        token,
                        first: first(left),
                        last: last(right),
                    },
                    todo,
                )
            }
            Between::Cond { middle, .. } => conditional(left, token, middle, right, todo),
            Between::Binary(sign) => {
                operation(
                    left,
                    right,
                    ExprOp::Binary {
                        sign,
                        token,
                        first: first(left),
                        last: last(right),
                    },
                    todo,
                )
            }
        },
        Shape::Cast {
            open,
            type_name: t,
            operand,
            ..
        } => cast(open, t.words, t.declr, operand, todo),
        Shape::Prefix {
            token,
            sign,
            operand,
        } => before_operand(sign, token, operand, is_addressed, todo),
        Shape::Sizeof { keyword, operand } => size_of_value(keyword.token, operand, todo),
        Shape::SizeofType {
            keyword,
            type_name: t,
            ..
        } => size_of_type(keyword.token, t.words, t.declr, todo),
        Shape::Ext { keyword, operand } => part_of(
            operand,
            is_addressed,
            ExprOp::Ext { token: keyword },
            todo,
        ),
        Shape::Index {
            base,
            open,
            index,
            close,
        } => {
            operation(
                base,
                index,
                ExprOp::Index {
                    token: open,
                    first: first(base),
                    last: close,
                    aims: is_addressed,
                },
                todo,
            )
        }
        Shape::Call {
            callee,
            open,
            arguments,
            ..
        } => call(callee, open, arguments, todo),
        Shape::Dot {
            base,
            token,
            member,
        } => {
            part_of(
                base,
                is_addressed,
                ExprOp::Dot {
                    token,
                    member: member.token,
                    name: member.name,
                },
                todo,
            )
        }
        Shape::Arrow {
            base,
            token,
            member,
        } => member_behind(base, token, &member, is_addressed, todo),
        Shape::Post {
            operand,
            token,
            sign,
        } => {
            operand_of(
                operand,
                ExprOp::Post {
                    sign,
                    token,
                    first: first(operand),
                },
                todo,
            )
        }
        Shape::Compound {
            open,
            type_name: t,
            items,
            ..
        } => compound(open, t.words, t.declr, items, todo),
        Shape::NameUse { token, name } => todo.expr_op(ExprOp::Name {
            is_called,
            token,
            name,
        }),
        Shape::NumberUse { token } => todo.expr_op(ExprOp::Number { token }),
        Shape::CharUse { token } => todo.expr_op(ExprOp::Char { token }),
        Shape::TextUse { texts } => todo.expr_op(ExprOp::Text {
            token: first_of_texts(texts.as_slice()),
        }),
        Shape::Paren { open, inner, .. } => {
            part_of(inner, is_addressed, ExprOp::Paren { token: open }, todo)
        }
        Shape::StmtExpr { open, items, .. } => statement_expression(open, items, todo),
        Shape::VaArg {
            keyword,
            list,
            type_name: t,
            close,
            ..
        } => { next_argument(keyword, list, t.words, t.declr, close, todo) }
        Shape::VaStart {
            keyword,
            list,
            last: parameter,
            close,
            ..
        } => { list_start(keyword, list, parameter, close, todo) }
        Shape::VaCopy {
            keyword,
            target,
            source,
            close,
            ..
        } => { list_copy(keyword, target, source, close, todo) }
        Shape::Offset {
            keyword,
            type_name: t,
            member,
            steps,
            ..
        } => { offset(keyword, t.words, t.declr, &member, steps, todo) }
        Shape::Part { keyword, operand } => part_of(
            operand,
            is_addressed,
            ExprOp::Ext { token: keyword },
            todo,
        ),
        Shape::LabelUse { token, .. } => todo.expr_op(ExprOp::Label { token }),
        Shape::Compat {
            keyword,
            left,
            right,
            ..
        } => {
            are_compatible(
                keyword,
                left.words,
                left.declr,
                right.words,
                right.declr,
                todo,
            )
        },
        Shape::Choose {
            keyword,
            condition,
            first: left,
            second: right,
            ..
        } => chosen(keyword, condition, left, right, todo),
        Shape::Generic {
            keyword,
            control,
            associations,
            ..
        } => selected(keyword, control, associations, todo),
    }
}

/// Expressions one after the other.
#[tactic(auto, using(crate::proofs::TodoLemmas::list_assoc))]
pub fn expand_exprs<'a>(es: &'a [Expr], todo: &mut Todo<'a>) -> Result<(), NoMemory>
    ensures { OnOk result (todo.new ≡ exprs_tape (exprs_from es.now) ++ todo.old) }
{
    match es.split_first() {
        None => Ok(()),
        Some((e, rest)) => {
            todo.exprs(rest)?;
            expand_expr(e, false, false, todo)
        }
    }
}

/// The arguments of a call, behind their values.
#[tactic(auto, using(crate::proofs::TodoLemmas::list_assoc))]
pub fn expand_arguments<'a>(es: &'a [Expr], todo: &mut Todo<'a>) -> Result<(), NoMemory>
    ensures { OnOk result (todo.new ≡ arguments (exprs_from es.now) ++ todo.old) }
{
    match es.split_first() {
        None => Ok(()),
        Some((e, rest)) => {
            let behind = count_of(rest)?;
            todo.arguments(rest)?;
            todo.expr_op(ExprOp::Arg {
                behind,
                first: first(e),
                last: last(e),
            })
        }
    }
}
