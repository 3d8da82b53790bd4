//! Key tokens.

ghost use Rattle.std.specs.Prelude.{◌≡◌};
ghost use Rattle.expr_types.specs.Keys.{expr_op_key, form_key, init_key, op_key};

use qual_base::TokenId;
use tape_ops::{ExprOp, FormOp, InitOp, Op};

/// The key token of an operand or operator.
fn expression_key(op: ExprOp) -> Option<TokenId>
    ensures { result ≡ expr_op_key op }
{
    match op {
        ExprOp::Name { token, .. } => Some(token),
        ExprOp::Number { token } => Some(token),
        ExprOp::Char { token } => Some(token),
        ExprOp::Text { token } => Some(token),
        ExprOp::Paren { token } => Some(token),
        ExprOp::Ext { token } => Some(token),
        ExprOp::Comma { token } => Some(token),
        ExprOp::Assign { token, .. } => Some(token),
        ExprOp::Cond { token, .. } => Some(token),
        ExprOp::Binary { token, .. } => Some(token),
        ExprOp::Prefix { token, .. } => Some(token),
        ExprOp::Post { token, .. } => Some(token),
        ExprOp::Index { token, .. } => Some(token),
        ExprOp::Arg { .. } => None,
        ExprOp::Call { token, .. } => Some(token),
        ExprOp::Arrow { .. } => None,
        ExprOp::Dot { token, .. } => Some(token),
        ExprOp::Label { token } => Some(token),
    }
}

/// The key token of an expression with a type name or a block.
fn form_key(op: FormOp) -> Option<TokenId>
    ensures { result ≡ form_key op }
{
    match op {
        FormOp::Cast { token, .. } => Some(token),
        FormOp::Sizeof { token } => Some(token),
        FormOp::StmtExpr { token, .. } => Some(token),
        FormOp::VaArg { token, .. } => Some(token),
        FormOp::VaStart { token, .. } => Some(token),
        FormOp::VaCopy { token, .. } => Some(token),
        FormOp::OffsetMember { .. } => None,
        FormOp::OffsetIndex { .. } => None,
        FormOp::Offset { token } => Some(token),
        FormOp::Compat { token } => Some(token),
        FormOp::Control => None,
        FormOp::NoType => None,
        FormOp::Choose { token } => Some(token),
        FormOp::Generic { token, .. } => Some(token),
    }
}

/// The key token of a compound literal.
fn literal_key(op: InitOp) -> Option<TokenId>
    ensures { result ≡ init_key op }
{
    match op {
        InitOp::Value { .. } => None,
        InitOp::Begin => None,
        InitOp::Rule => None,
        InitOp::Literal { token } => Some(token),
        InitOp::ListBegin => None,
        InitOp::Member { .. } => None,
        InitOp::Index { .. } => None,
        InitOp::Leaf { .. } => None,
        InitOp::ListEnd => None,
        InitOp::End => None,
        InitOp::LiteralEnd => None,
    }
}

/// The key token of the expression that an op ends.
pub(crate) fn key(op: Op) -> Option<TokenId>
    ensures { result ≡ op_key op }
{
    match op {
        Op::Expr(op) => expression_key(op),
        Op::Form(op) => form_key(op),
        Op::Init(op) => literal_key(op),
        Op::Spec(_) => None,
        Op::Declr(_) => None,
        Op::Stmt(_) => None,
    }
}
