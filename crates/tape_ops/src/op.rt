//! A node of a tape, of any kind.

use crate::declarator::DeclrOp;
use crate::expression::ExprOp;
use crate::form::FormOp;
use crate::initialiser::InitOp;
use crate::specifier::SpecOp;
use crate::statement::StmtOp;

/// A node of a tape.
#[derive(Clone, Copy, PartialEq, Eq, Debug)]
pub enum Op {
    Expr(ExprOp),
    Form(FormOp),
    Init(InitOp),
    Spec(SpecOp),
    Declr(DeclrOp),
    Stmt(StmtOp),
}
