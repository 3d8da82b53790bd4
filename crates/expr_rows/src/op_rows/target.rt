//! Left sides of assignments.

ghost use Rattle.std.specs.Prelude.{◌≡◌, nat_le};
ghost use Rattle.c_tree.specs.View.{expr_of};
ghost use Rattle.c_tree.specs.Levels.{expr_level};

use c_syntax::Expr;

/// Whether an expression is a unary form (C99, 6.5.3): no operator between operands, and no cast.
pub(crate) fn is_unary(e: &Expr) -> bool
    ensures { result ≡ nat_le 14 (expr_level (expr_of e.now)) }
{
    match e {
        Expr::Comma { .. } | Expr::Assign { .. } | Expr::Cond { .. } => false,
        Expr::Or { .. } | Expr::And { .. } => false,
        Expr::BitOr { .. } | Expr::BitXor { .. } | Expr::BitAnd { .. } => false,
        Expr::Equal { .. } | Expr::NotEqual { .. } => false,
        Expr::Less { .. } | Expr::Greater { .. } => false,
        Expr::LessEqual { .. } | Expr::GreaterEqual { .. } => false,
        Expr::ShiftLeft { .. } | Expr::ShiftRight { .. } => false,
        Expr::Plus { .. } | Expr::Minus { .. } => false,
        Expr::Times { .. } | Expr::Divide { .. } | Expr::Remainder { .. } => false,
        Expr::Cast { .. } => false,
        Expr::Prefix { .. } | Expr::Sizeof { .. } | Expr::SizeofType { .. } => true,
        Expr::Ext { .. } | Expr::Index { .. } | Expr::Call { .. } => true,
        Expr::Dot { .. } | Expr::Arrow { .. } | Expr::Post { .. } => true,
        Expr::Compound { .. } | Expr::NameUse { .. } | Expr::NumberUse { .. } => true,
        Expr::CharUse { .. } | Expr::TextUse { .. } | Expr::Paren { .. } => true,
        Expr::StmtExpr { .. } | Expr::VaArg { .. } | Expr::VaStart { .. } => true,
        Expr::VaCopy { .. } | Expr::Offset { .. } => true,
        Expr::Part { .. } | Expr::LabelUse { .. } | Expr::Compat { .. } => true,
        Expr::Choose { .. } | Expr::Generic { .. } => true,
    }
}
