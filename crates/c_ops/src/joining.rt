//! Operators joined with their operands.

ghost use Rattle.std.specs.Prelude.{◌≡◌, ◌≤◌};
ghost use Rattle.c_tree.specs.Tree.{operation, binary, cond};
ghost use Rattle.c_tree.specs.View.{expr_of};
ghost use Rattle.c_tree.specs.Levels.{binary_level, IsOperator};
ghost use Rattle.c_ops.specs.Op.{operator_of, some_expr_in};

use crate::op::{Op, level_of_binary};
use c_syntax::Expr;
use c_words::Punct;
use qual_base::TokenId;

/// `&&` or `||` with its operands.
fn logic_of(left: Box<Expr>, token: TokenId, sign: Punct, right: Box<Expr>) -> Expr
    requires least { 1 ≤ binary_level sign }
    requires most { binary_level sign ≤ 2 }
    ensures { expr_of result ≡ operation (expr_of left.value) (binary sign) token
        (expr_of right.value) }
{
    match sign {
        Punct::BarBar => Expr::Or { left, token, right },
        Punct::AmpersandAmpersand => Expr::And { left, token, right },
        _ => unreachable!(),
    }
}

/// `|`, `^` or `&` with its operands.
fn bits_of(left: Box<Expr>, token: TokenId, sign: Punct, right: Box<Expr>) -> Expr
    requires least { 3 ≤ binary_level sign }
    requires most { binary_level sign ≤ 5 }
    ensures { expr_of result ≡ operation (expr_of left.value) (binary sign) token
        (expr_of right.value) }
{
    match sign {
        Punct::Bar => Expr::BitOr { left, token, right },
        Punct::Caret => Expr::BitXor { left, token, right },
        Punct::Ampersand => Expr::BitAnd { left, token, right },
        _ => unreachable!(),
    }
}

/// `==` or `!=` with its operands.
fn equality_of(left: Box<Expr>, token: TokenId, sign: Punct, right: Box<Expr>) -> Expr
    requires { binary_level sign ≡ 6 }
    ensures { expr_of result ≡ operation (expr_of left.value) (binary sign) token
        (expr_of right.value) }
{
    match sign {
        Punct::EqualEqual => Expr::Equal { left, token, right },
        Punct::BangEqual => Expr::NotEqual { left, token, right },
        _ => unreachable!(),
    }
}

/// `<`, `>`, `<=` or `>=` with its operands.
fn order_of(left: Box<Expr>, token: TokenId, sign: Punct, right: Box<Expr>) -> Expr
    requires { binary_level sign ≡ 7 }
    ensures { expr_of result ≡ operation (expr_of left.value) (binary sign) token
        (expr_of right.value) }
{
    match sign {
        Punct::Less => Expr::Less { left, token, right },
        Punct::Greater => Expr::Greater { left, token, right },
        Punct::LessEqual => Expr::LessEqual { left, token, right },
        Punct::GreaterEqual => Expr::GreaterEqual { left, token, right },
        _ => unreachable!(),
    }
}

/// `<<` or `>>` with its operands.
fn shift_of(left: Box<Expr>, token: TokenId, sign: Punct, right: Box<Expr>) -> Expr
    requires { binary_level sign ≡ 8 }
    ensures { expr_of result ≡ operation (expr_of left.value) (binary sign) token
        (expr_of right.value) }
{
    match sign {
        Punct::ShiftLeft => Expr::ShiftLeft { left, token, right },
        Punct::ShiftRight => Expr::ShiftRight { left, token, right },
        _ => unreachable!(),
    }
}

/// `+` or `-` with its operands.
fn sum_of(left: Box<Expr>, token: TokenId, sign: Punct, right: Box<Expr>) -> Expr
    requires { binary_level sign ≡ 9 }
    ensures { expr_of result ≡ operation (expr_of left.value) (binary sign) token
        (expr_of right.value) }
{
    match sign {
        Punct::Plus => Expr::Plus { left, token, right },
        Punct::Minus => Expr::Minus { left, token, right },
        _ => unreachable!(),
    }
}

/// `*`, `/` or `%` with its operands.
fn product_of(left: Box<Expr>, token: TokenId, sign: Punct, right: Box<Expr>) -> Expr
    requires { binary_level sign ≡ 10 }
    ensures { expr_of result ≡ operation (expr_of left.value) (binary sign) token
        (expr_of right.value) }
{
    match sign {
        Punct::Star => Expr::Times { left, token, right },
        Punct::Slash => Expr::Divide { left, token, right },
        Punct::Percent => Expr::Remainder { left, token, right },
        _ => unreachable!(),
    }
}

/// A binary operator with its operands.
fn binary_of(left: Box<Expr>, token: TokenId, sign: Punct, right: Box<Expr>) -> Expr
    requires { 1 ≤ binary_level sign }
    ensures { expr_of result ≡ operation (expr_of left.value) (binary sign) token
        (expr_of right.value) }
{
    match level_of_binary(sign) {
        1 | 2 => logic_of(left, token, sign, right),
        3..=5 => bits_of(left, token, sign, right),
        6 => equality_of(left, token, sign, right),
        7 => order_of(left, token, sign, right),
        8 => shift_of(left, token, sign, right),
        9 => sum_of(left, token, sign, right),
        _ => product_of(left, token, sign, right),
    }
}

/// A conditional with its parts.
fn conditional(
    condition: Box<Expr>,
    question: TokenId,
    middle: Option<Box<Expr>>,
    colon: TokenId,
    otherwise: Box<Expr>,
) -> Expr
    ensures { expr_of result ≡ operation (expr_of condition.value)
        (cond (some_expr_in middle) colon) question (expr_of otherwise.value) }
{
    match middle {
        None => Expr::Cond {
            condition,
            question,
            middle: None,
            colon,
            otherwise,
        },
        Some(middle) => Expr::Cond {
            condition,
            question,
            middle: Some(middle),
            colon,
            otherwise,
        },
    }
}

/// An operator with its operands.
pub fn operated(left: Box<Expr>, token: TokenId, op: Op, right: Box<Expr>) -> Expr
    requires { IsOperator (operator_of op) }
    ensures { expr_of result ≡ operation (expr_of left.value) (operator_of op) token
        (expr_of right.value) }
{
    match op {
        Op::Binary(sign) => binary_of(left, token, sign, right),
        Op::Assign(sign) => Expr::Assign {
            left,
            token,
            sign,
            right,
        },
        Op::Comma => Expr::Comma { left, token, right },
        Op::Cond { middle, colon } => conditional(left, token, middle, colon, right),
    }
}
