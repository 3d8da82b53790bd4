//! Operators with the heights of their middles.

ghost use Rattle.std.specs.Prelude.{◌≡◌};
ghost use Rattle.c_tree.specs.Capped.{capped};
ghost use Rattle.c_tree.specs.Height.{operator_height};
ghost use Rattle.c_tree.specs.Levels.{IsOperator, right_level as right_level_of};
ghost use Rattle.c_ops.specs.Op.{operator_of};
ghost use Rattle.expr_rows.specs.OpRows.Facts.{IsOperator-prop};

use c_nodes::SizedSomeExpr;
use c_ops::{Op, level_of_binary};
use c_words::Punct;
use qual_base::TokenId;

/// An operator of the precedence table, with the height of its middle, 0 where there is none.
#[derive(Drop)]
pub struct SizedOp {
    pub(crate) op: Op,
    pub(crate) height: u32,
    ghost listed: { IsOperator (operator_of op) } by { IsOperator-prop (operator_of op) },
    ghost sized: { height ≡ capped (operator_height (operator_of op)) },
}

/// The least level of the right operand of an operator.
fn right_level(op: &Op) -> u8
    ensures { result ≡ right_level_of (operator_of op.now) }
{
    match op {
        Op::Comma | Op::Assign(_) => 1,
        Op::Cond { .. } => 2,
        Op::Binary(sign) => level_of_binary(*sign) + 3,
    }
}

impl SizedOp {
    ghost use Rattle.std.specs.Prelude.{◌≤◌, nat_le, true};
    ghost use Rattle.c_tree.specs.Tree.{comma, assign, cond, binary};
    ghost use Rattle.c_tree.specs.Lists.{some_expr_from};
    ghost use Rattle.c_tree.specs.Levels.{binary_level, is_assignment};
    ghost use Rattle.expr_rows.specs.OpRows.Rows.{operator};

    /// A comma between two expressions (C99, 6.5.17).
    pub fn comma() -> Self
        ensures { operator result ≡ comma }
    {
        SizedOp {
            op: Op::Comma,
            height: 0,
        }
    }

    /// `=` or a compound assignment (C99, 6.5.16).
    pub fn assign(sign: Punct) -> Self
        requires { is_assignment sign ≡ true }
        ensures { operator result ≡ assign sign }
    {
        SizedOp {
            op: Op::Assign(sign),
            height: 0,
        }
    }

    /// A binary operator, from `||` to `*` (C99, 6.5.5 to 6.5.14).
    pub fn binary(sign: Punct) -> Self
        requires { 1 ≤ binary_level sign }
        ensures { operator result ≡ binary sign }
    {
        SizedOp {
            op: Op::Binary(sign),
            height: 0,
        }
    }

    /// `?` and `:` with what stands between them, nothing where the condition stands for it (C99,
    /// 6.5.15).
    pub fn question(middle: SizedSomeExpr, colon: TokenId) -> Self
        ensures { operator result ≡ cond (some_expr_from middle.tree) colon }
    {
        let SizedSomeExpr { tree, height } = middle;
        match tree {
            None => SizedOp {
                op: Op::Cond {
                    middle: None,
                    colon,
                },
                height,
            },
            Some(middle) => SizedOp {
                op: Op::Cond {
                    middle: Some(middle),
                    colon,
                },
                height,
            },
        }
    }

    /// Whether its right operand goes on with an operator of a level.
    pub(crate) fn continues(&self, level: u8) -> bool
        ensures { result ≡ nat_le (right_level_of (operator self.now)) level }
    {
        right_level(&self.op) <= level
    }
}
