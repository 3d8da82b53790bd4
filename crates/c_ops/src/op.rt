//! Operators with what stands between them and their right operands.

ghost use Rattle.std.specs.Prelude.{◌≡◌};
ghost use Rattle.c_tree.specs.Levels.{binary_level};

use c_syntax::Expr;
use c_words::Punct;
use qual_base::TokenId;

/// An operator between two operands.
#[derive(Drop)]
pub enum Op {
    /// An operator of the levels 1 to 10, from `||` to `*`.
    Binary(Punct),
    /// `=` or a compound assignment.
    Assign(Punct),
    Comma,
    /// `?`, with what stands between it and `:`.
    Cond {
        middle: Option<Box<Expr>>,
        colon: TokenId,
    },
}

/// The level of a binary operator, from 1 to 10, the loosest first; 0 for other signs.
pub fn level_of_binary(sign: Punct) -> u8
    ensures { result ≡ binary_level sign }
{
    match sign {
        Punct::BarBar => 1,
        Punct::AmpersandAmpersand => 2,
        Punct::Bar => 3,
        Punct::Caret => 4,
        Punct::Ampersand => 5,
        Punct::EqualEqual | Punct::BangEqual => 6,
        Punct::Less | Punct::Greater | Punct::LessEqual | Punct::GreaterEqual => 7,
        Punct::ShiftLeft | Punct::ShiftRight => 8,
        Punct::Plus | Punct::Minus => 9,
        Punct::Star | Punct::Slash | Punct::Percent => 10,
        _ => 0,
    }
}
