//! The first operand of a row.

ghost use Rattle.std.specs.Prelude.{◌≡◌, ◌-◌, length};
ghost use Rattle.reader_base.specs.Lent.{Lends, ReadsExpr, begun_of};
ghost use Rattle.expr_rows.specs.Turning.{operand_at, behind_extensions, behind_star};

use c_nodes::{SizedExpr, extended, prefix};
use c_words::Punct;
use expr_forms::cast;
use qual_base::TokenId;
use reader_base::{Answer, Ask, Begun, Cursor, ReadError};

/// What is left of the room for the operand of so many prefixes.
fn below(room: u16, prefixes: &[TokenId]) -> u16
    ensures { result ≡ room - length prefixes.now }
{
    match u16::try_from(prefixes.len()) {
        Ok(count) => room.saturating_sub(count),
        Err(_) => 0,
    }
}

/// An operand behind `__extension__`, again and again.
#[tactic(auto, unfolding(c_reading::specs::Reading::and_then), using(crate::proofs::Extending::extended_same))]
fn extension<'a, F>(
    lent: &F,
    tokens: &[TokenId],
    room: u16,
    cursor: &mut Cursor<'a>,
    depth: u32,
) -> Result<SizedExpr, ReadError>
where
    F: Fn(Ask, &mut Cursor<'a>) -> Result<Answer, ReadError>,
    requires { Lends F.Fn lent.now depth }
    ensures { ReadsExpr cursor.old cursor.new result (behind_extensions depth tokens.now room) }
{
    let operand = cast(lent, below(room, tokens), cursor, depth)?;
    Ok(extended(cursor.alloc, tokens, operand)?)
}

/// An operand behind a star.
#[tactic(auto, unfolding(c_reading::specs::Reading::and_then))]
fn pointed<'a, F>(
    lent: &F,
    star: TokenId,
    room: u16,
    cursor: &mut Cursor<'a>,
    depth: u32,
) -> Result<SizedExpr, ReadError>
where
    F: Fn(Ask, &mut Cursor<'a>) -> Result<Answer, ReadError>,
    requires { Lends F.Fn lent.now depth }
    ensures { ReadsExpr cursor.old cursor.new result (behind_star depth star room) }
{
    let operand = cast(lent, room.saturating_sub(1), cursor, depth)?;
    Ok(prefix(cursor.alloc, star, Punct::Star, operand)?)
}

/// The first operand of a row, behind what of it was read already.
#[tactic(auto, unfolding(c_reading::specs::Expressing::operand_with))]
pub(crate) fn operand<'a, F>(
    lent: &F,
    begun: Begun,
    room: u16,
    cursor: &mut Cursor<'a>,
    depth: u32,
) -> Result<SizedExpr, ReadError>
where
    F: Fn(Ask, &mut Cursor<'a>) -> Result<Answer, ReadError>,
    requires { Lends F.Fn lent.now depth }
    ensures { ReadsExpr cursor.old cursor.new result (operand_at depth (begun_of begun) room) }
{
    match begun {
        Begun::Nothing => cast(lent, room, cursor, depth),
        Begun::Extensions(tokens) => extension(lent, tokens.as_slice(), room, cursor, depth),
        Begun::Star(token) => pointed(lent, token, room, cursor, depth),
    }
}
