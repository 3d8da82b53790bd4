//! Numbers that are kept at most 2^32 - 1.

ghost use Rattle.std.specs.Prelude.{◌≡◌};
ghost use Rattle.c_tree.specs.Capped.{capped};
ghost use Rattle.expr_rows.specs.OpRows.Kept.{JoinsHeights, AddsKept};

/// The height of an operator with its operands: of its left one, its middle and its right one.
pub(crate) fn above_three(left: u32, middle: u32, right: u32) -> u32
    ensures { JoinsHeights left middle right result }
{
    left.max(middle.max(right)).saturating_add(1)
}

/// How many there are.
pub(crate) fn count_of(count: usize) -> u32
    ensures { result ≡ capped count }
{
    u32::try_from(count).unwrap_or(u32::MAX)
}

/// The sum of two numbers.
pub(crate) fn sum_of(one: u32, other: u32) -> u32
    ensures { AddsKept one other result }
{
    one.saturating_add(other)
}
