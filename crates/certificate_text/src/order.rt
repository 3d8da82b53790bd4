//! Pairs of numbers in ascending order.

ghost use Rattle.std.specs.Prelude.{◌↔◌, OnOk, ℕ};
ghost use Rattle.std.specs.List.{Contains};
ghost use Rattle.std.specs.List.Sorted.{IsStrictlySortedBy};
ghost use Rattle.certificate_text.specs.Order.{pair_cmp};

use std::alloc::AllocError;

/// Puts pairs in ascending order, each once.
pub fn put_in_order(pairs: &mut Vec<(u32, u32)>) -> Result<(), AllocError>
    ensures ascending { OnOk result (IsStrictlySortedBy pair_cmp pairs.new.items) }
    ensures keeps { OnOk result ((p : ℕ × ℕ) →
        Contains pairs.old.items p ↔ Contains pairs.new.items p) }
{
    pairs.sort()?;
    pairs.dedup();
    Ok(())
}
