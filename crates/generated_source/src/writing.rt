//! Numbers behind words at the end of a text.

ghost use Rattle.std.specs.Prelude.{◌≡◌, ◌++◌, OnOk};
ghost use Rattle.std.specs.Fmt.{decimal};

use annotate::{put, put_decimal};
use std::alloc::AllocError;

/// Puts bytes behind a text, and behind them a number in decimal digits.
pub fn put_numbered(out: &mut Vec<u8>, bytes: &[u8], number: u32) -> Result<(), AllocError>
    ensures { OnOk result (out.new.items ≡ out.old.items ++ bytes.now ++ decimal number) }
{
    put(out, bytes)?;
    put_decimal(out, u64::from(number))
}
