//! Bytes, numbers and places at the end of a text.

ghost use Rattle.std.specs.Prelude.{◌≡◌, ◌++◌, OnOk, slice_range, codes};
ghost use Rattle.std.specs.Fmt.{decimal};
ghost use Rattle.annotate.specs.Texts.{at_text, file_text, spot_text};

use qual_base::Spot;
use std::alloc::AllocError;

/// Puts bytes behind a text.
pub fn put(out: &mut Vec<u8>, bytes: &[u8]) -> Result<(), AllocError>
    ensures { OnOk result (out.new.items ≡ out.old.items ++ bytes.now) }
{
    out.extend_from_slice(bytes)
}

/// Puts a number behind a text, in decimal digits.
pub fn put_decimal(out: &mut Vec<u8>, number: u64) -> Result<(), AllocError>
    ensures { OnOk result (out.new.items ≡ out.old.items ++ decimal number) }
{
    let text = format!(in *out.allocator(); "{number}")?;
    put(out, text.as_bytes())
}

/// The bytes from one place to another, of those that are there.
fn range(bytes: &[u8], from: u32, to: u32) -> &[u8]
    ensures { result.now ≡ slice_range bytes.now from to }
{
    let to = bytes.len().min(to as usize);
    &bytes[to.min(from as usize)..to]
}

/// The file that a spot of a unit names: that of its linemarker, or the unit's own.
fn file_of<'a>(file: &'a str, bytes: &'a [u8], spot: &Spot) -> &'a [u8]
    ensures { result.now ≡ file_text file.now bytes.now spot.now }
{
    if spot.name_from == spot.name_to {
        file.as_bytes()
    } else {
        range(bytes, spot.name_from, spot.name_to)
    }
}

/// FILE:LINE:COLUMN.
pub fn put_at(out: &mut Vec<u8>, file: &[u8], line: u64, column: u64) -> Result<(), AllocError>
    ensures { OnOk result (out.new.items ≡ out.old.items ++ at_text file.now line column) }
{
    put(out, file)?;
    put(out, b":")?;
    put_decimal(out, line)?;
    put(out, b":")?;
    put_decimal(out, column)
}

/// FILE:LINE:COLUMN of a spot in a unit with this name and these bytes.
pub fn put_spot(out: &mut Vec<u8>, file: &str, bytes: &[u8], spot: &Spot) -> Result<(), AllocError>
    ensures { OnOk result (out.new.items ≡ out.old.items ++ spot_text file.now bytes.now spot.now) }
{
    put_at(out, file_of(file, bytes, spot), spot.line, spot.column)
}
