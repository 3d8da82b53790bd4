//! The lines of a certificate, at the end of a text.

ghost use Rattle.std.specs.Prelude.{◌≡◌, ◌++◌, OnOk};
ghost use Rattle.std.specs.Fmt.{decimal};
ghost use Rattle.certificate_text.specs.Text.{name_text, letter, set_text, pair_text, pairs_text};
ghost use Rattle.certificate_text.specs.Text.{lattice_text};

use std::alloc::AllocError;

/// The two sets of a variable, which stands under its name.
#[derive(Clone, Copy, PartialEq, Eq, Debug)]
pub struct SetLine {
    pub name: u32,
    pub first: u64,
    pub second: u64,
}

/// Puts bytes behind a text.
pub fn put(out: &mut Vec<u8>, bytes: &[u8]) -> Result<(), AllocError>
    ensures { OnOk result (out.new.items ≡ out.old.items ++ bytes.now) }
{
    out.extend_from_slice(bytes)
}

/// Puts a number behind a text, in decimal digits.
fn put_decimal(out: &mut Vec<u8>, number: u64) -> Result<(), AllocError>
    ensures { OnOk result (out.new.items ≡ out.old.items ++ decimal number) }
{
    let text = format!(in *out.allocator(); "{number}")?;
    put(out, text.as_bytes())
}

/// The letter of an end.
fn letter(name: u32) -> &'static [u8]
    ensures { result.now ≡ letter name }
{
    if name % 2 == 0 { b"a" } else { b"b" }
}

/// The name of a variable: the number of a constraint, and `a` or `b` for an end of it.
fn put_name(out: &mut Vec<u8>, name: u32) -> Result<(), AllocError>
    ensures { OnOk result (out.new.items ≡ out.old.items ++ name_text name) }
{
    put_decimal(out, u64::from(name / 2))?;
    put(out, letter(name))
}

/// The line of the two sets of a variable.
pub fn put_set(out: &mut Vec<u8>, it: SetLine) -> Result<(), AllocError>
    ensures { OnOk result (out.new.items ≡ out.old.items ++ set_text it) }
{
    put(out, b"  set ")?;
    put_name(out, it.name)?;
    put(out, b" ")?;
    put_decimal(out, it.first)?;
    put(out, b" ")?;
    put_decimal(out, it.second)?;
    put(out, b"\n")
}

/// The line of a pair.
fn put_pair(out: &mut Vec<u8>, pair: (u32, u32)) -> Result<(), AllocError>
    ensures { OnOk result (out.new.items ≡ out.old.items ++ pair_text pair) }
{
    put(out, b"  pair ")?;
    put_name(out, pair.0)?;
    put(out, b" ")?;
    put_name(out, pair.1)?;
    put(out, b"\n")
}

/// The lines of pairs.
pub fn put_pairs(out: &mut Vec<u8>, pairs: &[(u32, u32)]) -> Result<(), AllocError>
    ensures { OnOk result (out.new.items ≡ out.old.items ++ pairs_text pairs.now) }
{
    for pair in pairs {
        put_pair(out, *pair)?;
    }
    Ok(())
}

/// The line of a lattice.
pub fn put_lattice(out: &mut Vec<u8>, number: u64) -> Result<(), AllocError>
    ensures { OnOk result (out.new.items ≡ out.old.items ++ lattice_text number) }
{
    put(out, b"lattice ")?;
    put_decimal(out, number)?;
    put(out, b"\n")
}
