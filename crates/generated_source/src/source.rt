//! The source of a wanted size, and its lattice.

ghost use Rattle.std.specs.Prelude.{◌≡◌, ◌++◌, ◌≤◌, IfOk, OnOk};
ghost use Rattle.generated_source.specs.Source.{lattice_text, caller_line, end_text};
ghost use Rattle.generated_source.specs.Source.{generated_text};

use crate::writing::put_numbered;
use annotate::put;
use qual_base::NoMemory;
use std::alloc::{AllocError, Global};

/// The lattice file under which the generated source is read: `$untainted` below `$tainted`, at the level of values. What
/// is declared `$tainted` is at least that, and what is declared `$untainted` at most that.
pub fn lattice_bytes() -> &'static [u8]
    ensures { result.now ≡ lattice_text }
{
    b"partial order {
  $untainted [level = value, sign = neg]
  $tainted [level = value, sign = pos]
  $untainted < $tainted
}
"
}

/// The function with a number, which calls another one twice.
fn put_caller(out: &mut Vec<u8>, number: u32, called: u32) -> Result<(), AllocError>
    ensures { OnOk result (out.new.items ≡ out.old.items ++ caller_line number called) }
{
    put_numbered(out, b"int f", number)?;
    put_numbered(out, b"(int x) { return f", called)?;
    put_numbered(out, b"(f", called)?;
    put(out, b"(x)); }\n")
}

/// The two objects, and the function that calls the last one.
fn put_end(out: &mut Vec<u8>, last: u32) -> Result<(), AllocError>
    ensures { OnOk result (out.new.items ≡ out.old.items ++ end_text last) }
{
    put_numbered(
        out,
        b"$tainted int a;\n$untainted int b;\nvoid top(void) { b = f",
        last,
    )?;
    put(out, b"(a); }\n")
}

/// The source with `n` functions that call one another in turn, each the one before it twice, so that what the last one
/// gives comes through 2 ^ `n` calls of the first: `$tainted` goes in at the last function, and what comes out has to be
/// `$untainted`. For `n` from 1 to 1000 it has `n` + 4 lines. Linear in its text.
///
/// # Errors
///
/// Want of memory.
pub fn generated_source(alloc: Global, n: u32) -> Result<Vec<u8>, NoMemory>
    requires some { 1 ≤ n }
    requires most { n ≤ 1000 }
    ensures { IfOk result (λ source. source.items ≡ generated_text n) }
{
    let mut text = Vec::new(alloc);
    put(&mut text, b"int f0(int x) { return x; }\n")?;
    for called in 0..n {
        put_caller(&mut text, called + 1, called)?;
    }
    put_end(&mut text, n)?;
    Ok(text)
}
