//! Writing a whole text.

ghost use Rattle.std.specs.Prelude.{◌≡◌, ◌≤◌, ◌+◌, ◌++◌, ℕ, OnOk, length};
ghost use Rattle.outside.specs.Puts.{failures};
ghost use Rattle.cqual_tool.specs.Sending.{AppendsFront};

use outside::{Failed, Sink};

/// Puts all of a text out, piece by piece, or a front of it where a put fails.
pub fn send<O: Sink>(out: &mut O, text: &[u8]) -> Result<(), Failed>
    ensures all { OnOk result (O.written out.new ≡ O.written out.old ++ text.now) }
    ensures front { AppendsFront (O.written out.old) (O.written out.new) text.now }
    ensures failed { O.failed out.new ≡ O.failed out.old + failures result }
{
    let mut sent = 0;
    while sent < text.len() {
        sent += out.put(&text[sent..])?;
    }
    Ok(())
}
