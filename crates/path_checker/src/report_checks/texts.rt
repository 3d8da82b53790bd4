//! The line that says what a report comes to.

ghost use Rattle.std.specs.Prelude.{◌≡◌, ◌++◌, OnOk};
ghost use Rattle.std.specs.Fmt.{decimal};
ghost use Rattle.path_checker.specs.ReportChecks.Texts.{why_text, code_text, checked_text};

use crate::Why;
use crate::report_checks::judging::{Checked, Code};
use std::alloc::AllocError;

/// The name of a rule.
fn name_of_rule(why: Why) -> &'static [u8]
    ensures { result.now ≡ why_text why }
{
    match why {
        Why::B1 => b"B1",
        Why::B2 => b"B2",
        Why::B3 => b"B3",
        Why::B4 => b"B4",
        Why::B5 => b"B5",
        Why::B6 => b"B6",
        Why::B7 => b"B7",
    }
}

fn name_of(code: Code) -> &'static [u8]
    ensures { result.now ≡ code_text code }
{
    match code {
        Code::K1 => b"K1",
        Code::K2 => b"K2",
        Code::Rule(why) => name_of_rule(why),
    }
}

fn put(out: &mut Vec<u8>, bytes: &[u8]) -> Result<(), AllocError>
    ensures { OnOk result (out.new.items ≡ out.old.items ++ bytes.now) }
{
    out.extend_from_slice(bytes)
}

fn put_decimal(out: &mut Vec<u8>, number: u32) -> Result<(), AllocError>
    ensures { OnOk result (out.new.items ≡ out.old.items ++ decimal number) }
{
    let text = format!(in *out.allocator(); "{number}")?;
    put(out, text.as_bytes())
}

/// Puts the line that says what a report comes to behind a text: `paths hold`, or `path bad at line N: CODE`, with its line
/// feed.
///
/// # Errors
///
/// Want of memory. The text then ends in a part of the line.
pub fn put_checked(out: &mut Vec<u8>, checked: Checked) -> Result<(), AllocError>
    ensures { OnOk result (out.new.items ≡ out.old.items ++ checked_text checked) }
{
    match checked {
        Checked::Hold => put(out, b"paths hold\n"),
        Checked::Bad { line, code } => put_bad(out, line, code),
    }
}

fn put_bad(out: &mut Vec<u8>, line: u32, code: Code) -> Result<(), AllocError>
    ensures { OnOk result
        (out.new.items ≡ out.old.items ++ checked_text (Checked.Bad line code)) }
{
    put(out, b"path bad at line ")?;
    put_decimal(out, line)?;
    put(out, b": ")?;
    put(out, name_of(code))?;
    put(out, b"\n")
}
