//! The line that says what a certificate comes to.

ghost use Rattle.std.specs.Prelude.{◌≡◌, ◌++◌, OnOk};
ghost use Rattle.std.specs.Fmt.{decimal};
ghost use Rattle.certificate_checks.specs.Texts.{bad_text, code_text, rule_text, verdict_text};

use crate::judging::{CertCode, Verdict};
use certificate_laws::CertRule;
use std::alloc::AllocError;

/// The name of a rule.
fn name_of_rule(rule: CertRule) -> &'static [u8]
    ensures { result.now ≡ rule_text rule }
{
    match rule {
        CertRule::A1 => b"A1",
        CertRule::A2 => b"A2",
        CertRule::A3 => b"A3",
        CertRule::A4 => b"A4",
        CertRule::A5 => b"A5",
        CertRule::A6 => b"A6",
        CertRule::A7 => b"A7",
        CertRule::A8 => b"A8",
        CertRule::A9 => b"A9",
    }
}

/// The name of a reason why a text is no certificate.
fn name_of(code: CertCode) -> &'static [u8]
    ensures { result.now ≡ code_text code }
{
    match code {
        CertCode::V1 => b"V1",
        CertCode::V2 => b"V2",
    }
}

/// Puts bytes behind a text.
fn put(out: &mut Vec<u8>, bytes: &[u8]) -> Result<(), AllocError>
    ensures { OnOk result (out.new.items ≡ out.old.items ++ bytes.now) }
{
    out.extend_from_slice(bytes)
}

/// Puts a number behind a text, in decimal digits.
fn put_decimal(out: &mut Vec<u8>, number: u32) -> Result<(), AllocError>
    ensures { OnOk result (out.new.items ≡ out.old.items ++ decimal number) }
{
    let text = format!(in *out.allocator(); "{number}")?;
    put(out, text.as_bytes())
}

/// Puts a line that says where a certificate is bad, and why.
fn put_bad(out: &mut Vec<u8>, front: &[u8], number: u32, name: &[u8]) -> Result<(), AllocError>
    ensures { OnOk result
        (out.new.items ≡ out.old.items ++ bad_text front.now number name.now) }
{
    put(out, front)?;
    put_decimal(out, number)?;
    put(out, b": ")?;
    put(out, name)?;
    put(out, b"\n")
}

/// Puts the line that says what a certificate comes to behind a text, with its line feed: `certificate holds`,
/// `certificate bad in lattice B: RULE`, or `certificate bad at line N: CODE`.
///
/// # Errors
///
/// Want of memory. The text then ends in a part of the line.
pub fn put_verdict(out: &mut Vec<u8>, verdict: Verdict) -> Result<(), AllocError>
    ensures { OnOk result (out.new.items ≡ out.old.items ++ verdict_text verdict) }
{
    match verdict {
        Verdict::Holds => put(out, b"certificate holds\n"),
        Verdict::Fails { lattice, rule } => put_bad(
            out,
            b"certificate bad in lattice ",
            lattice,
            name_of_rule(rule),
        ),
        Verdict::Unread { line, code } => {
            put_bad(out, b"certificate bad at line ", line, name_of(code))
        }
    }
}
