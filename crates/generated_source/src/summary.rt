//! The summary of what is found in the generated source.

ghost use Rattle.std.specs.Prelude.{◌≡◌, ◌++◌, OnOk};
ghost use Rattle.generated_source.specs.Summary.{count_line, verdict_text, summary_text};

use crate::writing::put_numbered;
use annotate::put;
use qual_base::NoMemory;
use std::alloc::AllocError;

/// What is counted of a program: its qualifier variables, its constraints, its call sites, and its bounds that are exceeded.
#[derive(Clone, Copy, PartialEq, Eq, Debug)]
pub struct Counts {
    pub variables: u32,
    pub constraints: u32,
    pub sites: u32,
    pub errors: u32,
}

/// The line of a number behind a word, which ends with a space.
fn put_count(out: &mut Vec<u8>, word: &[u8], count: u32) -> Result<(), AllocError>
    ensures { OnOk result (out.new.items ≡ out.old.items ++ count_line word.now count) }
{
    put_numbered(out, word, count)?;
    put(out, b"\n")
}

/// The line that says whether the program is accepted: no bound is exceeded.
fn put_verdict(out: &mut Vec<u8>, errors: u32) -> Result<(), AllocError>
    ensures { OnOk result (out.new.items ≡ out.old.items ++ verdict_text errors) }
{
    match errors {
        0 => put(out, b"accepted\n"),
        _ => put(out, b"rejected\n"),
    }
}

/// Puts the summary of the generated source with `n` calling functions behind a text: six lines with its size, its counts,
/// and whether it is accepted.
///
/// # Errors
///
/// Want of memory. The text then ends in a part of the summary.
pub fn put_summary(out: &mut Vec<u8>, n: u32, counts: &Counts) -> Result<(), NoMemory>
    ensures { OnOk result (out.new.items ≡ out.old.items ++ summary_text n counts.now) }
{
    put_count(out, b"generated ", n)?;
    put_count(out, b"variables ", counts.variables)?;
    put_count(out, b"constraints ", counts.constraints)?;
    put_count(out, b"sites ", counts.sites)?;
    put_verdict(out, counts.errors)?;
    put_count(out, b"errors ", counts.errors)?;
    Ok(())
}
